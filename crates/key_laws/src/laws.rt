//! Laws of start keys, each the contract of a function that does nothing.

ghost use Rattle.start_keys.specs.Keys.{SameKeysAreOne};
ghost use Rattle.key_laws.specs.Keys.{KeyPairsFit, PairsAreLawful, PutKeepsOrder, StubKeysAreLawful, StubsOfClientKeys};

/// The pairs of a StartupMessage have names that aren't empty, values of at most 10,000 bytes, and no zero byte.
#[tactic(auto, using(crate::proofs::ByName::pairs_are_lawful))]
pub fn pairs_are_lawful()
    ensures { PairsAreLawful }
{}

/// A parameter that is put at the place of its name leaves the parameters in order.
#[tactic(auto, using(crate::proofs::ByName::put_keeps_order))]
pub fn put_keeps_order()
    ensures { PutKeepsOrder }
{}

/// The key that a stand-in server makes of a StartupMessage is lawful.
pub fn stub_keys_are_lawful()
    ensures { StubKeysAreLawful }
{}

/// A StartupMessage can spell the pairs of a lawful key.
#[tactic(auto, using(crate::proofs::ByName::key_pairs_fit))]
pub fn key_pairs_fit()
    ensures { KeyPairsFit }
{}

/// A stand-in server that is started by the pairs of a client's key starts the same session.
#[tactic(auto, using(crate::proofs::ByName::stubs_of_client_keys))]
pub fn stubs_of_client_keys()
    ensures { StubsOfClientKeys }
{}

/// Keys are found to be the same just where they are one.
#[tactic(auto, using(crate::proofs::ByName::same_keys_are_one))]
pub fn same_keys_are_one()
    ensures { SameKeysAreOne }
{}

//! Laws of start keys and of logins, each the contract of a function that does nothing.

ghost use Rattle.login_laws.specs.StartKeys.{StartKeysAreClientKeys};
ghost use Rattle.login_laws.specs.Cancels.{CancelKeysAreSent};
ghost use Rattle.login_laws.specs.Laws.{BoundedRowsAreLawful, PassedKeysAreLinkKeys, PassedKeysAreOfTheirRows, ReadRowsAreLawful, SettingsRowsAreLawful};

use frame_view::laws::first_read_is_spelled;

/// The key that a StartupMessage gives has a user, a database where it has a server, no zero byte in any text, and its
/// parameters in order, by names in lower case, none of them `user` or `database`.
pub fn start_keys_are_client_keys()
    ensures { StartKeysAreClientKeys }
{}

/// The key with which a login passes can start a link: it is lawful, has a user and a database, and its parameters stand in
/// order, by names in lower case, none of them `user` or `database`.
pub fn passed_keys_are_link_keys()
    ensures { PassedKeysAreLinkKeys }
{}

/// The login rows of settings name their servers' databases, where each database row does.
#[tactic(auto, using(crate::proofs::ByName::settings_rows_are_lawful))]
pub fn settings_rows_are_lawful()
    ensures { SettingsRowsAreLawful }
{}

/// The login rows of settings that a file spells name their servers' databases.
pub fn read_rows_are_lawful()
    ensures { ReadRowsAreLawful }
{}

/// The key with which a login passes is of the server that the row of its database names.
pub fn passed_keys_are_of_their_rows()
    ensures { PassedKeysAreOfTheirRows }
{}

/// The login rows of settings that are within their bounds name their servers' databases.
#[tactic(auto, using(crate::proofs::ByName::bounded_rows_are_lawful))]
pub fn bounded_rows_are_lawful()
    ensures { BoundedRowsAreLawful }
{}

/// The key that a login tells where its client asks to cancel is that of a CancelRequest among the client's bytes.
pub fn cancel_keys_are_sent()
    ensures { CancelKeysAreSent }
{
    first_read_is_spelled();
}

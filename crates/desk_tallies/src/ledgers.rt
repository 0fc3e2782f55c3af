//! One ledger for each class of decisions.

use std::marker::{Brand, PhantomData};
use std::sync::ledger::Ledger;

/// Names six ledgers: one for each class of decisions.
pub trait Ledgers {
    ghost use Rattle.link_desk.specs.Passes.{Made};

    ghost names: { Made };

    /// Into so many parts the shares of each can be cut.
    ghost parts: { Made };
}

/// A call picks which ledgers these are.
impl Ledgers for Brand {
    ghost use Rattle.link_desk.specs.Passes.{none_made};

    ghost names = { none_made };

    ghost parts = { none_made };
}

/// The ledger of clients let in.
pub struct Arrived<K: Ledgers> {
    ledgers: PhantomData<K>,
}

impl<K: Ledgers> Ledger for Arrived<K> {
    ghost name = { K.names.arrived };

    ghost parts = { K.parts.arrived };
}

/// The ledger of links granted.
pub struct Granted<K: Ledgers> {
    ledgers: PhantomData<K>,
}

impl<K: Ledgers> Ledger for Granted<K> {
    ghost name = { K.names.granted };

    ghost parts = { K.parts.granted };
}

/// The ledger of links given back.
pub struct GivenBack<K: Ledgers> {
    ledgers: PhantomData<K>,
}

impl<K: Ledgers> Ledger for GivenBack<K> {
    ghost name = { K.names.given_back };

    ghost parts = { K.parts.given_back };
}

/// The ledger of links lost, or not started.
pub struct Lost<K: Ledgers> {
    ledgers: PhantomData<K>,
}

impl<K: Ledgers> Ledger for Lost<K> {
    ghost name = { K.names.lost };

    ghost parts = { K.parts.lost };
}

/// The ledger of clients gone.
pub struct Left<K: Ledgers> {
    ledgers: PhantomData<K>,
}

impl<K: Ledgers> Ledger for Left<K> {
    ghost name = { K.names.left };

    ghost parts = { K.parts.left };
}

/// The ledger of all other decisions.
pub struct Others<K: Ledgers> {
    ledgers: PhantomData<K>,
}

impl<K: Ledgers> Ledger for Others<K> {
    ghost name = { K.names.others };

    ghost parts = { K.parts.others };
}

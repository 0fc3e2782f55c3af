//! What a desk shows.
ghost use Rattle.std.specs.Prelude.{◌≡◌};
ghost use Rattle.std.specs.Arc.{arc_value};
ghost use Rattle.desk_tallies.specs.declared.passes.TheConstants.{ALL_PARTS};
ghost use Rattle.desk_tallies.specs.Shares.{names_of, of_each, parts_of};
ghost use Rattle.memory_dial.specs.Homes.{IsEverywhere};

use crate::KEY_WORD;
use crate::book::put_view;
use crate::files::catalogue;
use crate::making::{CUT, key, limits};
use book_model::events::Beyond;
use desk_tallies::ledgers::Ledgers;
use desk_tallies::tallies::Blanks;
use link_desk::answers::Arrival;
use link_desk::desk::LinkDesk;
use memory_dial::{MemoryDial, Naming};
use pool_desk::desk::Desk;
use session_catalogue::Catalogue;
use std::alloc::{AllocError, Global};
use std::marker::Brand;
use std::rt::Clock;
use std::sync::{Arc, Wait};

/// A client comes to a desk and asks; what the desk shows then.
fn put_desk<N: Naming, K: Ledgers, R: Wait + Clock + Drop>(
    rt: R,
    alloc: Global,
    catalogue: Arc<Catalogue>,
    blanks: Blanks,
    out: &mut Vec<u8>,
) -> Result<(), AllocError>
    requires everywhere { IsEverywhere N.catalogue (arc_value catalogue) }
    requires names { names_of blanks ≡ K.names }
    requires parts { K.parts ≡ parts_of blanks }
    requires all { parts_of blanks ≡ of_each ALL_PARTS }
{
    let dialer = MemoryDial::<N>::new(alloc, catalogue, KEY_WORD, CUT);
    let desk = Desk::<R, MemoryDial<N>, K>::new(rt, alloc, dialer, limits(alloc)?, blanks)?;
    let key = key(alloc)?;
    let Some(mut pass) = desk.pass() else {
        return Err(AllocError);
    };
    let Arrival::Client(_) = desk.arrive(&mut pass, Beyond::Nothing) else {
        return Err(AllocError);
    };
    let _ = desk.ask(&mut pass, &key);
    let view = match desk.view(alloc, &mut pass) {
        Ok(view) => view,
        Err(_) => desk.view(alloc, &mut pass)?,
    };
    put_view(&view, out)
}

/// A desk and its view.
pub fn told<R: Wait + Clock + Drop>(
    rt: R,
    alloc: Global,
    out: &mut Vec<u8>,
) -> Result<(), AllocError> {
    let catalogue = catalogue(alloc)?;
    put_desk::<Brand, Brand, R>(rt, alloc, catalogue, Blanks::new(), out)
}

//! Who is let in where as many clients are there as may be.
ghost use Rattle.std.specs.Prelude.{◌≡◌};
ghost use Rattle.desk_tallies.specs.declared.passes.TheConstants.{ALL_PARTS};
ghost use Rattle.desk_tallies.specs.Shares.{names_of, of_each, parts_of};

use crate::guests::Guest;
use crate::meanwhile::TestDesk;
use crate::rows::Client;
use crate::servers::{Behind, Servers};
use crate::serving::is_told;
use book_model::events::Beyond;
use desk_tallies::ledgers::Ledgers;
use desk_tallies::passes::Pass;
use desk_tallies::tallies::Blanks;
use link_desk::desk::LinkDesk;
use play_tests::files::catalogue;
use pool_desk::desk::Desk;
use server_end::gate::OpenGate;
use std::alloc::{AllocError, Global};
use std::marker::Brand;
use std::test::Fail;
use worker_parts::{CUT, TestRuntime, limits, login_by, serve_from};

/// So many clients are there; the next comes from this host, and says and is told this.
#[derive(Clone, Copy, Drop)]
pub struct Crowd {
    pub count: u32,
    pub host: &'static str,
    pub next: Client,
}

/// So many clients come, each by a pass of its own.
fn come<R: TestRuntime, K: Ledgers>(
    alloc: Global,
    desk: &TestDesk<R, K>,
    count: u32,
) -> Result<Vec<Pass<K>>, AllocError> {
    let mut passes = Vec::new(alloc);
    for _ in 0..count {
        let Some(mut pass) = desk.pass() else {
            return Err(AllocError);
        };
        desk.arrive(&mut pass, Beyond::LocalConsole);
        passes.push(pass)?;
    }
    Ok(passes)
}

/// Whether the next client is told what it is to be told, by a desk over new ledgers.
fn is_next_told_over<R: TestRuntime, K: Ledgers>(
    rt: R,
    alloc: Global,
    blanks: Blanks,
    crowd: &Crowd,
) -> Result<bool, Fail>
    requires names { names_of blanks ≡ K.names }
    requires parts { K.parts ≡ parts_of blanks }
    requires all { parts_of blanks ≡ of_each ALL_PARTS }
{
    let servers = Servers::new(alloc, catalogue(alloc)?, Behind::Sessions)?;
    let limits = limits(alloc, 1, 2)?;
    let desk = Desk::<R, Servers, K>::new(rt, alloc, servers, limits, blanks)?;
    let _passes = come(alloc, &desk, crowd.count)?;
    let own = desk.pass().ok_or("no pass")?;
    let client = crowd.next;
    let login = login_by(alloc, client.under.settings(), 1)?;
    let guest = Guest::new(alloc, client.talk, CUT)?;
    let gate = OpenGate::new();
    let (guest, _) = serve_from(alloc, &desk, own, guest, login, 1, gate, crowd.host).ok_or(
        "held",
    )?;
    Ok(is_told(guest.given(), &client))
}

/// Whether the next client is told what it is to be told.
pub fn is_next_told<R: TestRuntime>(rt: R, alloc: Global, crowd: &Crowd) -> Result<bool, Fail> {
    is_next_told_over::<R, Brand>(rt, alloc, Blanks::new(), crowd)
}

//! What a book answers to cancels.
use crate::acts::{Act, Site, Story, Told, surprise};
use crate::book_parts::{Settings, Whose};
use message_view::{KeyView, Refusal};
use std::test::Fail;

/// The key word of a client, and that of its server.
static CLIENT: KeyView = KeyView { pid: 1, secret: 2 };

static SERVER: KeyView = KeyView {
    pid: 70,
    secret: 80,
};

/// A cancel for this link, whose server told this key word and is at this port of this machine.
fn strike(link: u64, server: KeyView, port: u16) -> Told {
    Told::Strike(link, server, Site::Here, port)
}

/// A client of ann's comes, and has link 1, which is keyed.
fn keyed() -> [(Act, Told); 4] {
    [
        (Act::Come, Told::Client(1)),
        (Act::Ask(1, Whose::Ann), Told::Queued(0)),
        (Act::Take(1), Told::Start(1, 0, None)),
        (Act::Keyed(1, CLIENT, SERVER), Told::Done),
    ]
}

/// A cancel is for the server of its client, and its link is closed then; the next client has a new one.
#[test]
fn a_cancelled_link_is_disposed(rt: HostRuntime) -> Result<(), Fail> {
    let acts = [
        (Act::Cancel(CLIENT), strike(1, SERVER, 5432)),
        (Act::EndLease(1), Told::Dispose),
        (Act::Cancel(CLIENT), Told::Nobody),
        (Act::Lost(1), Told::Done),
        (Act::Cancel(CLIENT), Told::Nobody),
        (Act::Come, Told::Client(2)),
        (Act::Ask(2, Whose::Ann), Told::Queued(0)),
        (Act::Take(2), Told::Start(2, 0, None)),
    ];
    let mut story = Story::new(rt.alloc(), Settings::Default)?;
    assert!(rt; surprise(&mut story, &keyed())? == None);
    assert!(rt; surprise(&mut story, &acts)? == None);
    assert!(rt; story.cancels() == [10, 1, 1, 1]);
    Ok(())
}

/// With another secret, or another process id, a key word is nobody's: the link is reset, and the next client has it.
#[test]
fn another_secret_is_nobodys(rt: HostRuntime) -> Result<(), Fail> {
    let acts = [
        (Act::Cancel(KeyView { pid: 1, secret: 3 }), Told::Nobody),
        (Act::Cancel(KeyView { pid: 2, secret: 2 }), Told::Nobody),
        (
            Act::Cancel(KeyView {
                pid: 65_537,
                secret: 2,
            }),
            Told::Nobody,
        ),
        (Act::Cancel(SERVER), Told::Nobody),
        (Act::EndLease(1), Told::Reset),
        (Act::Cancel(CLIENT), Told::Nobody),
        (Act::Back(1, Whose::Ann), Told::Done),
        (Act::Come, Told::Client(2)),
        (Act::Ask(2, Whose::Ann), Told::Queued(0)),
        (Act::Take(2), Told::Lend(1)),
    ];
    let mut story = Story::new(rt.alloc(), Settings::Default)?;
    assert!(rt; surprise(&mut story, &keyed())? == None);
    assert!(rt; surprise(&mut story, &acts)? == None);
    assert!(rt; story.cancels() == [9, 1, 0, 1]);
    Ok(())
}

/// A lease is keyed once, before its end, and of a lent link; it may be ended again. What isn't done is no decision.
#[test]
fn a_lease_is_keyed_once(rt: HostRuntime) -> Result<(), Fail> {
    let acts = [
        (Act::Keyed(1, CLIENT, SERVER), Told::Stranger(None)),
        (Act::Keyed(2, CLIENT, SERVER), Told::Stranger(None)),
        (Act::EndLease(2), Told::Stranger(None)),
        (Act::EndLease(1), Told::Reset),
        (Act::Keyed(1, CLIENT, SERVER), Told::Stranger(None)),
        (Act::EndLease(1), Told::Reset),
        (Act::Back(1, Whose::Ann), Told::Done),
        (Act::EndLease(1), Told::Stranger(None)),
        (Act::Keyed(1, CLIENT, SERVER), Told::Stranger(None)),
    ];
    let mut story = Story::new(rt.alloc(), Settings::Default)?;
    assert!(rt; surprise(&mut story, &keyed())? == None);
    assert!(rt; surprise(&mut story, &acts)? == None);
    assert!(rt; story.cancels() == [7, 1, 0, 2]);
    Ok(())
}

/// Of two leases of one key word the one that was keyed first is struck, and the other one once that has ended.
#[test]
fn the_earliest_lease_is_struck(rt: HostRuntime) -> Result<(), Fail> {
    let other = KeyView {
        pid: 71,
        secret: 81,
    };
    let acts = [
        (Act::Come, Told::Client(2)),
        (Act::Ask(2, Whose::AnnAt5433), Told::Queued(0)),
        (Act::Take(2), Told::Start(2, 0, None)),
        (Act::Keyed(2, CLIENT, other), Told::Done),
        (Act::Cancel(CLIENT), strike(1, SERVER, 5432)),
        (Act::Cancel(CLIENT), strike(1, SERVER, 5432)),
        (Act::EndLease(1), Told::Dispose),
        (Act::Cancel(CLIENT), strike(2, other, 5433)),
        (Act::EndLease(2), Told::Dispose),
        (Act::EndLease(1), Told::Dispose),
        (Act::Cancel(CLIENT), Told::Nobody),
    ];
    let mut story = Story::new(rt.alloc(), Settings::Default)?;
    assert!(rt; surprise(&mut story, &keyed())? == None);
    assert!(rt; surprise(&mut story, &acts)? == None);
    assert!(rt; story.cancels() == [14, 2, 3, 3]);
    Ok(())
}

/// Each link is struck at its own server's place, where the servers of two pools are at two hosts.
#[test]
fn each_link_is_struck_at_its_place(rt: HostRuntime) -> Result<(), Fail> {
    let other = KeyView { pid: 3, secret: 4 };
    let there = Told::Strike(2, SERVER, Site::Elsewhere, 6543);
    let acts = [
        (Act::Come, Told::Client(2)),
        (Act::Ask(2, Whose::AnnElsewhere), Told::Queued(0)),
        (Act::Take(2), Told::Start(2, 0, None)),
        (Act::Keyed(2, other, SERVER), Told::Done),
        (Act::Cancel(other), there),
        (Act::Cancel(CLIENT), strike(1, SERVER, 5432)),
        (Act::EndLease(1), Told::Dispose),
        (Act::Lost(1), Told::Done),
        (Act::Cancel(other), there),
    ];
    let mut story = Story::new(rt.alloc(), Settings::Default)?;
    assert!(rt; surprise(&mut story, &keyed())? == None);
    assert!(rt; surprise(&mut story, &acts)? == None);
    assert!(rt; story.cancels() == [13, 2, 3, 1]);
    Ok(())
}

/// A marked link that is given back all the same is taken back; lent anew it isn't marked, and may be keyed again.
#[test]
fn a_mark_goes_with_the_lease(rt: HostRuntime) -> Result<(), Fail> {
    let acts = [
        (Act::Cancel(CLIENT), strike(1, SERVER, 5432)),
        (Act::Back(1, Whose::Ann), Told::Done),
        (Act::Cancel(CLIENT), Told::Nobody),
        (Act::Ask(1, Whose::Ann), Told::Queued(0)),
        (Act::Take(1), Told::Lend(1)),
        (Act::Cancel(CLIENT), Told::Nobody),
        (Act::Keyed(1, CLIENT, SERVER), Told::Done),
        (Act::EndLease(1), Told::Reset),
        (Act::Back(1, Whose::Ann), Told::Done),
    ];
    let mut story = Story::new(rt.alloc(), Settings::Default)?;
    assert!(rt; surprise(&mut story, &keyed())? == None);
    assert!(rt; surprise(&mut story, &acts)? == None);
    assert!(rt; story.sizes()? == [1, 0, 0, 1]);
    Ok(())
}

/// After the last decision no event is one.
#[test]
fn after_the_last_decision_nothing_is_struck(rt: HostRuntime) -> Result<(), Fail> {
    let last = Told::Refuse(Refusal::LastDecision, None);
    let acts = [
        (Act::Cancel(CLIENT), last),
        (Act::EndLease(1), last),
        (Act::Keyed(1, CLIENT, SERVER), last),
    ];
    let mut story = Story::after(rt.alloc(), u64::MAX - 4)?;
    assert!(rt; surprise(&mut story, &keyed())? == None);
    assert!(rt; surprise(&mut story, &acts)? == None);
    assert!(rt; story.cancels() == [u64::MAX, 1, 0, 0]);
    Ok(())
}

//! What went over a link, as short stories, and the verdict on each.
ghost use Rattle.std.specs.Prelude.{◌≡◌, None, Some, false};
ghost use Rattle.disposal.specs.Tallies.{got_begun, got_ended, send_begun, send_ended};
ghost use Rattle.frame_view.specs.declared.server.TheConstants.{READY_FOR_QUERY as READY};

use disposal::{Traffic, Verdict};
use frame_view::client::{FLUSH, QUERY, SYNC};
use frame_view::server::{COMMAND_COMPLETE, NOTICE_RESPONSE, READY_FOR_QUERY};
use message_view::kinds::{FAILED, IDLE, IN_TRANSACTION};
use std::test::Fail;

/// A whole frame of this type is sent.
fn sent(traffic: &mut Traffic, kind: u8)
    requires { traffic.old.is_sending ≡ false }
    ensures { traffic.new ≡ send_ended (send_begun kind traffic.old) }
{
    traffic.send_begin(kind);
    traffic.send_end();
}

/// A whole ReadyForQuery comes, with this status.
fn answered(traffic: &mut Traffic, status: u8)
    requires { traffic.old.getting ≡ None }
    ensures { traffic.new ≡ got_ended (Some status) (got_begun READY traffic.old) }
{
    traffic.got_begin(READY_FOR_QUERY);
    traffic.got_end(Some(status));
}

#[test]
fn nothing_was_sent(rt: HostRuntime) -> Result<(), Fail> {
    let traffic = Traffic::new();
    assert!(rt; traffic.verdict() == Verdict::Settled);
    Ok(())
}

/// A server may tell a notice at any time.
#[test]
fn a_notice_alone_came(rt: HostRuntime) -> Result<(), Fail> {
    let mut traffic = Traffic::new();
    traffic.got_begin(NOTICE_RESPONSE);
    assert!(rt; traffic.verdict() == Verdict::MidFrame);
    traffic.got_end(None);
    assert!(rt; traffic.verdict() == Verdict::Settled);
    Ok(())
}

#[test]
fn a_query_is_answered(rt: HostRuntime) -> Result<(), Fail> {
    let mut traffic = Traffic::new();
    sent(&mut traffic, QUERY);
    assert!(rt; traffic.verdict() == Verdict::Unanswered);
    traffic.got_begin(COMMAND_COMPLETE);
    traffic.got_end(None);
    assert!(rt; traffic.verdict() == Verdict::Unanswered);
    traffic.got_begin(READY_FOR_QUERY);
    assert!(rt; traffic.verdict() == Verdict::MidFrame);
    traffic.got_end(Some(IDLE));
    assert!(rt; traffic.verdict() == Verdict::Settled);
    Ok(())
}

#[test]
fn half_a_frame_is_sent(rt: HostRuntime) -> Result<(), Fail> {
    let mut traffic = Traffic::new();
    sent(&mut traffic, QUERY);
    answered(&mut traffic, IDLE);
    traffic.send_begin(FLUSH);
    assert!(rt; traffic.verdict() == Verdict::MidFrame);
    traffic.send_end();
    assert!(rt; traffic.verdict() == Verdict::Unanswered);
    Ok(())
}

/// The last status is `I`, and the second Query may still run.
#[test]
fn one_of_two_queries_is_answered(rt: HostRuntime) -> Result<(), Fail> {
    let mut traffic = Traffic::new();
    sent(&mut traffic, QUERY);
    sent(&mut traffic, QUERY);
    answered(&mut traffic, IDLE);
    assert!(rt; traffic.verdict() == Verdict::Unanswered);
    answered(&mut traffic, IDLE);
    assert!(rt; traffic.verdict() == Verdict::Settled);
    Ok(())
}

#[test]
fn the_server_stands_in_a_block(rt: HostRuntime) -> Result<(), Fail> {
    let mut traffic = Traffic::new();
    sent(&mut traffic, QUERY);
    answered(&mut traffic, IN_TRANSACTION);
    assert!(rt; traffic.verdict() == Verdict::InBlock);
    sent(&mut traffic, SYNC);
    answered(&mut traffic, FAILED);
    assert!(rt; traffic.verdict() == Verdict::InBlock);
    Ok(())
}

#[test]
fn a_status_is_foreign(rt: HostRuntime) -> Result<(), Fail> {
    let mut traffic = Traffic::new();
    sent(&mut traffic, QUERY);
    answered(&mut traffic, b'i');
    assert!(rt; traffic.verdict() == Verdict::Broken);
    sent(&mut traffic, QUERY);
    answered(&mut traffic, IDLE);
    assert!(rt; traffic.verdict() == Verdict::Broken);
    Ok(())
}

#[test]
fn more_is_answered_than_asked_for(rt: HostRuntime) -> Result<(), Fail> {
    let mut traffic = Traffic::new();
    sent(&mut traffic, FLUSH);
    traffic.got_begin(READY_FOR_QUERY);
    assert!(rt; traffic.verdict() == Verdict::Broken);
    Ok(())
}

/// A ReadyForQuery that can't be read tells no status.
#[test]
fn something_else_came(rt: HostRuntime) -> Result<(), Fail> {
    let mut traffic = Traffic::new();
    sent(&mut traffic, QUERY);
    traffic.got_begin(READY_FOR_QUERY);
    traffic.broken();
    traffic.got_end(None);
    assert!(rt; traffic.verdict() == Verdict::Broken);
    Ok(())
}

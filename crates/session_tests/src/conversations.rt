//! A session from its start to its end, byte by byte.
use bytes::BytesMut;
use frame_view::{Side, Step, next_frame};
use message_view::KeyWord;
use session_machine::{Catalogue, Cause, Parameter, Session, StartKey, Text, solo_bytes};
use session_values::error_responses::put_fatal;
use std::alloc::Global;
use std::test::Fail;

const WORD: KeyWord = KeyWord {
    pid: 1,
    secret: 2,
    salt: [0; 4],
};

fn catalogue(alloc: Global) -> Result<Catalogue, Fail> {
    Ok(Catalogue::read(
        alloc,
        b"version\t16.0\ndatabase\tshop\ntable\tcity\tname\nrow\tBern\n",
    )?)
}

fn key(alloc: Global, database: &[u8]) -> Result<StartKey, Fail> {
    Ok(StartKey {
        row: Text::from_slice(alloc, database)?,
        host: None,
        port: 0,
        dbname: Text::from_slice(alloc, database)?,
        user: Text::from_slice(alloc, b"ann")?,
        parameters: Vec::new(alloc),
    })
}

fn session(alloc: Global) -> Result<Session, Fail> {
    Ok(Session::start(alloc, &catalogue(alloc)?, &key(alloc, b"shop")?)?.map_err(|_| "refused")?)
}

/// What the session answers to the first of these frames.
fn answer(alloc: Global, session: &mut Session, bytes: &[u8]) -> Result<BytesMut, Fail> {
    let mut out = BytesMut::new(alloc);
    if let Step::Whole(frame) = next_frame(bytes, 0, 1000, Side::Client) {
        session.step(alloc, &catalogue(alloc)?, frame, &mut out)?;
    }
    Ok(out)
}

/// The place of the first of these frames that is answered otherwise.
fn first_surprise(alloc: Global, talk: &[(&[u8], &[u8])]) -> Result<Option<usize>, Fail> {
    let mut session = session(alloc)?;
    for (at, (frame, wanted)) in talk.iter().enumerate() {
        if answer(alloc, &mut session, frame)?.as_slice() != *wanted {
            return Ok(Some(at));
        }
    }
    Ok(None)
}

#[test]
fn answers_frames(rt: HostRuntime) -> Result<(), Fail> {
    let talk: [(&[u8], &[u8]); 5] = [
        (b"Q\0\0\0\x05\0", b"I\0\0\0\x04Z\0\0\0\x05I"),
        (b"Q\0\0\0\x0aBEGIN\0", b"C\0\0\0\x0aBEGIN\0Z\0\0\0\x05T"),
        (b"Q\0\0\0\x0bCOMMIT\0", b"C\0\0\0\x0bCOMMIT\0Z\0\0\0\x05I"),
        (b"S\0\0\0\x04", b"Z\0\0\0\x05I"),
        (b"X\0\0\0\x04", b""),
    ];
    assert!(rt; first_surprise(rt.alloc(), &talk)?.is_none());
    Ok(())
}

/// A cancel is spent by the next Query that isn't skipped, and by no Sync.
#[test]
fn answers_a_cancel(rt: HostRuntime) -> Result<(), Fail> {
    let alloc = rt.alloc();
    let mut session = session(alloc)?;
    session.strike();
    let synced = answer(alloc, &mut session, b"S\0\0\0\x04")?;
    assert!(rt; synced.as_slice() == b"Z\0\0\0\x05I".as_slice());
    let cancelled = answer(alloc, &mut session, b"Q\0\0\0\x05\0")?;
    assert!(rt; cancelled.len() == 58);
    assert!(rt;
        cancelled
            .as_slice()
            .starts_with(b"E\0\0\0\x33SERROR\0VERROR\0C57014\0")
    );
    let next = answer(alloc, &mut session, b"Q\0\0\0\x05\0")?;
    assert!(rt; next.as_slice() == b"I\0\0\0\x04Z\0\0\0\x05I".as_slice());
    Ok(())
}

fn welcome(alloc: Global) -> Result<BytesMut, Fail> {
    let mut out = BytesMut::new(alloc);
    session(alloc)?.put_welcome(alloc, WORD, &mut out)?;
    Ok(out)
}

/// What a client is answered alone that sends a Sync.
fn alone(alloc: Global) -> Result<BytesMut, Fail> {
    let (catalogue, key) = (catalogue(alloc)?, key(alloc, b"shop")?);
    let mut out = BytesMut::new(alloc);
    solo_bytes(alloc, &catalogue, &key, WORD, b"S\0\0\0\x04", &mut out)?;
    Ok(out)
}

#[test]
fn answers_one_client_alone(rt: HostRuntime) -> Result<(), Fail> {
    let welcome = welcome(rt.alloc())?;
    let whole = alone(rt.alloc())?;
    assert!(rt; (welcome.len(), whole.len()) == (251, 257));
    assert!(rt; whole.as_slice().starts_with(welcome.as_slice()));
    Ok(())
}

#[test]
fn refuses_other_databases(rt: HostRuntime) -> Result<(), Fail> {
    let alloc = rt.alloc();
    let refused = Session::start(alloc, &catalogue(alloc)?, &key(alloc, b"other")?)?.err();
    assert!(rt; refused == Some(Cause::NoDatabase));
    let mut out = BytesMut::new(alloc);
    put_fatal(&mut out, Cause::NoDatabase)?;
    assert!(rt; out.len() == 52);
    Ok(())
}

#[test]
fn accepts_values(rt: HostRuntime) -> Result<(), Fail> {
    let alloc = rt.alloc();
    let style = Parameter::named(b"datestyle").ok_or("no parameter")?;
    assert!(rt; style == Parameter::DateStyle);
    assert!(rt; style.name() == b"DateStyle".as_slice());
    let kept = style.accepted(alloc, b"sql, dmy")?.ok_or("refused")?;
    assert!(rt; kept.is(b"SQL, DMY"));
    assert!(rt; Parameter::ExtraFloatDigits.accepted(alloc, b"4")?.is_none());
    Ok(())
}

fn needs_send<T: Send + Drop>(_value: T) {}

/// A session may go to another thread.
#[test]
fn may_go_to_another_thread(rt: HostRuntime) -> Result<(), Fail> {
    needs_send(session(rt.alloc())?);
    Ok(())
}

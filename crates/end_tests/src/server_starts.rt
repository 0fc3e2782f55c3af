//! Starts of a session with a server in memory (PostgreSQL manual, "Message Flow", "Start-up").
use crate::packets::{
    ann, bogus, cleartext, digest, digest_message, empty_answer, empty_query, invalid_value,
    let_in, no_database, nowhere, salted, secret, welcome, wrong, wrong_password,
};
use crate::server_talk::{ask, first_surprise, server};
use memory_ends::memory_server::ServerAuth;
use server_end::ServerEnd;
use std::test::Fail;

#[test]
fn nothing_is_asked_for(rt: HostRuntime) -> Result<(), Fail> {
    let alloc = rt.alloc();
    let mut server = server(alloc, ServerAuth::Trust, 100, None)?;
    let talk: [(&[u8], &[u8]); 2] = [(ann(), welcome()), (empty_query(), empty_answer())];
    assert!(rt; first_surprise(alloc, &mut *server, &talk)?.is_none());
    assert!(rt; (server.waits(), server.faults()) == ((2, 0), 0));
    Ok(())
}

#[test]
fn a_password_is_asked_for(rt: HostRuntime) -> Result<(), Fail> {
    let alloc = rt.alloc();
    let mut server = server(alloc, ServerAuth::Plain(b"secret"), 100, None)?;
    let talk: [(&[u8], &[u8]); 2] = [(ann(), cleartext()), (secret(), welcome())];
    assert!(rt; first_surprise(alloc, &mut *server, &talk)?.is_none());
    Ok(())
}

#[test]
fn a_digest_is_asked_for(rt: HostRuntime) -> Result<(), Fail> {
    let alloc = rt.alloc();
    let auth = ServerAuth::Md5 {
        salt: [1, 2, 3, 4],
        answer: digest(),
    };
    let mut server = server(alloc, auth, 100, None)?;
    let talk: [(&[u8], &[u8]); 2] = [(ann(), salted()), (digest_message(), welcome())];
    assert!(rt; first_surprise(alloc, &mut *server, &talk)?.is_none());
    Ok(())
}

/// After a wrong password nothing is answered.
#[test]
fn another_password_is_refused(rt: HostRuntime) -> Result<(), Fail> {
    let alloc = rt.alloc();
    let mut server = server(alloc, ServerAuth::Plain(b"secret"), 100, None)?;
    let talk: [(&[u8], &[u8]); 3] = [
        (ann(), cleartext()),
        (wrong(), wrong_password()),
        (empty_query(), b""),
    ];
    assert!(rt; first_surprise(alloc, &mut *server, &talk)?.is_none());
    Ok(())
}

/// AuthenticationOk comes first also where the session is refused.
#[test]
fn a_session_is_refused(rt: HostRuntime) -> Result<(), Fail> {
    let alloc = rt.alloc();
    for (start, error) in [(nowhere(), no_database()), (bogus(), invalid_value())] {
        let mut server = server(alloc, ServerAuth::Trust, 100, None)?;
        let heard = ask(alloc, &mut *server, start)?;
        assert!(rt; heard.as_slice().strip_prefix(let_in()) == Some(error));
    }
    Ok(())
}

#[test]
fn one_byte_a_call(rt: HostRuntime) -> Result<(), Fail> {
    let alloc = rt.alloc();
    let mut server = server(alloc, ServerAuth::Plain(b"secret"), 1, None)?;
    let talk: [(&[u8], &[u8]); 2] = [(ann(), cleartext()), (secret(), welcome())];
    assert!(rt; first_surprise(alloc, &mut *server, &talk)?.is_none());
    Ok(())
}

/// A packet is answered once its last byte has come.
#[test]
fn a_packet_in_pieces(rt: HostRuntime) -> Result<(), Fail> {
    let alloc = rt.alloc();
    let mut server = server(alloc, ServerAuth::Trust, 100, None)?;
    let mut heard = Vec::new(alloc);
    for byte in ann() {
        assert!(rt; heard.is_empty());
        heard = ask(alloc, &mut *server, &[*byte])?;
    }
    assert!(rt; heard.as_slice() == welcome());
    Ok(())
}

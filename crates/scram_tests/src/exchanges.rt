//! The exchange of RFC 7677, section 3, by both roles.
use scram::client_messages::{First, Last, first_message, last_message, last_unproved};
use scram::keys::{salted, signature};
use scram::server_messages::{Challenge, challenge_message, final_message};
use scram::{ClientKeys, Message, Salt, ServerKeys, initial_response};
use std::alloc::{AllocError, Global};
use std::test::Fail;

const OWN: &[u8] = b"rOprNGfwEbeRWgbNEkqO";

const JOINT: &[u8] = b"rOprNGfwEbeRWgbNEkqO%hvYDpWUa2RaTCAfuxFIlj)hNlF$k0";

const FIRST: &[u8] = b"n,,n=user,r=rOprNGfwEbeRWgbNEkqO";

const CHALLENGE: &[u8] =
    b"r=rOprNGfwEbeRWgbNEkqO%hvYDpWUa2RaTCAfuxFIlj)hNlF$k0,s=W22ZaJ0SNY7soEsUEjb6gQ==,i=4096";

const LAST: &[u8] =
    b"c=biws,r=rOprNGfwEbeRWgbNEkqO%hvYDpWUa2RaTCAfuxFIlj)hNlF$k0,p=dHzbZapWIk4jUhN+Ute9ytag9zjfMHgsqmmiz7AndVQ=";

const FINAL: &[u8] = b"v=6rriTRBi23WpRR/wtup+mMhUZUn/dB5nLTJRsjl95G4=";

/// What the last message says in base64.
const SIGNATURE: [u8; 32] =
    *b"\xea\xba\xe2\x4d\x10\x62\xdb\x75\xa9\x45\x1f\xf0\xb6\xea\x7e\x98\xc8\x54\x65\x49\xff\x74\x1e\x67\x2d\x32\x51\xb2\x39\x7d\xe4\x6e";

/// Whether a client with this password answers the challenge by the last message, and knows the server's last one beforehand.
fn is_client(alloc: Global, password: &[u8]) -> Result<bool, AllocError> {
    let Some(challenge) = Challenge::read(alloc, OWN, CHALLENGE)? else {
        return Ok(false);
    };
    let keys = ClientKeys::of(&salted(password, challenge.salt.as_bytes(), challenge.rounds));
    let unproved = last_unproved(challenge.nonce);
    let proof = keys.proof(&FIRST[3..], CHALLENGE, unproved.as_bytes());
    let last = last_message(challenge.nonce, &proof);
    let told = final_message(&keys.server, &FIRST[3..], CHALLENGE, unproved.as_bytes());
    Ok(last.as_bytes() == LAST && told.as_bytes() == FINAL)
}

/// What a server with this password's keys tells last, if it lets the client in.
fn told(alloc: Global, password: &[u8]) -> Result<Option<Message>, AllocError> {
    let Some(first) = First::read(FIRST) else {
        return Ok(None);
    };
    let Some(challenge) = Challenge::read(alloc, first.nonce, CHALLENGE)? else {
        return Ok(None);
    };
    let keys = ServerKeys::of(&salted(password, challenge.salt.as_bytes(), 4096));
    let Some(last) = Last::read(alloc, first.header, JOINT, LAST)? else {
        return Ok(None);
    };
    if keys
        .revealed(first.bare, CHALLENGE, last.unproved, &last.proof)
        .is_none()
    {
        return Ok(None);
    }
    Ok(Some(final_message(&keys.server, first.bare, CHALLENGE, last.unproved)))
}

fn is_told(message: Option<Message>) -> bool {
    match message {
        Some(message) => message.as_bytes() == FINAL,
        None => false,
    }
}

#[test]
fn client_proves_its_password(rt: HostRuntime) -> Result<(), Fail> {
    assert!(rt; is_client(rt.alloc(), b"pencil")?);
    assert!(rt; !is_client(rt.alloc(), b"Pencil")?);
    Ok(())
}

#[test]
fn server_lets_in_by_the_right_password(rt: HostRuntime) -> Result<(), Fail> {
    assert!(rt; is_told(told(rt.alloc(), b"pencil")?));
    assert!(rt; told(rt.alloc(), b"pencil ")?.is_none());
    Ok(())
}

/// Whether the server's challenge is the RFC's.
fn is_challenge(alloc: Global) -> Result<bool, AllocError> {
    let Some(read) = Challenge::read(alloc, OWN, CHALLENGE)? else {
        return Ok(false);
    };
    let written = challenge_message(
        OWN,
        b"%hvYDpWUa2RaTCAfuxFIlj)hNlF$k0",
        &read.salt,
        read.rounds,
    );
    Ok(read.nonce == JOINT && written.as_bytes() == CHALLENGE)
}

#[test]
fn messages_are_written(rt: HostRuntime) -> Result<(), Fail> {
    assert!(rt; first_message(OWN).as_bytes() == b"n,,n=,r=rOprNGfwEbeRWgbNEkqO".as_slice());
    assert!(rt; is_challenge(rt.alloc())?);
    let mut joint = Message::new();
    joint.push(OWN);
    joint.push(b"%hvYDpWUa2RaTCAfuxFIlj)hNlF$k0");
    assert!(rt; joint.as_bytes() == JOINT);
    let challenge = challenge_message(b"ab", b"c", &Salt::new(b"salt"), 1);
    assert!(rt; challenge.as_bytes() == b"r=abc,s=c2FsdA==,i=1".as_slice());
    Ok(())
}

/// The server's key of the password `pencil`, by an independent implementation (Python's hashlib and hmac).
const SERVER_KEY: [u8; 32] =
    *b"\xc1\xf3\xcb\xc1\xc1\x3a\x9d\x35\xa1\x4c\x09\x90\xee\xd9\x76\x29\xea\x22\x58\x63\xe5\x66\xa4\x31\x4a\xb9\x9f\x3f\x00\xe5\xd9\xd5";

#[test]
fn server_signs(rt: HostRuntime) {
    let salt = b"\x5b\x6d\x99\x68\x9d\x12\x35\x8e\xec\xa0\x4b\x14\x12\x36\xfa\x81";
    assert!(rt; ServerKeys::of(&salted(b"pencil", salt, 4096)).server == SERVER_KEY);
    assert!(rt;
        signature(
            &SERVER_KEY,
            &FIRST[3..],
            CHALLENGE,
            b"c=biws,r=rOprNGfwEbeRWgbNEkqO%hvYDpWUa2RaTCAfuxFIlj)hNlF$k0"
        ) == SIGNATURE
    );
}

/// The client key that a right proof reveals, if it is the right one.
fn revealed_client_key() -> Option<[u8; 32]> {
    let salted = salted(b"pencil", b"salt", 1);
    let keys = ClientKeys::of(&salted);
    let proof = keys.proof(b"n=,r=a", b"r=ab,s=c2FsdA==,i=1", b"c=biws,r=ab");
    let found = ServerKeys::of(&salted).revealed(
        b"n=,r=a",
        b"r=ab,s=c2FsdA==,i=1",
        b"c=biws,r=ab",
        &proof,
    )?;
    if found == keys.client {
        Some(found)
    } else {
        None
    }
}

#[test]
fn proofs_reveal_the_client_key(rt: HostRuntime) {
    assert!(rt; revealed_client_key().is_some());
}

#[test]
fn first_messages_come_in_a_frame(rt: HostRuntime) {
    let body = b"SCRAM-SHA-256\0\0\0\0\x20n,,n=user,r=rOprNGfwEbeRWgbNEkqO";
    assert!(rt; initial_response(body) == Some(FIRST));
}

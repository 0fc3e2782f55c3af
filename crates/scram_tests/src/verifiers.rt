//! What PostgreSQL 15 keeps of passwords: `ALTER ROLE .. PASSWORD` wrote them, `pg_authid` showed them.
use sasl_prep::prepared;
use scram::keys::salted;
use scram::{ServerKeys, Verifier};
use std::alloc::{AllocError, Global};
use std::test::Fail;

/// Whether the verifier is one of this password.
fn is_of(alloc: Global, text: &[u8], password: &[u8]) -> Result<bool, AllocError> {
    let Some(verifier) = Verifier::read(alloc, text)? else {
        return Ok(false);
    };
    let prepared = prepared(alloc, password)?;
    let own = ServerKeys::of(&salted(
        prepared.as_slice(),
        verifier.salt.as_bytes(),
        verifier.rounds,
    ));
    Ok(own.stored == verifier.keys.stored && own.server == verifier.keys.server)
}

const ASCII: &[u8] =
    b"SCRAM-SHA-256$4096:z/2VQaEfQZZtlyrehrqGIQ==$UDl38qRbGHkalZZzTcoS1C1PRIwnQC77596V9TNg39s=:VQwyXFgbbo5yelHwiww8EpvESqJ077jmAo2LnprUhco=";

#[test]
fn verifiers_of_passwords(rt: HostRuntime) -> Result<(), Fail> {
    // letters that are normalized; spaces of other scripts; written from the right; of mixed directions, so as it is
    let rows: &[(&[u8], &[u8])] = &[
        (ASCII, b"pencil"),
        (
            b"SCRAM-SHA-256$4096:jS6zZsxYi7ZmkYViB4xVnw==$Y8bJ38FEMEzj8L7Dg++DMqNaD2Jkvj0rATkcn17vewo=:xs5ZAEtbTJgQ+VVnq5bIVhU0b8LnFyJ7F1qigfyo8OA=",
            "ä\u{aa}\u{2168}".as_bytes(),
        ),
        (
            b"SCRAM-SHA-256$4096:sVxxixgHal8kP+XpUPc2pA==$JZVzOAXqZ+iFMdN/BRrHAtyZoSDWkuR0XBks2S74HrE=:6YidcGPJggzG+OkOySH+CTXLtdZTj1VeFUib4FFUdbA=",
            "pass\u{3000}word\u{200b}".as_bytes(),
        ),
        (
            b"SCRAM-SHA-256$4096:eScUj+Qxjfp1eB2kSW2gCA==$eLNl8pRktoM42Sjp0cnIq9kP5+jNqzQa7+ifoTv460g=:ICfMhXmP6OfaS7ubK9qyTTjXKTxG8lZVZXLyflMFBWo=",
            "\u{627}\u{628}\u{ad}".as_bytes(),
        ),
        (
            b"SCRAM-SHA-256$4096:QBl8LJgKm4ntyTK09Sa8ww==$DbWWH0RG8R2v//R8M25SxPFdRlc23DhQl6cPwkJcs5o=:A4MXyfOXtTrtJuLJHKjiH7PWsKG9bU0j6CswTUwNzRQ=",
            "\u{627}1".as_bytes(),
        ),
    ];
    for &(text, password) in rows {
        assert!(rt; is_of(rt.alloc(), text, password)?);
    }
    assert!(rt; !is_of(rt.alloc(), ASCII, b"Pencil")?);
    Ok(())
}

//! Secrets, and what proves that a client knows one.
use std::alloc::Global;
use std::test::Fail;
use user_file::Secret;

// RFC 1321, A.5: the digest of "abc".
const ABC: &[u8] = b"md5900150983cd24fb0d6963f7d28e17f72";

const UPPER: &[u8] = b"md5900150983CD24FB0D6963F7D28E17F72";

const SHORT: &[u8] = b"md5900150983cd24fb0d6963f7d28e17f7";

/// What a PostgreSQL keeps of the password `a`: made by Python's `hashlib` and `hmac`, with the salt 1, 2, 3, 4.
const VERIFIER: &[u8] =
    b"SCRAM-SHA-256$4096:AQIDBA==$iV3GRKYjRyrL2B22GcIQ7Csv+pBTGrbrlsi79t341m0=:1WYBkvZVFp03Z68FNIt8G4ukk9Zt+gW0hMWzQMkoVlw=";

/// The same of one round more than a password is tried by.
const MANY_ROUNDS: &[u8] =
    b"SCRAM-SHA-256$1000001:AQIDBA==$iV3GRKYjRyrL2B22GcIQ7Csv+pBTGrbrlsi79t341m0=:1WYBkvZVFp03Z68FNIt8G4ukk9Zt+gW0hMWzQMkoVlw=";

/// The same without its last byte, which makes it none.
const SPOILED: &[u8] =
    b"SCRAM-SHA-256$4096:AQIDBA==$iV3GRKYjRyrL2B22GcIQ7Csv+pBTGrbrlsi79t341m0=:1WYBkvZVFp03Z68FNIt8G4ukk9Zt+gW0hMWzQMkoVlw";

/// Whether the secret of a text accepts a password; none where memory was refused.
fn accepts(alloc: Global, secret: &[u8], user: &[u8], password: &[u8]) -> Option<bool> {
    let secret = Secret::read(alloc, secret).ok()?;
    secret.accepts_plain(alloc, user, password).ok()
}

#[test]
fn passwords(rt: HostRuntime) -> Result<(), Fail> {
    let rows: &[(&[u8], &[u8], &[u8], bool)] = &[
        (ABC, b"bc", b"a", true),
        (ABC, b"c", b"ab", true),
        (ABC, b"bc", b"b", false),
        (ABC, b"bc", b"", false),
        (UPPER, b"bc", b"a", false),
        (UPPER, b"bc", UPPER, true),
        (SHORT, b"bc", SHORT, true),
        (b"a", b"bc", b"a", true),
        (VERIFIER, b"bc", VERIFIER, false),
        (VERIFIER, b"bc", b"a", true),
        (VERIFIER, b"bc", b"b", false),
        (MANY_ROUNDS, b"bc", b"a", false),
        (SPOILED, b"bc", SPOILED, false),
        (
            b"SCRAM-SHA-1$4096:AA==",
            b"bc",
            b"SCRAM-SHA-1$4096:AA==",
            false,
        ),
        (b"SCRAM-SHA", b"bc", b"SCRAM-SHA", true),
        (b"", b"bc", b"", false),
        (b"", b"bc", b"a", false),
    ];
    for &(secret, user, password, accepted) in rows {
        assert!(rt; accepts(rt.alloc(), secret, user, password) == Some(accepted));
    }
    Ok(())
}

/// What the user `bc` with the password `a` answers to the salt 1, 2, 3, 4: digests made by `md5sum`.
const ANSWER: &[u8] = b"md596838e208aad1ff8fc396693d03e488d";

#[test]
fn answers(rt: HostRuntime) -> Result<(), Fail> {
    for text in [b"a".as_slice(), ABC] {
        let secret = Secret::read(rt.alloc(), text)?;
        let Some(answer) = secret.answer(b"bc", [1, 2, 3, 4]) else {
            return Err("no answer")?;
        };
        assert!(rt; answer.as_slice() == ANSWER);
        assert!(rt; secret.accepts_md5(b"bc", [1, 2, 3, 4], ANSWER));
        assert!(rt; !secret.accepts_md5(b"bc", [1, 2, 3, 5], ANSWER));
    }
    // a password's digits are those of one name
    let password = Secret::read(rt.alloc(), b"a")?;
    assert!(rt; !password.accepts_md5(b"ann", [1, 2, 3, 4], ANSWER));
    Ok(())
}

/// No answer is right of a verifier or of what is no secret, and none is made by them.
#[test]
fn no_answers(rt: HostRuntime) -> Result<(), Fail> {
    for text in [VERIFIER, SPOILED, b"".as_slice()] {
        let secret = Secret::read(rt.alloc(), text)?;
        assert!(rt; !secret.answers_md5());
        assert!(rt; secret.answer(b"bc", [1, 2, 3, 4]).is_none());
        assert!(rt; !secret.accepts_md5(b"bc", [1, 2, 3, 4], ANSWER));
        assert!(rt; !secret.accepts_md5(b"bc", [1, 2, 3, 4], b""));
    }
    Ok(())
}

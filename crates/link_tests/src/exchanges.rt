//! What a password, its digest, and its verifier with the client key, make of a server that asks for SCRAM. The answers are Python's, by its `hashlib` and `hmac`.
use bytes::BytesMut;
use credentials::Credential;
use message_view::KeyWord;
use scram::Salt;
use scram::keys::salted;
use std::test::Fail;
use user_file::Secret;

const WORD: KeyWord = KeyWord {
    pid: 1,
    secret: 2,
    salt: [1, 2, 3, 4],
};

const FIRST: &[u8] = b"p\0\0\0\x36SCRAM-SHA-256\0\0\0\0\x20n,,n=,r=is/1kQLC7hsNqWSUA2WTSDo9";

const CHALLENGE: &[u8] = b"r=is/1kQLC7hsNqWSUA2WTSDo93rfc,s=AQIDBAUGBwg=,i=2";

const LAST: &[u8] =
    b"p\0\0\0\x58c=biws,r=is/1kQLC7hsNqWSUA2WTSDo93rfc,p=WyAARm+Py03zRF0SVB6vYLV542AVmS7Q/TCwPDo2+Qk=";

const PROOF: &[u8] = b"v=k7dU0WG8rOSieGIUSd7/a6vlu5IEbupz7A/AUVk5hP8=";

/// What PostgreSQL keeps of `pencil` under the challenge's salt and rounds, and the client key that belongs to it.
const VERIFIER: &[u8] =
    b"SCRAM-SHA-256$2:AQIDBAUGBwg=$7HMmZ1EJG3NUidGJAkjrM4V2e/kiAegYV5mArAgvoe4=:1vy+bRkrRY9hKzRQOi+5uddQMrnvLR3KIb6e2HfDeak=";

const CLIENT_KEY: [u8; 32] = [
    0x7f, 0x13, 0x41, 0x11, 0x32, 0x3c, 0x94, 0xe4, 0x44, 0x77, 0x06, 0xff, 0x06, 0x55, 0x62, 0xe5,
    0xd3, 0x70, 0xd6, 0xd8, 0xfa, 0x15, 0xf5, 0x5a, 0xbe, 0xa6, 0xdb, 0x24, 0x59, 0xe2, 0x0f, 0x12,
];

#[test]
fn password_answers_a_challenge(rt: HostRuntime) -> Result<(), Fail> {
    let alloc = rt.alloc();
    let secret = Secret::read(alloc, b"pencil")?;
    let credential = Credential::new(alloc, &secret, None, &WORD, 5);
    assert!(rt; credential.answers_scram());
    let mut out = BytesMut::new(alloc);
    credential.put_first(&mut out)?;
    assert!(rt; out.as_slice() == FIRST);
    let Some(exchange) = credential.exchange(alloc, CHALLENGE)? else {
        return Err("no exchange")?;
    };
    let mut last = BytesMut::new(alloc);
    exchange.put_last(&mut last)?;
    assert!(rt; last.as_slice() == LAST);
    assert!(rt; exchange.is_proved_by(PROOF));
    assert!(rt; !exchange.is_proved_by(&PROOF[..45]));
    Ok(())
}

/// The link's number is in the nonce, so a challenge to one start is none to another.
#[test]
fn each_link_has_a_nonce_of_its_own(rt: HostRuntime) -> Result<(), Fail> {
    let alloc = rt.alloc();
    let secret = Secret::read(alloc, b"pencil")?;
    let other = Credential::new(alloc, &secret, None, &WORD, 6);
    assert!(rt; other.exchange(alloc, CHALLENGE)?.is_none());
    Ok(())
}

/// By its client key a verifier answers a server that has the same one, as the password would; one that is salted otherwise it doesn't.
#[test]
fn verifier_answers_by_its_client_key(rt: HostRuntime) -> Result<(), Fail> {
    let alloc = rt.alloc();
    let secret = Secret::read(alloc, VERIFIER)?;
    let credential = Credential::new(alloc, &secret, Some(CLIENT_KEY), &WORD, 5);
    assert!(rt; credential.answers_scram());
    let Some(exchange) = credential.exchange(alloc, CHALLENGE)? else {
        return Err("no exchange")?;
    };
    let mut last = BytesMut::new(alloc);
    exchange.put_last(&mut last)?;
    assert!(rt; last.as_slice() == LAST);
    assert!(rt; exchange.is_proved_by(PROOF));
    for other in [
        b"r=is/1kQLC7hsNqWSUA2WTSDo93rfc,s=AQIDBAUGBwk=,i=2".as_slice(),
        b"r=is/1kQLC7hsNqWSUA2WTSDo93rfc,s=AQIDBAUGBwg=,i=3".as_slice(),
    ] {
        assert!(rt; credential.exchange(alloc, other)?.is_none());
    }
    Ok(())
}

#[test]
fn verifier_alone_answers_nothing(rt: HostRuntime) -> Result<(), Fail> {
    let alloc = rt.alloc();
    let secret = Secret::read(alloc, VERIFIER)?;
    let credential = Credential::new(alloc, &secret, None, &WORD, 5);
    assert!(rt; !credential.answers_scram());
    assert!(rt; credential.exchange(alloc, CHALLENGE)?.is_none());
    Ok(())
}

#[test]
fn digest_answers_no_scram(rt: HostRuntime) -> Result<(), Fail> {
    let alloc = rt.alloc();
    let secret = Secret::Md5([b'0'; 32]);
    let credential = Credential::new(alloc, &secret, None, &WORD, 5);
    assert!(rt; !credential.answers_scram());
    assert!(rt; credential.exchange(alloc, CHALLENGE)?.is_none());
    assert!(rt; matches!(credential.secret(), Secret::Md5(_)));
    Ok(())
}

/// Nine salts, of which eight are kept: each is answered right, at the first time and at the second.
#[test]
fn password_is_salted_as_often_as_asked(rt: HostRuntime) -> Result<(), Fail> {
    let alloc = rt.alloc();
    let secret = Secret::read(alloc, b"pencil")?;
    let Secret::Plain(password) = &secret else {
        return Err("no exchange")?;
    };
    for _ in 0..2 {
        for salt in 0..9u8 {
            let kept = password.salted(alloc, &Salt::new(&[salt]), 1)?;
            assert!(rt; kept == salted(b"pencil", &[salt], 1));
        }
    }
    Ok(())
}

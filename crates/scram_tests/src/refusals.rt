//! Texts that aren't read, each beside one that is.
use scram::client_messages::{First, Last};
use scram::server_messages::Challenge;
use scram::{Verifier, initial_response};
use std::alloc::{AllocError, Global};
use std::test::Fail;

#[test]
fn first_messages(rt: HostRuntime) -> Result<(), Fail> {
    let refused: &[&[u8]] = &[
        b"",
        b"n,",
        // to bind the channel; to be somebody else; what must be understood
        b"p=tls-unique,,n=,r=ab",
        b"n,a=ann,n=,r=ab",
        b"n,,m=x,n=,r=ab",
        b"N,,n=,r=ab",
        // no nonce, or one with a space, a control character, a byte of another script
        b"n,,n=",
        b"n,,n=,r=",
        b"n,,n=,r=,x=1",
        b"n,,r=ab",
        b"n,,n=,r=a b",
        b"n,,n=,r=ab\x7f",
        b"n,,n=,r=\xc3\xa4",
    ];
    for &text in refused {
        assert!(rt; First::read(text).is_none());
    }
    assert!(rt; First::read(b"n,,n=,r=ab").is_some());
    assert!(rt; nonce_of(b"y,,n=*,r=ab,x=1") == b"ab".as_slice());
    Ok(())
}

/// The nonce of a client's first message, if it is one.
fn nonce_of(text: &[u8]) -> &[u8] {
    match First::read(text) {
        Some(first) => first.nonce,
        None => b"",
    }
}

#[test]
fn lengths_of_nonces(rt: HostRuntime) {
    let mut text = [b'x'; 137];
    text[..8].copy_from_slice(b"n,,n=,r=");
    assert!(rt; First::read(&text[..136]).is_some());
    assert!(rt; First::read(&text).is_none());
}

/// Whether the client that sent the nonce `ab` takes this for its challenge.
fn is_challenge(alloc: Global, text: &[u8]) -> Result<bool, AllocError> {
    Ok(Challenge::read(alloc, b"ab", text)?.is_some())
}

#[test]
fn challenges(rt: HostRuntime) -> Result<(), Fail> {
    let refused: &[&[u8]] = &[
        // the nonce isn't continued, or nothing is added
        b"r=aXc,s=AA==,i=1",
        b"r=xab,s=AA==,i=1",
        b"r=ab,s=AA==,i=1",
        b"r=,s=AA==,i=1",
        // rounds
        b"r=abc,s=AA==,i=0",
        b"r=abc,s=AA==,i=1000001",
        b"r=abc,s=AA==,i=4000000000",
        b"r=abc,s=AA==,i=18446744073709551617",
        b"r=abc,s=AA==,i=",
        b"r=abc,s=AA==,i=+1",
        // no salt, one of 65 bytes, one without its padding, with bits left over
        b"r=abc,s=,i=1",
        b"r=abc,s=AAAAAAAAAAAAAAAAAAAAAAAAAAAAAAAAAAAAAAAAAAAAAAAAAAAAAAAAAAAAAAAAAAAAAAAAAAAAAAAAAAAAAAA=,i=1",
        b"r=abc,s=AA,i=1",
        b"r=abc,s=AB==,i=1",
        // another order, an extension, less
        b"s=AA==,r=abc,i=1",
        b"m=x,r=abc,s=AA==,i=1",
        b"r=abc,s=AA==,i=1,x=1",
        b"r=abc,s=AA==",
    ];
    for &text in refused {
        assert!(rt; !is_challenge(rt.alloc(), text)?);
    }
    let read: &[&[u8]] = &[
        b"r=abc,s=AA==,i=1",
        b"r=abc,s=AAAAAAAAAAAAAAAAAAAAAAAAAAAAAAAAAAAAAAAAAAAAAAAAAAAAAAAAAAAAAAAAAAAAAAAAAAAAAAAAAAAAAA==,i=1000000",
    ];
    for &text in read {
        assert!(rt; is_challenge(rt.alloc(), text)?);
    }
    Ok(())
}

/// Whether this is the last message of a client that sent `n,,` first, where the nonce of both is `abc`.
fn is_last(alloc: Global, text: &[u8]) -> Result<bool, AllocError> {
    Ok(Last::read(alloc, b"n,,", b"abc", text)?.is_some())
}

#[test]
fn last_messages(rt: HostRuntime) -> Result<(), Fail> {
    let refused: &[&[u8]] = &[
        // the channel binding of another header; another nonce, a longer one
        b"c=eSws,r=abc,p=AAAAAAAAAAAAAAAAAAAAAAAAAAAAAAAAAAAAAAAAAAA=",
        b"c=biw=,r=abc,p=AAAAAAAAAAAAAAAAAAAAAAAAAAAAAAAAAAAAAAAAAAA=",
        b"c=,r=abc,p=AAAAAAAAAAAAAAAAAAAAAAAAAAAAAAAAAAAAAAAAAAA=",
        b"c=biws,r=abd,p=AAAAAAAAAAAAAAAAAAAAAAAAAAAAAAAAAAAAAAAAAAA=",
        b"c=biws,r=abcd,p=AAAAAAAAAAAAAAAAAAAAAAAAAAAAAAAAAAAAAAAAAAA=",
        b"r=abc,c=biws,p=AAAAAAAAAAAAAAAAAAAAAAAAAAAAAAAAAAAAAAAAAAA=",
        // a proof of 31 bytes, of 33, with bits left over
        b"c=biws,r=abc,p=AAAAAAAAAAAAAAAAAAAAAAAAAAAAAAAAAAAAAAAAAA==",
        b"c=biws,r=abc,p=AAAAAAAAAAAAAAAAAAAAAAAAAAAAAAAAAAAAAAAAAAAA",
        b"c=biws,r=abc,p=AAAAAAAAAAAAAAAAAAAAAAAAAAAAAAAAAAAAAAAAAAB=",
        // no proof, one that isn't the last attribute, and nothing else
        b"c=biws,r=abc",
        b"c=biws,r=abc,p=AAAAAAAAAAAAAAAAAAAAAAAAAAAAAAAAAAAAAAAAAAA=,x=1",
        b",p=AAAAAAAAAAAAAAAAAAAAAAAAAAAAAAAAAAAAAAAAAAA=",
    ];
    for &text in refused {
        assert!(rt; !is_last(rt.alloc(), text)?);
    }
    let read: &[&[u8]] = &[
        b"c=biws,r=abc,p=AAAAAAAAAAAAAAAAAAAAAAAAAAAAAAAAAAAAAAAAAAA=",
        b"c=biws,r=abc,x=1,p=AAAAAAAAAAAAAAAAAAAAAAAAAAAAAAAAAAAAAAAAAAA=",
    ];
    for &text in read {
        assert!(rt; is_last(rt.alloc(), text)?);
    }
    Ok(())
}

fn is_verifier(alloc: Global, text: &[u8]) -> Result<bool, AllocError> {
    Ok(Verifier::read(alloc, text)?.is_some())
}

#[test]
fn verifiers(rt: HostRuntime) -> Result<(), Fail> {
    let refused: &[&[u8]] = &[
        // another scheme
        b"SCRAM-SHA-1$4096:AA==$AAAAAAAAAAAAAAAAAAAAAAAAAAAAAAAAAAAAAAAAAAA=:AAAAAAAAAAAAAAAAAAAAAAAAAAAAAAAAAAAAAAAAAAA=",
        b"SCRAM-SHA-256-PLUS$4096:AA==$AAAAAAAAAAAAAAAAAAAAAAAAAAAAAAAAAAAAAAAAAAA=:AAAAAAAAAAAAAAAAAAAAAAAAAAAAAAAAAAAAAAAAAAA=",
        b"scram-sha-256$4096:AA==$AAAAAAAAAAAAAAAAAAAAAAAAAAAAAAAAAAAAAAAAAAA=:AAAAAAAAAAAAAAAAAAAAAAAAAAAAAAAAAAAAAAAAAAA=",
        // rounds
        b"SCRAM-SHA-256$0:AA==$AAAAAAAAAAAAAAAAAAAAAAAAAAAAAAAAAAAAAAAAAAA=:AAAAAAAAAAAAAAAAAAAAAAAAAAAAAAAAAAAAAAAAAAA=",
        b"SCRAM-SHA-256$2147483648:AA==$AAAAAAAAAAAAAAAAAAAAAAAAAAAAAAAAAAAAAAAAAAA=:AAAAAAAAAAAAAAAAAAAAAAAAAAAAAAAAAAAAAAAAAAA=",
        b"SCRAM-SHA-256$:AA==$AAAAAAAAAAAAAAAAAAAAAAAAAAAAAAAAAAAAAAAAAAA=:AAAAAAAAAAAAAAAAAAAAAAAAAAAAAAAAAAAAAAAAAAA=",
        // salts
        b"SCRAM-SHA-256$4096:$AAAAAAAAAAAAAAAAAAAAAAAAAAAAAAAAAAAAAAAAAAA=:AAAAAAAAAAAAAAAAAAAAAAAAAAAAAAAAAAAAAAAAAAA=",
        b"SCRAM-SHA-256$4096:AAAAAAAAAAAAAAAAAAAAAAAAAAAAAAAAAAAAAAAAAAAAAAAAAAAAAAAAAAAAAAAAAAAAAAAAAAAAAAAAAAAAAAA=$AAAAAAAAAAAAAAAAAAAAAAAAAAAAAAAAAAAAAAAAAAA=:AAAAAAAAAAAAAAAAAAAAAAAAAAAAAAAAAAAAAAAAAAA=",
        b"SCRAM-SHA-256$4096:AA=$AAAAAAAAAAAAAAAAAAAAAAAAAAAAAAAAAAAAAAAAAAA=:AAAAAAAAAAAAAAAAAAAAAAAAAAAAAAAAAAAAAAAAAAA=",
        // keys
        b"SCRAM-SHA-256$4096:AA==$AAAAAAAAAAAAAAAAAAAAAAAAAAAAAAAAAAAAAAAAAA==:AAAAAAAAAAAAAAAAAAAAAAAAAAAAAAAAAAAAAAAAAAA=",
        b"SCRAM-SHA-256$4096:AA==$AAAAAAAAAAAAAAAAAAAAAAAAAAAAAAAAAAAAAAAAAAA=:AAAAAAAAAAAAAAAAAAAAAAAAAAAAAAAAAAAAAAAAAAAA",
        b"SCRAM-SHA-256$4096:AA==$AAAAAAAAAAAAAAAAAAAAAAAAAAAAAAAAAAAAAAAAAAA=:AAAAAAAAAAAAAAAAAAAAAAAAAAAAAAAAAAAAAAAAAAA",
        b"SCRAM-SHA-256$4096:AA==$AAAAAAAAAAAAAAAAAAAAAAAAAAAAAAAAAAAAAAAAAAB=:AAAAAAAAAAAAAAAAAAAAAAAAAAAAAAAAAAAAAAAAAAA=",
        // less, and more
        b"SCRAM-SHA-256$4096:AA==$AAAAAAAAAAAAAAAAAAAAAAAAAAAAAAAAAAAAAAAAAAA=",
        b"SCRAM-SHA-256$4096:AA==$AAAAAAAAAAAAAAAAAAAAAAAAAAAAAAAAAAAAAAAAAAA=:AAAAAAAAAAAAAAAAAAAAAAAAAAAAAAAAAAAAAAAAAAA=:",
        b"",
    ];
    for &text in refused {
        assert!(rt; !is_verifier(rt.alloc(), text)?);
    }
    let read: &[&[u8]] = &[
        b"SCRAM-SHA-256$1:AA==$AAAAAAAAAAAAAAAAAAAAAAAAAAAAAAAAAAAAAAAAAAA=:AAAAAAAAAAAAAAAAAAAAAAAAAAAAAAAAAAAAAAAAAAA=",
        b"SCRAM-SHA-256$2147483647:AAAAAAAAAAAAAAAAAAAAAAAAAAAAAAAAAAAAAAAAAAAAAAAAAAAAAAAAAAAAAAAAAAAAAAAAAAAAAAAAAAAAAA==$AAAAAAAAAAAAAAAAAAAAAAAAAAAAAAAAAAAAAAAAAAA=:AAAAAAAAAAAAAAAAAAAAAAAAAAAAAAAAAAAAAAAAAAA=",
    ];
    for &text in read {
        assert!(rt; is_verifier(rt.alloc(), text)?);
    }
    Ok(())
}

#[test]
fn initial_responses(rt: HostRuntime) {
    let refused: &[&[u8]] = &[
        b"SCRAM-SHA-256-PLUS\0\0\0\0\x0an,,n=,r=ab",
        b"SCRAM-SHA-1\0\0\0\0\x0an,,n=,r=ab",
        // a length that is one less, one more; no message; no length
        b"SCRAM-SHA-256\0\0\0\0\x09n,,n=,r=ab",
        b"SCRAM-SHA-256\0\0\0\0\x0bn,,n=,r=ab",
        b"SCRAM-SHA-256\0\xff\xff\xff\xff",
        b"SCRAM-SHA-256\0\0\0\0",
        b"SCRAM-SHA-256\0",
        b"",
    ];
    for &body in refused {
        assert!(rt; initial_response(body).is_none());
    }
    assert!(rt; initial_response(b"SCRAM-SHA-256\0\0\0\0\x0an,,n=,r=ab") == Some(b"n,,n=,r=ab"));
}

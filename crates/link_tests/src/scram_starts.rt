//! Starts at servers that ask for SCRAM, whatever they are sent. What the honest one says is Python's, by its `hashlib` and `hmac`.
use crate::making::{SHOP, Start, begin};
use crate::saying_end::saying_end;
use link_start::start::StartCause;
use std::alloc::Global;
use std::test::Fail;

/// AuthenticationSASL, AuthenticationSASLContinue, AuthenticationSASLFinal, AuthenticationOk and ReadyForQuery.
const HONEST: &[u8] =
    b"R\0\0\0\x17\0\0\0\x0aSCRAM-SHA-256\0\0R\0\0\0\x32\0\0\0\x0br=g0PCUjH0HES5OkstqfVSaCj0+,s=c2FsdA==,i=1R\0\0\0\x36\0\0\0\x0cv=1viuNm444/nt0M2yvyQ4qJTgOObFAKqsKiVBheixykE=R\0\0\0\x08\0\0\0\0Z\0\0\0\x05I";

/// AuthenticationOk right behind the question.
const UNPROVED: &[u8] = b"R\0\0\0\x17\0\0\0\x0aSCRAM-SHA-256\0\0R\0\0\0\x08\0\0\0\0";

const PLUS: &[u8] = b"R\0\0\0\x1c\0\0\0\x0aSCRAM-SHA-256-PLUS\0\0";

/// What comes of a start at a server that says these words.
fn begun(
    alloc: Global,
    words: &'static [u8],
    start: Start,
) -> Result<Result<bool, StartCause>, Fail> {
    match begin(alloc, saying_end(alloc, words, 7)?, start)? {
        Ok(link) => Ok(Ok(link.number() == 5)),
        Err(cause) => Ok(Err(cause)),
    }
}

#[test]
fn the_server_proves_itself(rt: HostRuntime) -> Result<(), Fail> {
    let alloc = rt.alloc();
    assert!(rt; begun(alloc, HONEST, SHOP)?.is_ok_and(|is_five| is_five));
    let other = Start {
        password: b"other",
        ..SHOP
    };
    assert!(rt; matches!(begun(alloc, HONEST, other)?, Err(StartCause::Unexpected)));
    assert!(rt; matches!(begun(alloc, UNPROVED, SHOP)?, Err(StartCause::Unexpected)));
    Ok(())
}

/// A digest answers no SCRAM, and nobody a mechanism that binds the channel.
#[test]
fn what_cannot_be_answered_is_told(rt: HostRuntime) -> Result<(), Fail> {
    let alloc = rt.alloc();
    let digest = Start {
        password: b"md500000000000000000000000000000000",
        ..SHOP
    };
    for (words, start) in [(HONEST, digest), (PLUS, SHOP)] {
        let Err(StartCause::Unanswerable(question)) = begun(alloc, words, start)? else {
            return Err("it was answered")?;
        };
        assert!(rt; question.number() == 10);
    }
    Ok(())
}

//! Worked logins by SCRAM. The texts were made by Python's `hashlib` and `hmac`, of the key word and the key of the salts of
//! `login_parts`.
use crate::login_parts::{
    ANN, ARRIVES, BC, End, MALFORMED, OK, ROOT_AT_CONSOLE, WRONG, ZED, is_login, is_login_by,
};
use std::test::Fail;

const BY_SCRAM: &[u8] =
    b"[databases]\nshop = host=127.0.0.1 port=5432 dbname=shop\n[pgbouncer]\nauth_type = scram-sha-256\nadmin_users = root\n";

const BY_MD5: &[u8] = b"[databases]\nshop = host=127.0.0.1\n[pgbouncer]\nauth_type = md5\n";

const BY_PASSWORD: &[u8] = b"[databases]\nshop = host=127.0.0.1\n[pgbouncer]\nauth_type = plain\n";

/// A password is salted in 4,096 rounds at each login, so these logins are cut at every so many bytes alone.
const BYTES: usize = 83;

/// AuthenticationSASL, which offers SCRAM-SHA-256.
const OFFER: &[u8] = b"R\0\0\0\x17\0\0\0\x0aSCRAM-SHA-256\0\0";

/// The first message of everybody but vera.
const FIRST: &[u8] = b"p\0\0\02SCRAM-SHA-256\0\0\0\0\x1cn,,n=,r=rOprNGfwEbeRWgbNEkqO";

const ANNS_CHALLENGE: &[u8] =
    b"R\0\0\0X\0\0\0\x0br=rOprNGfwEbeRWgbNEkqOgL3lV3fXX9J4ui3CsSIAOOru,s=uG9uC5AtQROGTqFkpPZHMA==,i=4096";

const ANNS_PROOF: &[u8] =
    b"p\0\0\0hc=biws,r=rOprNGfwEbeRWgbNEkqOgL3lV3fXX9J4ui3CsSIAOOru,p=Gp/rM5ufkH9V94WbEtgFgy+batYYop5Ba5u+4fv4JU4=";

const PROOF_TO_ANN: &[u8] = b"R\0\0\06\0\0\0\x0cv=flCiiuFNYV7DawRKGb9MZ9oEq816K08TOD5/VfZN+qo=";

/// Its last bit is another.
const ANNS_WRONG_PROOF: &[u8] =
    b"p\0\0\0hc=biws,r=rOprNGfwEbeRWgbNEkqOgL3lV3fXX9J4ui3CsSIAOOru,p=Gp/rM5ufkH9V94WbEtgFgy+batYYop5Ba5u+4fv4JU8=";

/// An unknown name has a salt like any other.
const ZEDS_CHALLENGE: &[u8] =
    b"R\0\0\0X\0\0\0\x0br=rOprNGfwEbeRWgbNEkqOgL3lV3fXX9J4ui3CsSIAOOru,s=0o0fFsFPF0M52I02WCtRYw==,i=4096";

const ZEDS_PROOF: &[u8] =
    b"p\0\0\0hc=biws,r=rOprNGfwEbeRWgbNEkqOgL3lV3fXX9J4ui3CsSIAOOru,p=ZpzDTRcgqi3G22q8HZRBFWdtW8gwCItfL33/idSryeo=";

const BCS_CHALLENGE: &[u8] =
    b"R\0\0\0X\0\0\0\x0br=rOprNGfwEbeRWgbNEkqOgL3lV3fXX9J4ui3CsSIAOOru,s=X3ZDE6DQx1h1wrYlb1mPHQ==,i=4096";

/// By the password of which the user file has the MD5 digest.
const BCS_PROOF: &[u8] =
    b"p\0\0\0hc=biws,r=rOprNGfwEbeRWgbNEkqOgL3lV3fXX9J4ui3CsSIAOOru,p=lat1bQbKzlbdfzJNAfzTtPZK/nUYElqB81KcMY6JLOQ=";

const ROOTS_CHALLENGE: &[u8] =
    b"R\0\0\0X\0\0\0\x0br=rOprNGfwEbeRWgbNEkqOgL3lV3fXX9J4ui3CsSIAOOru,s=OcxRmMUlGtAO9nk+asZUXg==,i=4096";

const ROOTS_PROOF: &[u8] =
    b"p\0\0\0hc=biws,r=rOprNGfwEbeRWgbNEkqOgL3lV3fXX9J4ui3CsSIAOOru,p=PgGEvQwKIErLzqbCMbBH091Lbwa821J2Lzh6ma7Pry8=";

const PROOF_TO_ROOT: &[u8] = b"R\0\0\06\0\0\0\x0cv=kYZ3o+p3/GcI2erl0TWpPiGcDJ+L3Az+I4/ivjaG/+w=";

const VERA: &[u8] = b"\0\0\0!\0\x03\0\0user\0vera\0database\0shop\0\0";

/// With a name, which is passed over, and the word that the client knows of bound channels.
const VERAS_FIRST: &[u8] = b"p\0\0\03SCRAM-SHA-256\0\0\0\0\x1dy,,n=*,r=rOprNGfwEbeRWgbNEkqO";

/// As her verifier is salted: by eight bytes, in seven rounds.
const VERAS_CHALLENGE: &[u8] =
    b"R\0\0\0I\0\0\0\x0br=rOprNGfwEbeRWgbNEkqOgL3lV3fXX9J4ui3CsSIAOOru,s=AQIDBAUGBwg=,i=7";

const VERAS_PROOF: &[u8] =
    b"p\0\0\0hc=eSws,r=rOprNGfwEbeRWgbNEkqOgL3lV3fXX9J4ui3CsSIAOOru,p=eVfvzzaZlRMnvp8XWluMS/RpGaHTD5MTqGNNjPxLyus=";

const PROOF_TO_VERA: &[u8] = b"R\0\0\06\0\0\0\x0cv=uYQ5DCaBxXQML9zVwVZeYc4hI0YkJirE7CVR9/hNUU8=";

const ANN_NOWHERE: &[u8] = b"\0\0\0#\0\x03\0\0user\0ann\0database\0nowhere\0\0";

const NOWHERE: &[u8] = b"E\0\0\03SFATAL\0VFATAL\0C3D000\0Mdatabase does not exist\0\0";

/// What the client of these packets is given, and how its login ends.
type Row = (&'static [&'static [u8]], &'static [&'static [u8]], End);

#[test]
fn proofs(rt: HostRuntime) -> Result<(), Fail> {
    let rows: &[Row] = &[
        (
            &[ANN, FIRST, ANNS_PROOF],
            &[ARRIVES, OFFER, ANNS_CHALLENGE, PROOF_TO_ANN, OK],
            End::Passed,
        ),
        (
            &[ANN, FIRST, ANNS_WRONG_PROOF],
            &[ARRIVES, OFFER, ANNS_CHALLENGE, WRONG],
            End::Closed,
        ),
        (
            &[ZED, FIRST, ZEDS_PROOF],
            &[ARRIVES, OFFER, ZEDS_CHALLENGE, WRONG],
            End::Closed,
        ),
        (
            &[BC, FIRST, BCS_PROOF],
            &[ARRIVES, OFFER, BCS_CHALLENGE, WRONG],
            End::Closed,
        ),
        (
            &[ROOT_AT_CONSOLE, FIRST, ROOTS_PROOF],
            &[ARRIVES, OFFER, ROOTS_CHALLENGE, PROOF_TO_ROOT],
            End::Console,
        ),
        (
            &[ANN_NOWHERE, FIRST, ANNS_PROOF],
            &[ARRIVES, OFFER, ANNS_CHALLENGE, NOWHERE],
            End::Closed,
        ),
    ];
    for &(packets, out, end) in rows {
        assert!(rt; is_login_by(rt.alloc(), BY_SCRAM, packets, out, end, 0, BYTES)?);
    }
    Ok(())
}

/// Whose secret is a verifier is asked for SCRAM in the stead of MD5, and logs in by a password too.
#[test]
fn a_verifier(rt: HostRuntime) -> Result<(), Fail> {
    let alloc = rt.alloc();
    let packets: [&[u8]; 3] = [VERA, VERAS_FIRST, VERAS_PROOF];
    let out: [&[u8]; 5] = [ARRIVES, OFFER, VERAS_CHALLENGE, PROOF_TO_VERA, OK];
    assert!(rt; is_login(alloc, BY_SCRAM, &packets, &out, End::Passed, 0)?);
    assert!(rt; is_login(alloc, BY_MD5, &packets, &out, End::Passed, 0)?);
    let asked = b"R\0\0\0\x08\0\0\0\x03";
    let right: [&[u8]; 2] = [VERA, b"p\0\0\0\x0bpencil\0"];
    assert!(rt;
        is_login(
            alloc,
            BY_PASSWORD,
            &right,
            &[ARRIVES, asked, OK],
            End::Passed,
            0
        )?
    );
    let wrong: [&[u8]; 2] = [VERA, b"p\0\0\0\x0bpencul\0"];
    assert!(rt;
        is_login(
            alloc,
            BY_PASSWORD,
            &wrong,
            &[ARRIVES, asked, WRONG],
            End::Closed,
            0
        )?
    );
    Ok(())
}

#[test]
fn malformed_first_messages(rt: HostRuntime) -> Result<(), Fail> {
    let rows: &[&[u8]] = &[
        // SCRAM-SHA-1
        b"p\0\0\00SCRAM-SHA-1\0\0\0\0\x1cn,,n=,r=rOprNGfwEbeRWgbNEkqO",
        // a bound channel
        b"p\0\0\0GSCRAM-SHA-256\0\0\0\01p=tls-server-end-point,,n=,r=rOprNGfwEbeRWgbNEkqO",
        // somebody else's name
        b"p\0\0\06SCRAM-SHA-256\0\0\0\0 n,a=bc,n=,r=rOprNGfwEbeRWgbNEkqO",
        // a mandatory extension
        b"p\0\0\06SCRAM-SHA-256\0\0\0\0 n,,m=x,n=,r=rOprNGfwEbeRWgbNEkqO",
        // no nonce
        b"p\0\0\0\x1eSCRAM-SHA-256\0\0\0\0\x08n,,n=,r=",
        // a length that isn't the text's
        b"p\0\0\02SCRAM-SHA-256\0\0\0\0\x1dn,,n=,r=rOprNGfwEbeRWgbNEkqO",
        // a password
        b"p\0\0\0\x0bsecret\0",
    ];
    for &first in rows {
        assert!(rt;
            is_login(
                rt.alloc(),
                BY_SCRAM,
                &[ANN, first],
                &[ARRIVES, OFFER, MALFORMED],
                End::Closed,
                0
            )?
        );
    }
    Ok(())
}

#[test]
fn malformed_last_messages(rt: HostRuntime) -> Result<(), Fail> {
    let out: [&[u8]; 4] = [ARRIVES, OFFER, ANNS_CHALLENGE, MALFORMED];
    let rows: &[&[u8]] = &[
        // one byte of the proof less
        b"p\0\0\0hc=biws,r=rOprNGfwEbeRWgbNEkqOgL3lV3fXX9J4ui3CsSIAOOru,p=Gp/rM5ufkH9V94WbEtgFgy+batYYop5Ba5u+4fv4JQ==",
        // another header than the first message has
        b"p\0\0\0hc=eSws,r=rOprNGfwEbeRWgbNEkqOgL3lV3fXX9J4ui3CsSIAOOru,p=Gp/rM5ufkH9V94WbEtgFgy+batYYop5Ba5u+4fv4JU4=",
        // another nonce
        b"p\0\0\0hc=biws,r=rOprNGfwEbeRWgbNEkqOgL3lV3fXX9J4ui3CsSIAOOrx,p=Gp/rM5ufkH9V94WbEtgFgy+batYYop5Ba5u+4fv4JU4=",
        // no proof
        b"p\0\0\09c=biws,r=rOprNGfwEbeRWgbNEkqOgL3lV3fXX9J4ui3CsSIAOOru",
        // the first message again
        b"p\0\0\02SCRAM-SHA-256\0\0\0\0\x1cn,,n=,r=rOprNGfwEbeRWgbNEkqO",
    ];
    for &last in rows {
        assert!(rt;
            is_login(
                rt.alloc(),
                BY_SCRAM,
                &[ANN, FIRST, last],
                &out,
                End::Closed,
                0
            )?
        );
    }
    Ok(())
}

/// Who leaves is given nothing more.
#[test]
fn a_client_that_leaves(rt: HostRuntime) -> Result<(), Fail> {
    let alloc = rt.alloc();
    let leave = b"X\0\0\0\x04";
    assert!(rt;
        is_login(
            alloc,
            BY_SCRAM,
            &[ANN, leave],
            &[ARRIVES, OFFER],
            End::Closed,
            0
        )?
    );
    let out: [&[u8]; 3] = [ARRIVES, OFFER, ANNS_CHALLENGE];
    assert!(rt; is_login(alloc, BY_SCRAM, &[ANN, FIRST, leave], &out, End::Closed, 0)?);
    Ok(())
}

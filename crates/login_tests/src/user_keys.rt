//! How names are salted and judged for SCRAM. The bytes were made by Python's `hashlib` and `hmac`.
use crate::login_parts::users;
use std::test::Fail;
use user_file::Users;

const ANNS_SALT: &[u8] = b"\xb8\x6f\x6e\x0b\x90\x2d\x41\x13\x86\x4e\xa1\x64\xa4\xf6\x47\x30";

const ZEDS_SALT: &[u8] = b"\xd2\x8d\x1f\x16\xc1\x4f\x17\x43\x39\xd8\x8d\x36\x58\x2b\x51\x63";

const VERAS_SALT: &[u8] = b"\x01\x02\x03\x04\x05\x06\x07\x08";

/// StoredKey of ann's password with her name's salt.
const ANNS_KEY: &[u8] =
    b"\xee\xa8\x1e\x7c\xe8\x83\x43\x12\xd5\xed\x63\xe5\x00\xd1\x5e\x59\x61\x08\xeb\xe2\x2e\x57\xa0\x90\x47\x67\x79\x9a\x5a\x3b\xc9\xb6";

/// That of vera's verifier.
const VERAS_KEY: &[u8] =
    b"\x50\x6e\x62\x7e\x21\xff\x21\xd3\xf1\x63\x14\x8d\x2e\x57\xb1\xc0\x33\xb8\xb9\x1e\x07\x18\xed\x8b\x53\x99\x87\x3e\x89\x6c\x33\xb6";

/// A name with its salt, its rounds, and whose StoredKey its proof has to fit, if any.
type Row = (&'static [u8], &'static [u8], u32, Option<&'static [u8]>);

/// Whether these users have that name so.
fn has_name(rt: &HostRuntime, users: &Users, row: &Row) -> Result<bool, Fail> {
    let (name, salt, rounds, key) = *row;
    let salting = users.salting(name);
    let judging = users.judging(rt.alloc(), name)?;
    let is_salted = salting.salt.as_bytes() == salt && salting.rounds == rounds;
    let is_judged = match key {
        Some(stored) => judging.counts && judging.keys.stored.as_slice() == stored,
        None => !judging.counts,
    };
    Ok(is_salted && is_judged)
}

const NAMES: [Row; 3] = [
    (b"ann", ANNS_SALT, 4_096, Some(ANNS_KEY)),
    (b"zed", ZEDS_SALT, 4_096, None),
    (b"vera", VERAS_SALT, 7, Some(VERAS_KEY)),
];

#[test]
fn names_are_salted_and_judged(rt: HostRuntime) -> Result<(), Fail> {
    let users = users(rt.alloc())?;
    for row in &NAMES {
        assert!(rt; has_name(&rt, &users, row)?);
    }
    assert!(rt; !users.judging(rt.alloc(), b"bc")?.counts);
    assert!(rt; users.len() == 4);
    assert!(rt;
        users
            .at(3)
            .is_some_and(|user| user.name.as_bytes() == b"vera".as_slice())
    );
    assert!(rt; users.at(4).is_none());
    Ok(())
}

/// What was derived, and taken over, is what it would be anew.
#[test]
fn kept_keys_are_the_same(rt: HostRuntime) -> Result<(), Fail> {
    let alloc = rt.alloc();
    let first = users(alloc)?;
    for place in 0..first.len() {
        first.derive(alloc, place);
    }
    assert!(rt; !first.is_derived());
    first.look_derived();
    assert!(rt; first.is_derived());
    let later = users(alloc)?;
    later.take_over(alloc, &first);
    assert!(rt; later.is_derived());
    let other = users(alloc)?;
    other.take_over(alloc, &users(alloc)?);
    assert!(rt; !other.is_derived());
    for row in &NAMES {
        assert!(rt; has_name(&rt, &first, row)? && has_name(&rt, &later, row)?);
    }
    Ok(())
}

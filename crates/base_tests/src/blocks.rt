//! Texts without a statement, and blocks.
use crate::shown::check;
use std::test::Fail;

#[test]
fn empty_texts_and_ends(rt: HostRuntime) -> Result<(), Fail> {
    let table: &[(&[u8], &[u8])] = &[
        (b"", b"empty"),
        (b" \t\r\n\x0c", b"empty"),
        (b";", b"empty"),
        (b" ; ", b"empty"),
        (b";;", b"syntax"),
        (b"; ;", b"syntax"),
        (b"\x0b", b"syntax"),
        (b"begin;", b"begin"),
        (b"begin ; ", b"begin"),
        (b"begin;;", b"syntax"),
        (b"begin; commit", b"syntax"),
        (b";begin", b"syntax"),
        (b"-- begin", b"syntax"),
        (b"(", b"syntax"),
        (b"\xff", b"syntax"),
        (b"'begin'", b"syntax"),
        (b"1", b"syntax"),
        (b"$1", b"syntax"),
    ];
    check(&rt, rt.alloc(), table)
}

#[test]
fn blocks(rt: HostRuntime) -> Result<(), Fail> {
    let table: &[(&[u8], &[u8])] = &[
        (b"BEGIN", b"begin"),
        (b"Begin Work", b"begin"),
        (b"begin transaction", b"begin"),
        (b"begin work transaction", b"syntax"),
        (b"begin now", b"syntax"),
        (b"commit", b"commit"),
        (b"COMMIT WORK", b"commit"),
        (b"commit transaction", b"commit"),
        (b"end", b"syntax"),
        (b"rollback", b"rollback"),
        (b"ROLLBACK TRANSACTION;", b"rollback"),
        (b"rollback work", b"rollback"),
        (b"rollback to x", b"syntax"),
        (b"beginwork", b"syntax"),
        (b"begin*", b"syntax"),
    ];
    check(&rt, rt.alloc(), table)
}

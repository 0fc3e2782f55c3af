//! SELECT.
use crate::shown::check;
use std::test::Fail;

#[test]
fn selects(rt: HostRuntime) -> Result<(), Fail> {
    let table: &[(&[u8], &[u8])] = &[
        (b"SELECT * FROM t", b"select t"),
        (b"SELECT*FROM t", b"select t"),
        (b"select a, B from T", b"select T column a column B"),
        (b"select a from t;", b"select t column a"),
        (b"SELECT from FROM t", b"select t column from"),
        (b"select from from from", b"select from column from"),
        (b"select from t", b"syntax"),
        (b"select *, a from t", b"syntax"),
        (b"select a, * from t", b"syntax"),
        (b"select a b from t", b"syntax"),
        (b"select a, from t", b"syntax"),
        (b"select a,, b from t", b"syntax"),
    ];
    check(&rt, rt.alloc(), table)
}

#[test]
fn filters(rt: HostRuntime) -> Result<(), Fail> {
    let table: &[(&[u8], &[u8])] = &[
        (b"select from t where", b"syntax"),
        (b"select * from t where a = 'x'", b"select t where a 'x'"),
        (b"select * from t where a=$2", b"select t where a $02"),
        (
            b"select a from t where b = null",
            b"select t column a where b null",
        ),
        (b"select * from t where a = 5", b"syntax"),
        (b"select * from t where a = b", b"syntax"),
        (b"select * from t where a", b"syntax"),
        (b"select * from t where a = 'x' and b = 'y'", b"syntax"),
        (
            b"select * from t where where = 'x'",
            b"select t where where 'x'",
        ),
        (b"select * from t, u", b"syntax"),
        (b"select t.a from t", b"syntax"),
        (b"select a, a from t", b"select t column a column a"),
        (
            b"select c, c, c, c, c, c, c, c, c, c, c, c, c, c, c, c, c, c, c, c, c, c, c, c, c, c, c, c, c, c, c, c, c, c, c, c, c, c, c, c, c, c, c, c, c, c, c, c, c, c, c, c, c, c, c, c, c, c, c, c, c, c, c, c from t",
            b"select t column c column c column c column c column c column c column c column c column c column c column c column c column c column c column c column c column c column c column c column c column c column c column c column c column c column c column c column c column c column c column c column c column c column c column c column c column c column c column c column c column c column c column c column c column c column c column c column c column c column c column c column c column c column c column c column c column c column c column c column c column c column c column c column c",
        ),
        (
            b"select c, c, c, c, c, c, c, c, c, c, c, c, c, c, c, c, c, c, c, c, c, c, c, c, c, c, c, c, c, c, c, c, c, c, c, c, c, c, c, c, c, c, c, c, c, c, c, c, c, c, c, c, c, c, c, c, c, c, c, c, c, c, c, c, c from t",
            b"syntax",
        ),
        (b"select * where a = null", b"syntax"),
        (b"select", b"syntax"),
        (b"selecta from t", b"syntax"),
        (b"update t", b"syntax"),
    ];
    check(&rt, rt.alloc(), table)
}

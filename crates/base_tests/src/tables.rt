//! CREATE, DROP and INSERT.
use crate::shown::check;
use std::test::Fail;

#[test]
fn tables(rt: HostRuntime) -> Result<(), Fail> {
    let table: &[(&[u8], &[u8])] = &[
        (b"CREATE TEMP TABLE T (a text)", b"create T column a"),
        (
            b"create temporary table t(a text,B TEXT)",
            b"create t column a column B",
        ),
        (b"create table t (a text)", b"syntax"),
        (b"create temp table t ()", b"syntax"),
        (b"create temp table t (a)", b"syntax"),
        (b"create temp table t (a int)", b"syntax"),
        (b"create temp table t (a text,)", b"syntax"),
        (b"create temp table t (a text b text)", b"syntax"),
        (b"create temp table t (a text", b"syntax"),
        (b"create temp table t (a text))", b"syntax"),
        (
            b"create temp table t (text text, text text)",
            b"create t column text column text",
        ),
        (
            b"create temp table table (a text)",
            b"create table column a",
        ),
        (
            b"create temp table t (c text, c text, c text, c text, c text, c text, c text, c text, c text, c text, c text, c text, c text, c text, c text, c text, c text, c text, c text, c text, c text, c text, c text, c text, c text, c text, c text, c text, c text, c text, c text, c text, c text, c text, c text, c text, c text, c text, c text, c text, c text, c text, c text, c text, c text, c text, c text, c text, c text, c text, c text, c text, c text, c text, c text, c text, c text, c text, c text, c text, c text, c text, c text, c text)",
            b"create t column c column c column c column c column c column c column c column c column c column c column c column c column c column c column c column c column c column c column c column c column c column c column c column c column c column c column c column c column c column c column c column c column c column c column c column c column c column c column c column c column c column c column c column c column c column c column c column c column c column c column c column c column c column c column c column c column c column c column c column c column c column c column c column c",
        ),
        (
            b"create temp table t (c text, c text, c text, c text, c text, c text, c text, c text, c text, c text, c text, c text, c text, c text, c text, c text, c text, c text, c text, c text, c text, c text, c text, c text, c text, c text, c text, c text, c text, c text, c text, c text, c text, c text, c text, c text, c text, c text, c text, c text, c text, c text, c text, c text, c text, c text, c text, c text, c text, c text, c text, c text, c text, c text, c text, c text, c text, c text, c text, c text, c text, c text, c text, c text, c text)",
            b"syntax",
        ),
        (b"DROP TABLE t", b"drop t"),
        (b"drop table table;", b"drop table"),
        (b"drop t", b"syntax"),
        (b"drop table t, u", b"syntax"),
        (b"drop table if exists t", b"syntax"),
    ];
    check(&rt, rt.alloc(), table)
}

#[test]
fn rows(rt: HostRuntime) -> Result<(), Fail> {
    let table: &[(&[u8], &[u8])] = &[
        (
            b"INSERT INTO t VALUES ('a', $1, NULL)",
            b"insert t 'a' $01 null",
        ),
        (b"insert into t values($99)", b"insert t $99"),
        (b"insert into t values ($0)", b"syntax"),
        (b"insert into t values ($01)", b"syntax"),
        (b"insert into t values ($100)", b"syntax"),
        (b"insert into t values ($)", b"syntax"),
        (b"insert into t values ($ 1)", b"syntax"),
        (b"insert into t values ($1a)", b"syntax"),
        (b"insert into t values ()", b"syntax"),
        (b"insert into t values (5)", b"syntax"),
        (b"insert into t values (a)", b"syntax"),
        (b"insert into t values (default)", b"syntax"),
        (b"insert into t values ('a''b''')", b"insert t 'a'b''"),
        (b"insert into t values (null,)", b"syntax"),
        (b"insert into t values (null null)", b"syntax"),
        (b"insert into t values (null) ;", b"insert t null"),
        (b"insert into t (a) values (null)", b"syntax"),
        (b"insert into t values null", b"syntax"),
        (b"insert into values values (null)", b"insert values null"),
        (b"insert into t values (null), (null)", b"syntax"),
        (
            b"insert into t values (NULL, NULL, NULL, NULL, NULL, NULL, NULL, NULL, NULL, NULL, NULL, NULL, NULL, NULL, NULL, NULL, NULL, NULL, NULL, NULL, NULL, NULL, NULL, NULL, NULL, NULL, NULL, NULL, NULL, NULL, NULL, NULL, NULL, NULL, NULL, NULL, NULL, NULL, NULL, NULL, NULL, NULL, NULL, NULL, NULL, NULL, NULL, NULL, NULL, NULL, NULL, NULL, NULL, NULL, NULL, NULL, NULL, NULL, NULL, NULL, NULL, NULL, NULL, NULL, NULL, NULL, NULL, NULL, NULL, NULL, NULL, NULL, NULL, NULL, NULL, NULL, NULL, NULL, NULL, NULL, NULL, NULL, NULL, NULL, NULL, NULL, NULL, NULL, NULL, NULL, NULL, NULL, NULL, NULL, NULL, NULL, NULL, NULL, NULL, NULL)",
            b"insert t null null null null null null null null null null null null null null null null null null null null null null null null null null null null null null null null null null null null null null null null null null null null null null null null null null null null null null null null null null null null null null null null null null null null null null null null null null null null null null null null null null null null null null null null null null null null null null null null null null null null",
        ),
    ];
    check(&rt, rt.alloc(), table)
}

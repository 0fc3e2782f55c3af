//! DECLARE, FETCH and CLOSE.
use crate::shown::check;
use std::test::Fail;

#[test]
fn declares(rt: HostRuntime) -> Result<(), Fail> {
    let table: &[(&[u8], &[u8])] = &[
        (
            b"DECLARE k CURSOR WITH HOLD FOR SELECT name FROM city",
            b"declare k select city column name",
        ),
        (
            b"declare K cursor with hold for select*from t where a = 'x';",
            b"declare K select t where a 'x'",
        ),
        (
            b"declare cursor cursor with hold for select a from t where b = null",
            b"declare cursor select t column a where b null",
        ),
        (
            b"declare k cursor with hold for select a from t where b = $1",
            b"syntax",
        ),
        (b"declare k cursor for select a from t", b"syntax"),
        (
            b"declare k cursor without hold for select a from t",
            b"syntax",
        ),
        (
            b"declare k scroll cursor with hold for select a from t",
            b"syntax",
        ),
        (
            b"declare 'k' cursor with hold for select a from t",
            b"syntax",
        ),
        (b"declare k cursor with hold for show x", b"syntax"),
        (b"declare k cursor with hold for", b"syntax"),
        (b"declare k cursor with hold select a from t", b"syntax"),
    ];
    check(&rt, rt.alloc(), table)
}

#[test]
fn fetches(rt: HostRuntime) -> Result<(), Fail> {
    let table: &[(&[u8], &[u8])] = &[
        (b"FETCH 2 FROM k", b"fetch k 2"),
        (b"fetch 1 from K;", b"fetch K 1"),
        (b"fetch 02 from k", b"fetch k 2"),
        (b"fetch 2from k", b"fetch k 2"),
        (b"fetch 2147483647 from k", b"fetch k 2147483647"),
        (b"FETCH ALL FROM k", b"fetch k all"),
        (b"fetch all from all", b"fetch all all"),
        (b"fetch 2147483648 from k", b"syntax"),
        (b"fetch 4294967298 from k", b"syntax"),
        (b"fetch 18446744073709551618 from k", b"syntax"),
        (b"fetch 0 from k", b"syntax"),
        (b"fetch -1 from k", b"syntax"),
        (b"fetch k", b"syntax"),
        (b"fetch from k", b"syntax"),
        (b"fetch 2 k", b"syntax"),
        (b"fetch 2 in k", b"syntax"),
        (b"fetch next from k", b"syntax"),
        (b"fetch forward 2 from k", b"syntax"),
        (b"fetch $1 from k", b"syntax"),
        (b"fetch 2 from 'k'", b"syntax"),
        (b"fetch 2 from k k", b"syntax"),
    ];
    check(&rt, rt.alloc(), table)
}

#[test]
fn closes(rt: HostRuntime) -> Result<(), Fail> {
    let table: &[(&[u8], &[u8])] = &[
        (b"CLOSE k", b"close k"),
        (b"close ALL;", b"close ALL"),
        (b"close", b"syntax"),
        (b"close 'k'", b"syntax"),
        (b"close k x", b"syntax"),
        (b"move 2 from k", b"syntax"),
    ];
    check(&rt, rt.alloc(), table)
}

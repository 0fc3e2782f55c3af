//! SET, RESET, SHOW and DISCARD.
use crate::shown::check;
use std::test::Fail;

#[test]
fn settings(rt: HostRuntime) -> Result<(), Fail> {
    let table: &[(&[u8], &[u8])] = &[
        (b"SET TimeZone TO 'UTC'", b"set TimeZone 'UTC'"),
        (b"set x='y'", b"set x 'y'"),
        (b"set x to'y'", b"set x 'y'"),
        (b"set x = Abc", b"set x word Abc"),
        (b"set x to DEFAULT", b"set x default"),
        (b"set x = default", b"set x default"),
        (b"set x to 'default'", b"set x 'default'"),
        (b"set x to 5", b"set x digits 5"),
        (b"set x to -5", b"set x digits -5"),
        (b"set x to - 5", b"syntax"),
        (b"set x to --5", b"syntax"),
        (b"set x to +5", b"syntax"),
        (b"set x to 003", b"set x digits 003"),
        (b"set x to -0", b"set x digits -0"),
        (b"set x to 5abc", b"syntax"),
        (b"set x to 1.5", b"syntax"),
        (b"set x to $1", b"syntax"),
        (b"set x to null", b"set x word null"),
        (b"set x to a b", b"syntax"),
        (b"set x to", b"syntax"),
        (b"set x 5", b"syntax"),
        (b"set to to to", b"set to word to"),
        (b"set session x to 'y'", b"set x 'y'"),
        (b"SET SESSION TO 'x'", b"set SESSION 'x'"),
        (b"SET LOCAL TO 'x'", b"set LOCAL 'x'"),
        (b"set local x to 'y'", b"set local x 'y'"),
        (b"SET LOCAL x = 5", b"set local x digits 5"),
        (b"set local x to default;", b"set local x default"),
        (b"set local local to a", b"set local local word a"),
        (b"set local session = 'x'", b"set local session 'x'"),
        (b"set local x", b"syntax"),
        (b"set local x to", b"syntax"),
        (b"set session local x to 'y'", b"syntax"),
        (b"set local session x to 'y'", b"syntax"),
        (b"set session session = 'x'", b"set session 'x'"),
        (b"set session = 5", b"set session digits 5"),
    ];
    check(&rt, rt.alloc(), table)
}

#[test]
fn texts_of_settings(rt: HostRuntime) -> Result<(), Fail> {
    let table: &[(&[u8], &[u8])] = &[
        (b"set x to 'it''s'", b"set x 'it's'"),
        (b"set x to ''", b"set x ''"),
        (b"set x to ''''", b"set x '''"),
        (b"set x to 'a'' '", b"set x 'a' '"),
        (b"set x to 'a", b"syntax"),
        (b"set x to 'a''", b"syntax"),
        (b"set x to 'a' 'b'", b"syntax"),
        (b"set x to '\xff;\n'", b"set x '\xff;\n'"),
        (b"set x to 'a\x00'", b"syntax"),
        (b"set x to \"y\"", b"syntax"),
    ];
    check(&rt, rt.alloc(), table)
}

#[test]
fn reset_show_and_discard(rt: HostRuntime) -> Result<(), Fail> {
    let table: &[(&[u8], &[u8])] = &[
        (b"reset x", b"reset x"),
        (b"RESET all", b"reset all"),
        (b"reset all;", b"reset all"),
        (b"reset all x", b"syntax"),
        (b"reset", b"syntax"),
        (b"reset 'x'", b"syntax"),
        (b"SHOW TimeZone", b"show TimeZone"),
        (b"SHOW ALL", b"show ALL"),
        (b"show default", b"show default"),
        (b"show", b"syntax"),
        (b"show $1", b"syntax"),
        (b"show x y", b"syntax"),
        (b"DISCARD ALL", b"discard all"),
        (b"discard all;", b"discard all"),
        (b"discard plans", b"syntax"),
        (b"discard", b"syntax"),
        (b"show _a1", b"show _a1"),
        (b"show 1a", b"syntax"),
        (b"show a-b", b"syntax"),
        (
            b"show aaaaaaaaaaaaaaaaaaaaaaaaaaaaaaaaaaaaaaaaaaaaaaaaaaaaaaaaaaaaaaa",
            b"show aaaaaaaaaaaaaaaaaaaaaaaaaaaaaaaaaaaaaaaaaaaaaaaaaaaaaaaaaaaaaaa",
        ),
        (
            b"show aaaaaaaaaaaaaaaaaaaaaaaaaaaaaaaaaaaaaaaaaaaaaaaaaaaaaaaaaaaaaaaa",
            b"syntax",
        ),
    ];
    check(&rt, rt.alloc(), table)
}

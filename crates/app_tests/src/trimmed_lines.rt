//! Lines, and bytes of a file's text.
use std::test::Fail;
use text_lines::{Text, is_ignored, trimmed};

#[test]
fn trimmed_and_ignored_lines(rt: HostRuntime) -> Result<(), Fail> {
    let rows: &[(&[u8], &[u8], bool)] = &[
        (b" \t a b\t", b"a b", false),
        (b"\t ", b"", true),
        (b" ; a", b"; a", true),
        (b"# a", b"# a", true),
        (b"a ;", b"a ;", false),
        (b"\x0ba\r", b"\x0ba\r", false),
    ];
    for &(line, expected, ignored) in rows {
        assert!(rt; trimmed(line) == expected);
        assert!(rt; is_ignored(trimmed(line)) == ignored);
    }
    Ok(())
}

#[test]
fn a_copy_of_a_text(rt: HostRuntime) -> Result<(), Fail> {
    let text = Text::copy(rt.alloc(), b"a\xff")?;
    assert!(rt; text.as_bytes() == b"a\xff".as_slice());
    Ok(())
}

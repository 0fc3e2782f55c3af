//! Passwords prepared: the examples of RFC 4013, section 3, and more. PostgreSQL 15 made the same of each, as its verifiers showed.
use std::test::Fail;

#[test]
fn passwords_are_prepared(rt: HostRuntime) -> Result<(), Fail> {
    let rows = [
        // the RFC's: a soft hyphen vanishes, ASCII stays, and form KC
        ("I\u{ad}X", "IX"),
        ("user", "user"),
        ("USER", "USER"),
        ("\u{aa}", "a"),
        ("\u{2168}", "IX"),
        // spaces, of which U+200B might vanish too
        ("\u{3000}a\u{a0}b\u{200b}", " a b "),
        // written from the right throughout, once the soft hyphen has gone
        ("\u{627}\u{628}\u{ad}", "\u{627}\u{628}"),
        ("\u{627} 1 \u{628}", "\u{627} 1 \u{628}"),
    ];
    for (password, wanted) in rows {
        assert!(rt;
            sasl_prep::prepared(rt.alloc(), password.as_bytes())?.as_slice() == wanted.as_bytes()
        );
    }
    Ok(())
}

/// Each has a character that would change.
#[test]
fn refused_passwords_stay_as_they_are(rt: HostRuntime) -> Result<(), Fail> {
    let rows: &[&[u8]] = &[
        // nothing is left
        "\u{ad}".as_bytes(),
        // prohibited: a control character, private use
        "\u{aa}\u{7}".as_bytes(),
        "\u{aa}\u{e000}".as_bytes(),
        // not assigned in Unicode 3.2
        "\u{aa}\u{221}".as_bytes(),
        // directions: the end isn't written from the right, nor the beginning, and something in the middle is written from the left
        "\u{627}\u{ad}1".as_bytes(),
        "1\u{ad}\u{627}".as_bytes(),
        "\u{627}\u{aa}\u{628}".as_bytes(),
        // not UTF-8
        b"\xc2\xaa\xff",
    ];
    for &password in rows {
        assert!(rt; sasl_prep::prepared(rt.alloc(), password)?.as_slice() == password);
    }
    Ok(())
}

/// The RFC's example of a prohibited character, and all others of ASCII: PostgreSQL leaves them as they are.
#[test]
fn ascii_stays(rt: HostRuntime) -> Result<(), Fail> {
    for password in [b"\x07".as_slice(), b"", b"\0 \x1f~\x7f"] {
        assert!(rt; sasl_prep::prepared(rt.alloc(), password)?.as_slice() == password);
    }
    Ok(())
}

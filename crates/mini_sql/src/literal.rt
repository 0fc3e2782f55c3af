//! Literals, and the bytes that they stand for.
ghost use Rattle.std.specs.Prelude.{◌≡◌, ◌∷◌, [], length, MatchOption};
ghost use Rattle.std.specs.Iterator.{YieldsFirst, item_count};
ghost use Rattle.mini_sql.specs.Tokens.{unquoted};
ghost use Rattle.mini_sql.specs.Meanings.{bytes_left, literal_value};

/// A literal: a text between single quotes, in which each quote is doubled.
#[derive(Clone, Copy, Drop)]
pub struct Literal<'a> {
    /// What stands between its quotes, with each quote doubled.
    pub quoted: &'a [u8],
}

impl<'a> Literal<'a> {
    /// The bytes that the literal stands for, one after the other, each doubled quote as one.
    pub fn bytes(&self) -> LiteralBytes<'a>
        ensures { bytes_left result ≡ literal_value self.now }
    {
        LiteralBytes { rest: self.quoted }
    }

    /// How many bytes the literal stands for.
    pub fn len(&self) -> usize
        ensures { result ≡ length (literal_value self.now) }
    {
        count_bytes(self.quoted)
    }
}

/// The bytes that a literal stands for.
#[derive(Clone, Copy, Drop)]
pub struct LiteralBytes<'a> {
    rest: &'a [u8],
}

impl<'a> Iterator for LiteralBytes<'a> {
    type Item = u8;

    ghost next_gives = { YieldsFirst bytes_left };

    ghost remaining = { item_count bytes_left };

    fn next(&mut self) -> Option<u8> {
        let (byte, after) = first_byte(self.rest)?;
        self.rest = after;
        Some(byte)
    }
}

/// The first byte that a literal's text stands for, and what follows it.
fn first_byte(text: &[u8]) -> Option<(u8, &[u8])>
    ensures { MatchOption result (unquoted text.now ≡ []) (λ p. unquoted text.now ≡ p.0 ∷ unquoted p.1.now) }
{
    let [byte, tail @ ..] = text else {
        return None;
    };
    if *byte != b'\'' {
        return Some((*byte, tail));
    }
    match tail {
        [_, after @ ..] => Some((*byte, after)),
        [] => Some((*byte, tail)),
    }
}

fn count_bytes(text: &[u8]) -> usize
    ensures { result ≡ length (unquoted text.now) }
{
    LiteralBytes { rest: text }.count()
}

//! Tokens, read from the front of a text.
ghost use Rattle.std.specs.Prelude.{◌≡◌, ℕ, ◌+◌, ◌<◌, ◌≤◌, length, MatchOption, MatchResult, IfOk, IfSome, Some, None, true, false, slice_index, take_while, MatchBool, ◌≢◌, []};
ghost use Rattle.mini_sql.specs.Words.{is_digit, is_in_name, is_white, starts_name};
ghost use Rattle.mini_sql.specs.Tokens.{after_token, is_sign_byte, literal_length, semicolon, tokens};
ghost use Rattle.mini_sql.specs.Statements.{is_sign, less_semicolon, phrase};
ghost use Rattle.mini_sql.specs.Lexing.{IsFirst, IsFront, token_of};

use crate::SqlError;
use crate::literal::Literal;
use memchr::memchr2;

/// A token, by slices of its text.
#[derive(Clone, Copy, Drop)]
pub(crate) enum Token<'a> {
    Name(&'a [u8]),
    Literal(Literal<'a>),
    /// Whole digits, with a minus before them or none.
    Digits(&'a [u8]),
    Parameter(u8),
    Sign(u8),
}

/// The longest name, in bytes.
const MAX_NAME: usize = 63;

fn is_white_byte(b: u8) -> bool
    ensures { result ≡ is_white b }
{
    matches!(b, b' ' | b'\t' | b'\n' | b'\r' | b'\x0c')
}

fn is_name_start(b: u8) -> bool
    ensures { result ≡ starts_name b }
{
    matches!(b, b'A'..=b'Z' | b'a'..=b'z' | b'_')
}

fn is_name_byte(b: u8) -> bool
    ensures { result ≡ is_in_name b }
{
    matches!(b, b'A'..=b'Z' | b'a'..=b'z' | b'_' | b'0'..=b'9')
}

fn is_digit_byte(b: u8) -> bool
    ensures { result ≡ is_digit b }
{
    matches!(b, b'0'..=b'9')
}

fn is_sign_at(b: u8) -> bool
    ensures { result ≡ is_sign_byte b }
{
    matches!(b, b'(' | b')' | b'*' | b',' | b';' | b'=')
}

/// What follows the white space at the front.
fn after_white(text: &[u8]) -> &[u8]
    ensures tokens { tokens result.now ≡ tokens text.now }
    ensures first { 0 < length result.now → is_white (slice_index result.now 0) ≡ false }
    ensures shorter { length result.now ≤ length text.now }
{
    let mut rest = text;
    while let [byte, tail @ ..] = rest {
        if !is_white_byte(*byte) {
            break;
        }
        rest = tail;
    }
    rest
}

/// How many bytes at the front stand in a name.
fn name_length(text: &[u8]) -> usize
    ensures { result ≡ length (take_while is_in_name text.now) }
{
    text.iter().take_while(|b| is_name_byte(**b)).count()
}

/// How many digits stand at the front.
fn digits_length(text: &[u8]) -> usize
    ensures { result ≡ length (take_while is_digit text.now) }
{
    text.iter().take_while(|b| is_digit_byte(**b)).count()
}

/// The name at the front and its length; none where it is too long.
fn name(text: &[u8]) -> Option<(Token<'_>, usize)>
    requires long { 0 < length text.now }
    requires starts { starts_name (slice_index text.now 0) ≡ true }
    ensures { IsFront result text.now }
{
    let n = name_length(text);
    if n > MAX_NAME {
        return None;
    }
    Some((Token::Name(&text[..n]), n))
}

/// The digits at the front and their length.
fn digits(text: &[u8]) -> Option<(Token<'_>, usize)>
    requires long { 0 < length text.now }
    requires starts { is_digit (slice_index text.now 0) ≡ true }
    ensures { IsFront result text.now }
{
    let n = digits_length(text);
    Some((Token::Digits(&text[..n]), n))
}

/// The digits after the minus at the front, with it, and their length with it.
fn negative(text: &[u8]) -> Option<(Token<'_>, usize)>
    requires long { 0 < length text.now }
    requires starts { slice_index text.now 0 ≡ 45 }
    ensures { IsFront result text.now }
{
    let n = digits_length(&text[1..]);
    if n == 0 {
        return None;
    }
    Some((Token::Digits(&text[..n + 1]), n + 1))
}

/// The parameter at the front, `$1` to `$99`, and its length.
fn parameter(text: &[u8]) -> Option<(Token<'_>, usize)>
    requires long { 0 < length text.now }
    requires starts { slice_index text.now 0 ≡ 36 }
    ensures { IsFront result text.now }
{
    let after = &text[1..];
    match &after[..digits_length(after)] {
        [d] if *d != b'0' => Some((Token::Parameter(*d - b'0'), 2)),
        [d, e] if *d != b'0' => Some((Token::Parameter(10 * (*d - b'0') + (*e - b'0')), 3)),
        _ => None,
    }
}

/// How many bytes stand before a literal's last quote, of the text after its first.
fn length_of_literal(text: &[u8]) -> Option<usize>
    ensures length { result ≡ literal_length text.now }
    ensures within { IfSome result (λ n. n < length text.now) }
{
    let mut done = 0;
    while let Some(k) = memchr2(b'\'', 0, &text[done..]) {
        let at = done + k;
        if text[at] == 0 {
            return None;
        }
        if at + 1 == text.len() {
            return Some(at);
        }
        if text[at + 1] != b'\'' {
            return Some(at);
        }
        done = at + 2;
    }
    None
}

/// The literal at the front, and its length with the quotes.
fn literal(text: &[u8]) -> Option<(Token<'_>, usize)>
    requires long { 0 < length text.now }
    requires starts { slice_index text.now 0 ≡ 39 }
    ensures { IsFront result text.now }
{
    let after = &text[1..];
    let n = length_of_literal(after)?;
    Some((
        Token::Literal(Literal {
            quoted: &after[..n],
        }),
        n + 2,
    ))
}

/// The token at the front, and its length.
fn token_at(text: &[u8]) -> Option<(Token<'_>, usize)>
    requires long { 0 < length text.now }
    ensures { IsFront result text.now }
{
    let first = text[0];
    if is_name_start(first) {
        return name(text);
    }
    if is_digit_byte(first) {
        return digits(text);
    }
    if first == b'-' {
        return negative(text);
    }
    if first == b'$' {
        return parameter(text);
    }
    if first == b'\'' {
        return literal(text);
    }
    if is_sign_at(first) {
        return Some((Token::Sign(first), 1));
    }
    None
}

/// The first token of a text and what follows it; none at the end.
fn first_token(text: &[u8]) -> Result<Option<(Token<'_>, &[u8])>, SqlError>
    ensures read { IsFirst tokens result (tokens text.now) }
    ensures shorter { IfOk result (λ o. IfSome o (λ p. length p.1.now < length text.now)) }
{
    let start = after_white(text);
    if start.is_empty() {
        return Ok(None);
    }
    match token_at(start) {
        Some((token, length)) => Ok(Some((token, &start[length..]))),
        None => Err(SqlError::Syntax),
    }
}

/// Whether a text has no token.
fn is_blank(text: &[u8]) -> bool
    ensures { MatchBool result (tokens text.now ≡ Some []) (tokens text.now ≢ Some []) }
{
    after_white(text).is_empty()
}

fn is_semicolon(token: &Token<'_>) -> bool
    ensures { result ≡ is_sign semicolon (token_of token.now) }
{
    match token {
        Token::Sign(sign) => *sign == b';',
        _ => false,
    }
}

/// Whether a token is a semicolon that ends its text.
fn is_last(token: &Token<'_>, rest: &[u8]) -> bool
    ensures { let whole = less_semicolon (after_token (token_of token.now) (tokens rest.now)) in
        MatchBool result (whole ≡ Some []) (whole ≡ after_token (token_of token.now) (phrase rest.now)) }
{
    if !is_semicolon(token) {
        return false;
    }
    is_blank(rest)
}

/// The first token of a text, less one last semicolon, and what follows it; none at the end.
pub(crate) fn next_token(text: &[u8]) -> Result<Option<(Token<'_>, &[u8])>, SqlError>
    ensures read { IsFirst phrase result (phrase text.now) }
    ensures shorter { IfOk result (λ o. IfSome o (λ p. length p.1.now < length text.now)) }
{
    match first_token(text) {
        Ok(Some((token, rest))) => {
            if is_last(&token, rest) {
                return Ok(None);
            }
            Ok(Some((token, rest)))
        }
        Ok(None) => Ok(None),
        Err(fault) => Err(fault),
    }
}

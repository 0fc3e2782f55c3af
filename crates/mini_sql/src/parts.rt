//! Parts of statements: words, signs, names, values and items of lists.
ghost use Rattle.std.specs.Prelude.{◌≡◌, ◌<◌, ◌||◌, length, option_map, MatchResult, IfOk, IfSome, Some, None, true, false, codes};
ghost use Rattle.mini_sql.specs.Words.{folded, same_word};
ghost use Rattle.mini_sql.specs.Tokens.{Sign, after_token, comma, equal};
ghost use Rattle.mini_sql.specs.Statements.{column_of, columns_at, count_of, decimal_from, row_count, is_sign, is_word, items, name_of, operand_of, phrase, setting_of};
ghost use Rattle.mini_sql.specs.Lexing.{token_of};
ghost use Rattle.mini_sql.specs.Reading.{Follows, Takes, has_token, is_end, passed, taken};
ghost use Rattle.mini_sql.specs.Lists.{GoesOn, IsItem};
ghost use Rattle.mini_sql.specs.Meanings.{IsNumber, operand_value, setting_value};

use crate::SqlError;
use crate::stmt::{Operand, Setting};
use crate::token::{Token, next_token};

/// Whether two texts differ at most in ASCII case.
pub fn is_same_word(a: &[u8], b: &[u8]) -> bool
    ensures { result ≡ same_word a.now b.now }
{
    a.eq_ignore_ascii_case(b)
}

/// The first token and what follows it.
fn some_token(text: &[u8]) -> Result<(Token<'_>, &[u8]), SqlError>
    ensures read { MatchResult result
        (λ p. phrase text.now ≡ after_token (token_of p.0) (phrase p.1.now))
        (λ e. has_token (phrase text.now) ≡ false) }
    ensures shorter { IfOk result (λ p. length p.1.now < length text.now) }
{
    match next_token(text) {
        Ok(Some(first)) => Ok(first),
        Ok(None) => Err(SqlError::Syntax),
        Err(fault) => Err(fault),
    }
}

/// Whether a text has no further token.
pub(crate) fn is_end(text: &[u8]) -> bool
    ensures { result ≡ is_end (phrase text.now) }
{
    match next_token(text) {
        Ok(Some(_)) => false,
        Ok(None) => true,
        Err(_) => false,
    }
}

pub(crate) fn is_word(token: &Token<'_>, word: &[u8]) -> bool
    ensures { result ≡ is_word word.now (token_of token.now) }
{
    match token {
        Token::Name(name) => is_same_word(name, word),
        _ => false,
    }
}

/// What follows a word.
pub(crate) fn expect_word<'a>(text: &'a [u8], word: &[u8]) -> Result<&'a [u8], SqlError>
    ensures { Follows result (passed (is_word word.now) (phrase text.now)) }
{
    let (token, rest) = some_token(text)?;
    if is_word(&token, word) {
        Ok(rest)
    } else {
        Err(SqlError::Syntax)
    }
}

fn is_either(token: &Token<'_>, word: &[u8], other: &[u8]) -> bool
    ensures { result ≡ (is_word word.now (token_of token.now) || is_word other.now (token_of token.now)) }
{
    is_word(token, word) || is_word(token, other)
}

/// What follows one of two words.
pub(crate) fn expect_either<'a>(
    text: &'a [u8],
    word: &[u8],
    other: &[u8],
) -> Result<&'a [u8], SqlError>
    ensures { Follows result (passed (λ t. is_word word.now t || is_word other.now t) (phrase text.now)) }
{
    let (token, rest) = some_token(text)?;
    if is_either(&token, word, other) {
        Ok(rest)
    } else {
        Err(SqlError::Syntax)
    }
}

fn is_sign(token: &Token<'_>, sign: u8) -> bool
    ensures { result ≡ is_sign sign (token_of token.now) }
{
    match token {
        Token::Sign(found) => *found == sign,
        _ => false,
    }
}

/// What follows a sign.
pub(crate) fn expect_sign(text: &[u8], sign: u8) -> Result<&[u8], SqlError>
    ensures read { MatchResult result
        (λ rest. phrase text.now ≡ after_token (Sign sign) (phrase rest.now))
        (λ e. passed (is_sign sign) (phrase text.now) ≡ None) }
    ensures shorter { IfOk result (λ rest. length rest.now < length text.now) }
{
    let (token, rest) = some_token(text)?;
    if is_sign(&token, sign) {
        Ok(rest)
    } else {
        Err(SqlError::Syntax)
    }
}

fn assigns(token: &Token<'_>) -> bool
    ensures { result ≡ (is_word (codes "to") (token_of token.now) || is_sign equal (token_of token.now)) }
{
    is_word(token, b"to") || is_sign(token, b'=')
}

/// What follows the word TO or the sign `=`.
pub(crate) fn expect_assignment(text: &[u8]) -> Result<&[u8], SqlError>
    ensures { Follows result (passed (λ t. is_word (codes "to") t || is_sign equal t) (phrase text.now)) }
{
    let (token, rest) = some_token(text)?;
    if assigns(&token) {
        Ok(rest)
    } else {
        Err(SqlError::Syntax)
    }
}

fn name_at<'a>(token: Token<'a>) -> Option<&'a [u8]>
    ensures name { option_map (λ n. n.now) result ≡ name_of (token_of token.entry) }
    ensures column { option_map (λ n. folded n.now) result ≡ column_of (token_of token.entry) }
{
    match token {
        Token::Name(name) => Some(name),
        _ => None,
    }
}

/// A name and what follows it.
pub(crate) fn take_name(text: &[u8]) -> Result<(&[u8], &[u8]), SqlError>
    ensures name { Takes (λ n. n.now) result (taken name_of (phrase text.now)) }
    ensures column { Takes (λ n. folded n.now) result (taken column_of (phrase text.now)) }
{
    let (token, rest) = some_token(text)?;
    match name_at(token) {
        Some(name) => Ok((name, rest)),
        None => Err(SqlError::Syntax),
    }
}

fn setting_at<'a>(token: Token<'a>) -> Option<Setting<'a>>
    ensures { option_map setting_value result ≡ setting_of (token_of token.entry) }
{
    match token {
        Token::Literal(literal) => Some(Setting::Literal(literal)),
        Token::Digits(digits) => Some(Setting::Digits(digits)),
        Token::Name(name) => {
            if is_same_word(name, b"default") {
                return Some(Setting::Default);
            }
            Some(Setting::Word(name))
        }
        _ => None,
    }
}

/// What a parameter is set to, and what follows it.
pub(crate) fn take_setting(text: &[u8]) -> Result<(Setting<'_>, &[u8]), SqlError>
    ensures { Takes setting_value result (taken setting_of (phrase text.now)) }
{
    let (token, rest) = some_token(text)?;
    match setting_at(token) {
        Some(setting) => Ok((setting, rest)),
        None => Err(SqlError::Syntax),
    }
}

fn operand_at<'a>(token: Token<'a>) -> Option<Operand<'a>>
    ensures { option_map operand_value result ≡ operand_of (token_of token.entry) }
{
    match token {
        Token::Literal(literal) => Some(Operand::Literal(literal)),
        Token::Parameter(number) => Some(Operand::Parameter(number)),
        Token::Name(name) => {
            if is_same_word(name, b"null") {
                return Some(Operand::Null);
            }
            None
        }
        _ => None,
    }
}

/// A value and what follows it.
pub(crate) fn take_operand(text: &[u8]) -> Result<(Operand<'_>, &[u8]), SqlError>
    ensures read { Takes operand_value result (taken operand_of (phrase text.now)) }
    ensures item { IsItem operand_value (items operand_of) result (phrase text.now) }
    ensures shorter { IfOk result (λ p. length p.1.now < length text.now) }
{
    let (token, rest) = some_token(text)?;
    match operand_at(token) {
        Some(operand) => Ok((operand, rest)),
        None => Err(SqlError::Syntax),
    }
}

/// The most rows that a FETCH may ask for.
const MAX_ROWS: u64 = 2_147_483_647;

/// The number that decimal digits spell; none above [`MAX_ROWS`].
fn number_at(digits: &[u8]) -> Option<u32>
    ensures { IsNumber result (decimal_from 0 digits.now) }
{
    let mut number: u32 = 0;
    for digit in digits {
        let more = 10 * u64::from(number) + u64::from(digit.saturating_sub(b'0'));
        if more > MAX_ROWS {
            return None;
        }
        number = more as u32;
    }
    Some(number)
}

/// The number of rows that digits ask for: 1 to [`MAX_ROWS`], without a minus.
fn rows_at(digits: &[u8]) -> Option<u32>
    ensures { option_map Some result ≡ row_count digits.now }
{
    let first = *digits.first()?;
    if first == b'-' {
        return None;
    }
    match number_at(digits) {
        Some(0) => None,
        number => number,
    }
}

/// How many rows a token asks for; the inner `None` is ALL.
fn count_at(token: Token<'_>) -> Option<Option<u32>>
    ensures { result ≡ count_of (token_of token.entry) }
{
    match token {
        Token::Digits(digits) => Some(Some(rows_at(digits)?)),
        Token::Name(name) => {
            if is_same_word(name, b"all") {
                return Some(None);
            }
            None
        }
        _ => None,
    }
}

/// How many rows are asked for (`None`: all), and what follows it.
pub(crate) fn take_count(text: &[u8]) -> Result<(Option<u32>, &[u8]), SqlError>
    ensures { Takes (λ n. n) result (taken count_of (phrase text.now)) }
{
    let (token, rest) = some_token(text)?;
    match count_at(token) {
        Some(count) => Ok((count, rest)),
        None => Err(SqlError::Syntax),
    }
}

/// A column's name and what follows it, or with its type.
pub(crate) fn take_column(typed: bool, text: &[u8]) -> Result<(&[u8], &[u8]), SqlError>
    ensures { IsItem (λ n. folded n.now) (columns_at typed) result (phrase text.now) }
{
    let (name, rest) = take_name(text)?;
    if typed {
        let after = expect_word(rest, b"text")?;
        return Ok((name, after));
    }
    Ok((name, rest))
}

/// What follows a comma; none where the list is at its end.
pub(crate) fn next_item(text: &[u8]) -> Option<&[u8]>
    ensures read { GoesOn result (phrase text.now) }
    ensures shorter { IfSome result (λ rest. length rest.now < length text.now) }
{
    match expect_sign(text, b',') {
        Ok(rest) => Some(rest),
        Err(_) => None,
    }
}

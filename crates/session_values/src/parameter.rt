//! The run-time parameters, and which values they accept (PostgreSQL manual, "Server Configuration").
ghost use Rattle.std.specs.Prelude.{◌≡◌, true, nat_le, IfOk, filter, map, option_map};
ghost use Rattle.session_values.specs.Parameters.{accepted_of, digits_value, are_digits, date_styles, encodings, interval_styles, switches, when, is_in_zone, is_letter_or_digit, is_whole, is_zone, kept_for};
ghost use Rattle.mini_sql.specs.Words.{folded, is_digit};
ghost use Rattle.std.specs.List.{list_all};
ghost use Rattle.session_values.specs.Words.{now_of, texts_of};

use crate::text::Text;
use mini_sql::is_same_word;
use std::alloc::{AllocError, Global};

/// A run-time parameter of the stand-in server.
#[derive(Clone, Copy, PartialEq, Eq, Drop)]
pub enum Parameter {
    ApplicationName,
    ClientEncoding,
    DateStyle,
    IntegerDatetimes,
    IntervalStyle,
    ServerEncoding,
    ServerVersion,
    StandardConformingStrings,
    TimeZone,
    ExtraFloatDigits,
    SearchPath,
    StatementTimeout,
}

/// How many parameters there are.
pub const PARAMETER_COUNT: usize = 12;

/// All parameters. The first nine are reported.
pub static PARAMETERS: [Parameter; PARAMETER_COUNT] = [
    Parameter::ApplicationName,
    Parameter::ClientEncoding,
    Parameter::DateStyle,
    Parameter::IntegerDatetimes,
    Parameter::IntervalStyle,
    Parameter::ServerEncoding,
    Parameter::ServerVersion,
    Parameter::StandardConformingStrings,
    Parameter::TimeZone,
    Parameter::ExtraFloatDigits,
    Parameter::SearchPath,
    Parameter::StatementTimeout,
];

impl Parameter {
    ghost use Rattle.session_values.specs.Parameters.{accepted_of, digits_value, is_called, is_fixed, name, parameter_named, place};

    /// The parameter of a name, without regard to ASCII case.
    pub fn named(wanted: &[u8]) -> Option<Parameter>
        ensures { result ≡ parameter_named wanted.now }
    {
        PARAMETERS
            .iter()
            .copied()
            .find(|parameter| is_same_word(wanted, parameter.name()))
    }

    /// The name as it is shown.
    pub fn name(self) -> &'static [u8]
        ensures { result.now ≡ name self }
    {
        match self {
            Parameter::ApplicationName => b"application_name",
            Parameter::ClientEncoding => b"client_encoding",
            Parameter::DateStyle => b"DateStyle",
            Parameter::IntegerDatetimes => b"integer_datetimes",
            Parameter::IntervalStyle => b"IntervalStyle",
            Parameter::ServerEncoding => b"server_encoding",
            Parameter::ServerVersion => b"server_version",
            Parameter::StandardConformingStrings => b"standard_conforming_strings",
            Parameter::TimeZone => b"TimeZone",
            Parameter::ExtraFloatDigits => b"extra_float_digits",
            Parameter::SearchPath => b"search_path",
            Parameter::StatementTimeout => b"statement_timeout",
        }
    }

    /// Whether no client may change it.
    pub fn is_fixed(self) -> bool
        ensures { result ≡ is_fixed self }
    {
        matches!(
            self,
            Parameter::IntegerDatetimes | Parameter::ServerEncoding | Parameter::ServerVersion
        )
    }

    /// Its place among all parameters.
    pub fn place(self) -> usize
        ensures { result ≡ place self }
    {
        self as usize
    }
}

/// A word, and the value that is kept for it.
type Spelling = (&'static [u8], &'static [u8]);

static ENCODINGS: [Spelling; 3] = [
    (b"utf8", b"UTF8"),
    (b"unicode", b"UTF8"),
    (b"sqlascii", b"SQL_ASCII"),
];

static DATE_STYLES: [Spelling; 19] = [
    (b"iso", b"ISO, MDY"),
    (b"iso,mdy", b"ISO, MDY"),
    (b"iso, mdy", b"ISO, MDY"),
    (b"iso,dmy", b"ISO, DMY"),
    (b"iso, dmy", b"ISO, DMY"),
    (b"iso,ymd", b"ISO, YMD"),
    (b"iso, ymd", b"ISO, YMD"),
    (b"sql,mdy", b"SQL, MDY"),
    (b"sql, mdy", b"SQL, MDY"),
    (b"sql,dmy", b"SQL, DMY"),
    (b"sql, dmy", b"SQL, DMY"),
    (b"sql,ymd", b"SQL, YMD"),
    (b"sql, ymd", b"SQL, YMD"),
    (b"german,mdy", b"German, MDY"),
    (b"german, mdy", b"German, MDY"),
    (b"german,dmy", b"German, DMY"),
    (b"german, dmy", b"German, DMY"),
    (b"german,ymd", b"German, YMD"),
    (b"german, ymd", b"German, YMD"),
];

static INTERVAL_STYLES: [Spelling; 4] = [
    (b"postgres", b"postgres"),
    (b"postgres_verbose", b"postgres_verbose"),
    (b"sql_standard", b"sql_standard"),
    (b"iso_8601", b"iso_8601"),
];

static SWITCHES: [Spelling; 8] = [
    (b"on", b"on"),
    (b"true", b"on"),
    (b"yes", b"on"),
    (b"1", b"on"),
    (b"off", b"off"),
    (b"false", b"off"),
    (b"no", b"off"),
    (b"0", b"off"),
];

/// The value that is kept for the first of these words that is the text.
fn kept_for(words: &[Spelling], text: &[u8]) -> Option<&'static [u8]>
    ensures { option_map now_of result ≡ kept_for (map texts_of words.now) text.now }
{
    for word in words {
        if word.0 == text {
            return Some(word.1);
        }
    }
    None
}

fn text_of(alloc: Global, kept: Option<&'static [u8]>) -> Result<Option<Text>, AllocError>
    ensures { IfOk result (λ o. o ≡ option_map now_of kept.entry) }
{
    match kept {
        Some(kept) => Ok(Some(Text::from_slice(alloc, kept)?)),
        None => Ok(None),
    }
}

fn encoding(alloc: Global, text: &[u8]) -> Result<Option<Text>, AllocError>
    ensures { IfOk result (λ o. o ≡ kept_for encodings (filter is_letter_or_digit (folded text.now))) }
{
    let folded = Text::folded(alloc, text)?;
    let letters: Vec<u8> = folded
        .as_slice()
        .iter()
        .copied()
        .filter(|b| is_letter_or_digit(*b))
        .collect(alloc)?;
    text_of(alloc, kept_for(&ENCODINGS, &letters))
}

/// The table of date styles.
#[tactic(auto, unfolding(crate::specs::Parameters::date_styles))]
fn date_styles() -> &'static [Spelling]
    ensures { map texts_of result.now ≡ date_styles }
{
    &DATE_STYLES
}

fn date_style(alloc: Global, text: &[u8]) -> Result<Option<Text>, AllocError>
    ensures { IfOk result (λ o. o ≡ kept_for date_styles (folded text.now)) }
{
    let folded = Text::folded(alloc, text)?;
    text_of(alloc, kept_for(date_styles(), folded.as_slice()))
}

fn interval_style(alloc: Global, text: &[u8]) -> Result<Option<Text>, AllocError>
    ensures { IfOk result (λ o. o ≡ kept_for interval_styles text.now) }
{
    text_of(alloc, kept_for(&INTERVAL_STYLES, text))
}

fn switch(alloc: Global, text: &[u8]) -> Result<Option<Text>, AllocError>
    ensures { IfOk result (λ o. o ≡ kept_for switches (folded text.now)) }
{
    let folded = Text::folded(alloc, text)?;
    text_of(alloc, kept_for(&SWITCHES, folded.as_slice()))
}

/// The text as it came, where it is accepted.
fn if_accepted(alloc: Global, is_accepted: bool, text: &[u8]) -> Result<Option<Text>, AllocError>
    ensures { IfOk result (λ o. o ≡ when is_accepted text.now) }
{
    if is_accepted {
        Ok(Some(Text::from_slice(alloc, text)?))
    } else {
        Ok(None)
    }
}

fn is_letter_or_digit(byte: u8) -> bool
    ensures { result ≡ is_letter_or_digit byte }
{
    byte.is_ascii_alphanumeric()
}

fn is_digit_byte(byte: u8) -> bool
    ensures { result ≡ is_digit byte }
{
    byte.is_ascii_digit()
}

fn is_zone_byte(byte: u8) -> bool
    ensures { result ≡ is_in_zone byte }
{
    is_letter_or_digit(byte) || matches!(byte, b'/' | b'_' | b'+' | b'-')
}

fn all_zone_bytes(text: &[u8]) -> bool
    ensures { result ≡ list_all is_in_zone text.now }
{
    text.iter().all(|b| is_zone_byte(*b))
}

fn is_zone(text: &[u8]) -> bool
    ensures { result ≡ is_zone text.now }
{
    1 <= text.len() && text.len() <= 63 && all_zone_bytes(text)
}

fn all_digits(text: &[u8]) -> bool
    ensures { result ≡ list_all is_digit text.now }
{
    text.iter().all(|b| is_digit_byte(*b))
}

fn are_digits(text: &[u8]) -> bool
    ensures { result ≡ are_digits text.now }
{
    1 <= text.len() && all_digits(text)
}

/// Whether digits stand for a number up to `high`.
fn is_at_most(digits: &[u8], high: u32) -> bool
    requires { list_all is_digit digits.now ≡ true }
    ensures { result ≡ nat_le (digits_value digits.now) high }
{
    let mut number = 0u64;
    for digit in digits {
        number = number * 10 + (*digit - b'0') as u64;
        if number > high as u64 {
            return false;
        }
    }
    true
}

/// Whether a text is a whole number from `-low` to `high`.
fn is_whole(low: u32, high: u32, text: &[u8]) -> bool
    ensures { result ≡ is_whole low high text.now }
{
    match text {
        [] => false,
        [b'-', digits @ ..] => are_digits(digits) && is_at_most(digits, low),
        _ => are_digits(text) && is_at_most(text, high),
    }
}

impl Parameter {
    /// The value that is kept for a text; none where it isn't accepted.
    #[tactic(auto, unfolding(crate::specs::Parameters::accepted_of))]
    pub fn accepted(self, alloc: Global, text: &[u8]) -> Result<Option<Text>, AllocError>
        ensures { IfOk result (λ o. o ≡ accepted_of self text.now) }
    {
        match self {
            Parameter::ApplicationName => if_accepted(alloc, text.len() <= 63, text),
            Parameter::ClientEncoding => encoding(alloc, text),
            Parameter::DateStyle => date_style(alloc, text),
            Parameter::IntegerDatetimes => Ok(None),
            Parameter::IntervalStyle => interval_style(alloc, text),
            Parameter::ServerEncoding => Ok(None),
            Parameter::ServerVersion => Ok(None),
            Parameter::StandardConformingStrings => switch(alloc, text),
            Parameter::TimeZone => if_accepted(alloc, is_zone(text), text),
            Parameter::ExtraFloatDigits => if_accepted(alloc, is_whole(15, 3, text), text),
            Parameter::SearchPath => if_accepted(alloc, text.len() <= 255, text),
            Parameter::StatementTimeout => if_accepted(
                alloc,
                is_whole(0, 2_147_483_647, text),
                text,
            ),
        }
    }
}

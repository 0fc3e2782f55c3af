//! The commands of the console (PgBouncer manual, "Admin console").
ghost use Rattle.std.specs.Prelude.{◌≡◌, length, option_map, take_while};
ghost use Rattle.std.specs.List.{list_all};
ghost use Rattle.message_view.specs.Parts.{shown_value};
ghost use Rattle.mini_sql.specs.Words.{is_in_name, is_white};
ghost use Rattle.console_core.specs.Commands as spec;
ghost use Rattle.console_core.specs.Views.{command_view};

use mini_sql::is_same_word;

/// What the console does to the pooler.
#[derive(Clone, Copy, Drop)]
pub enum Action {
    /// No link is lent until Resume.
    Pause,
    Resume,
    /// The files are read again.
    Reload,
    /// No link that is there now is lent again.
    Reconnect,
    /// No client is let in any more, and the pooler ends with the last one.
    Shutdown,
}

/// What the console shows.
#[derive(Clone, Copy, Drop)]
pub enum Table {
    Pools,
    Clients,
    Servers,
    Config,
    Version,
    Totals,
}

/// What a client of the console asks for.
#[derive(Clone, Copy, Drop)]
pub enum Command<'a> {
    Act(Action),
    Show(Table),
    /// An answer, once no link of this database is stale; once none at all is, where none is named.
    Await(Option<&'a [u8]>),
}

/// What a command is called by which such an answer is asked for, which is also its tag.
pub(crate) const AWAITING: &[u8] = b"WAIT_CLOSE";

const ACTIONS: [Action; 5] = [
    Action::Pause,
    Action::Resume,
    Action::Reload,
    Action::Reconnect,
    Action::Shutdown,
];

const TABLES: [Table; 6] = [
    Table::Pools,
    Table::Clients,
    Table::Servers,
    Table::Config,
    Table::Version,
    Table::Totals,
];

impl Action {
    /// The action of a name, without regard to ASCII case.
    fn named(word: &[u8]) -> Option<Action>
        ensures { result ≡ spec.action_named word.now }
    {
        ACTIONS
            .iter()
            .copied()
            .find(|action| is_same_word(word, action.tag()))
    }

    /// Its name, which is also its tag.
    pub fn tag(self) -> &'static [u8]
        ensures { result.now ≡ spec.tag self }
    {
        match self {
            Action::Pause => b"PAUSE",
            Action::Resume => b"RESUME",
            Action::Reload => b"RELOAD",
            Action::Reconnect => b"RECONNECT",
            Action::Shutdown => b"SHUTDOWN",
        }
    }
}

impl Table {
    /// The table of a name, without regard to ASCII case.
    fn named(word: &[u8]) -> Option<Table>
        ensures { result ≡ spec.table_named word.now }
    {
        TABLES
            .iter()
            .copied()
            .find(|table| is_same_word(word, table.name()))
    }

    fn name(self) -> &'static [u8]
        ensures { result.now ≡ spec.name self }
    {
        match self {
            Table::Pools => b"POOLS",
            Table::Clients => b"CLIENTS",
            Table::Servers => b"SERVERS",
            Table::Config => b"CONFIG",
            Table::Version => b"VERSION",
            Table::Totals => b"TOTALS",
        }
    }
}

fn is_white_byte(b: u8) -> bool
    ensures { result ≡ is_white b }
{
    matches!(b, b' ' | b'\t' | b'\n' | b'\r' | b'\x0c')
}

fn is_name_byte(b: u8) -> bool
    ensures { result ≡ is_in_name b }
{
    matches!(b, b'A'..=b'Z' | b'a'..=b'z' | b'_' | b'0'..=b'9')
}

fn is_plain_byte(b: u8) -> bool
    ensures { result ≡ spec.is_plain b }
{
    !matches!(b, b' ' | b'\t' | b'\n' | b'\r' | b'\x0c' | b';')
}

/// How many bytes of white space stand at the front.
fn white_length(text: &[u8]) -> usize
    ensures { result ≡ length (take_while is_white text.now) }
{
    text.iter().take_while(|b| is_white_byte(**b)).count()
}

/// How many bytes of a word stand at the front.
fn word_length(text: &[u8]) -> usize
    ensures { result ≡ length (take_while is_in_name text.now) }
{
    text.iter().take_while(|b| is_name_byte(**b)).count()
}

/// How many bytes stand before white space or a semicolon.
fn plain_length(text: &[u8]) -> usize
    ensures { result ≡ length (take_while spec.is_plain text.now) }
{
    text.iter().take_while(|b| is_plain_byte(**b)).count()
}

/// How many bytes stand before a quotation mark.
fn quoted_length(text: &[u8]) -> usize
    ensures { result ≡ length (take_while spec.is_quoted text.now) }
{
    text.iter().take_while(|b| **b != b'"').count()
}

/// What follows the white space at the front.
fn unspaced(text: &[u8]) -> &[u8]
    ensures { result.now ≡ spec.unspaced text.now }
{
    &text[white_length(text)..]
}

/// The first word, and what follows it.
fn next_word(text: &[u8]) -> (&[u8], &[u8])
    ensures word { result.0.now ≡ spec.word text.now }
    ensures behind { result.1.now ≡ spec.behind text.now }
{
    let text = unspaced(text);
    text.split_at(word_length(text))
}

fn is_blank(text: &[u8]) -> bool
    ensures { result ≡ list_all is_white text.now }
{
    text.iter().all(|b| is_white_byte(*b))
}

/// Whether nothing is there but white space, and one semicolon at most.
fn is_end(text: &[u8]) -> bool
    ensures { result ≡ spec.is_end text.now }
{
    match unspaced(text) {
        [] => true,
        [b, rest @ ..] => *b == b';' && is_blank(rest),
    }
}

/// The name, where nothing follows it.
fn ends_after<'a>(name: &'a [u8], rest: &[u8]) -> Option<&'a [u8]>
    ensures { shown_value result ≡ spec.ends_after name.now rest.now }
{
    if is_end(rest) {
        return Some(name);
    }
    None
}

/// The name that ends at white space or a semicolon.
fn plain_name(text: &[u8]) -> Option<&[u8]>
    ensures { shown_value result ≡ spec.plain_name text.now }
{
    let (name, rest) = text.split_at(plain_length(text));
    ends_after(name, rest)
}

/// The name that ends at a quotation mark.
fn quoted_name(text: &[u8]) -> Option<&[u8]>
    ensures { shown_value result ≡ spec.quoted_name text.now }
{
    let (name, rest) = text.split_at(quoted_length(text));
    match rest {
        [] => None,
        [_, behind @ ..] => ends_after(name, behind),
    }
}

/// The one name that a text holds, between quotation marks or without them.
fn only_name(text: &[u8]) -> Option<&[u8]>
    ensures { shown_value result ≡ spec.only_name text.now }
{
    let [first, rest @ ..] = text else {
        return None;
    };
    if *first == b'"' {
        return quoted_name(rest);
    }
    plain_name(text)
}

/// The command that is one word.
fn alone(word: &[u8]) -> Option<Command<'static>>
    ensures { option_map command_view result ≡ spec.alone word.now }
{
    if is_same_word(word, AWAITING) {
        return Some(Command::Await(None));
    }
    Some(Command::Act(Action::named(word)?))
}

/// That of SHOW and what follows it.
fn shown(rest: &[u8]) -> Option<Command<'static>>
    ensures { option_map command_view result ≡ spec.shown rest.now }
{
    let (word, behind) = next_word(rest);
    if !is_end(behind) {
        return None;
    }
    Some(Command::Show(Table::named(word)?))
}

/// Whether the word is one of PgBouncer's ways to shut down.
fn is_way_to_end(word: &[u8]) -> bool
    ensures { result ≡ spec.is_way_to_end word.now }
{
    is_same_word(word, b"WAIT_FOR_CLIENTS") | is_same_word(word, b"WAIT_FOR_SERVERS")
}

/// That of SHUTDOWN and what follows it.
fn shut_down(rest: &[u8]) -> Option<Command<'static>>
    ensures { option_map command_view result ≡ spec.shut_down rest.now }
{
    let (word, behind) = next_word(rest);
    if is_end(behind) & is_way_to_end(word) {
        return Some(Command::Act(Action::Shutdown));
    }
    None
}

/// That of WAIT_CLOSE and what follows it.
fn awaited(rest: &[u8]) -> Option<Command<'_>>
    ensures { option_map command_view result ≡ spec.awaited rest.now }
{
    match only_name(unspaced(rest)) {
        Some(name) => Some(Command::Await(Some(name))),
        None => None,
    }
}

/// That of a word and what follows it.
fn followed<'a>(first: &[u8], rest: &'a [u8]) -> Option<Command<'a>>
    ensures { option_map command_view result ≡ spec.followed first.now rest.now }
{
    if is_same_word(first, b"SHOW") {
        return shown(rest);
    }
    if is_same_word(first, b"SHUTDOWN") {
        return shut_down(rest);
    }
    if is_same_word(first, AWAITING) {
        return awaited(rest);
    }
    None
}

/// The command of a text, if it is one. It takes no memory.
#[tactic(auto, unfolding(crate::specs::Commands::command_of))]
pub fn read_command(text: &[u8]) -> Option<Command<'_>>
    ensures { option_map command_view result ≡ spec.command_of text.now }
{
    let (first, rest) = next_word(text);
    if is_end(rest) {
        return alone(first);
    }
    followed(first, rest)
}

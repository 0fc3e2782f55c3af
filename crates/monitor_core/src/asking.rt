//! What a text asks of the console: one of its own commands, or what monitors ask for beside them.
ghost use Rattle.std.specs.Prelude.{◌≡◌, option_map};
ghost use Rattle.mini_sql.specs.Statements.{statement};
ghost use Rattle.session_values.specs.Parameters.{parameter_named};
ghost use Rattle.console_core.specs.Commands.{command_of};
ghost use Rattle.console_core.specs.Views.{command_view};
ghost use Rattle.monitor_core.specs.Asking as spec;
ghost use Rattle.monitor_core.specs.Requests.{request_of, request_view};

use console_core::commands::{Command, read_command};
use ini_config::ConsoleStyle as Style;
use mini_sql::{Stmt, is_same_word, read_statement};
use session_values::parameter::Parameter;

/// What is shown to monitors.
#[derive(Clone, Copy, Drop)]
pub enum Table {
    Stats,
    StatsTotals,
    StatsAverages,
    Lists,
    Databases,
    State,
    Activity,
    Pools,
    Clients,
    Servers,
    Config,
    Version,
    Totals,
    Users,
    Decisions,
}

/// What a monitor asks for.
#[derive(Clone, Copy, Drop)]
pub enum Asked {
    Show(Table),
    /// A parameter of the session is set, as drivers do when they connect. Nothing comes of it.
    Set,
    /// What may be asked for.
    Help,
    /// What nobody answers, where the style is PgBouncer's.
    Unknown,
}

/// What a text comes to at the console.
#[derive(Clone, Copy, Drop)]
pub enum Request<'a> {
    /// A command of the console's own.
    Own(Command<'a>),
    /// What monitors ask for, which may stand in the place of one.
    Asked(Asked),
    /// It is none of these.
    Unknown,
}

const FURTHER: [Table; 9] = [
    Table::Stats,
    Table::StatsTotals,
    Table::StatsAverages,
    Table::Lists,
    Table::Databases,
    Table::State,
    Table::Activity,
    Table::Users,
    Table::Decisions,
];

const ALL: [Table; 15] = [
    Table::Stats,
    Table::StatsTotals,
    Table::StatsAverages,
    Table::Lists,
    Table::Databases,
    Table::State,
    Table::Activity,
    Table::Users,
    Table::Decisions,
    Table::Pools,
    Table::Clients,
    Table::Servers,
    Table::Config,
    Table::Version,
    Table::Totals,
];

impl Table {
    fn name(self) -> &'static [u8]
        ensures { result.now ≡ spec.name self }
    {
        match self {
            Table::Stats => b"STATS",
            Table::StatsTotals => b"STATS_TOTALS",
            Table::StatsAverages => b"STATS_AVERAGES",
            Table::Lists => b"LISTS",
            Table::Databases => b"DATABASES",
            Table::State => b"STATE",
            Table::Activity => b"ACTIVITY",
            Table::Pools => b"POOLS",
            Table::Clients => b"CLIENTS",
            Table::Servers => b"SERVERS",
            Table::Config => b"CONFIG",
            Table::Version => b"VERSION",
            Table::Totals => b"TOTALS",
            Table::Users => b"USERS",
            Table::Decisions => b"DECISIONS",
        }
    }

    /// The table of a name, without regard to ASCII case.
    fn named(style: Style, word: &[u8]) -> Option<Table>
        ensures { result ≡ spec.table_named style word.now }
    {
        tables(style)
            .iter()
            .copied()
            .find(|table| is_same_word(word, table.name()))
    }
}

/// The tables of a style: PgBouncer's take the place of the console's own.
fn tables(style: Style) -> &'static [Table]
    ensures { result.now ≡ spec.tables style }
{
    match style {
        Style::Own => &FURTHER,
        Style::PgBouncer => &ALL,
    }
}

/// What SHOW asks for behind this name.
fn shown(style: Style, name: &[u8]) -> Option<Asked>
    ensures { result ≡ spec.shown style name.now }
{
    if is_same_word(name, b"HELP") {
        return Some(Asked::Help);
    }
    Some(Asked::Show(Table::named(style, name)?))
}

/// What a statement asks of the console.
fn asked_by(style: Style, text: &[u8]) -> Option<Asked>
    ensures { result ≡ spec.asked_by style (statement text.now) }
{
    match read_statement(text) {
        Ok(Stmt::Show { name }) => shown(style, name),
        Ok(Stmt::Set { name, to: _ }) => {
            Parameter::named(name)?;
            Some(Asked::Set)
        }
        _ => None,
    }
}

/// Whether a text is left to the console itself: where it is one of its commands, but for those whose tables are PgBouncer's.
fn is_left(style: Style, command: Option<Command<'_>>) -> bool
    ensures { result ≡ spec.is_left style (option_map command_view command.entry) }
{
    match (style, command) {
        (_, Some(Command::Act(_) | Command::Await(_))) | (Style::Own, Some(Command::Show(_))) =>
            true,
        (Style::PgBouncer, Some(Command::Show(_))) | (_, None) => false,
    }
}

/// What a text asks for that was read as this command or as none; nothing where it is the console's to answer.
fn read_asked(style: Style, command: Option<Command<'_>>, text: &[u8]) -> Option<Asked>
    ensures { result ≡ spec.asked_beside style (option_map command_view command.entry) text.now }
{
    if is_left(style, command) {
        return None;
    }
    match (style, asked_by(style, text)) {
        (Style::PgBouncer, None) => Some(Asked::Unknown),
        (_, asked) => asked,
    }
}

/// What a text comes to, whose command is read here and nowhere else. It takes no memory.
pub fn read_request(style: Style, text: &[u8]) -> Request<'_>
    ensures { request_view result ≡ request_of style text.now }
{
    let command = read_command(text);
    match (read_asked(style, command, text), command) {
        (Some(asked), _) => Request::Asked(asked),
        (None, Some(command)) => Request::Own(command),
        (None, None) => Request::Unknown,
    }
}

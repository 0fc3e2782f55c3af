//! What the console answers to a command.
ghost use Rattle.std.specs.Prelude.{◌≡◌, ◌∷◌, [], IfOk, option_map};
ghost use Rattle.console_core.specs.Replies as spec;
ghost use Rattle.console_core.specs.Tables as tables;
ghost use Rattle.console_core.specs.Views.{command_view, reply_view};

use crate::cells::Cells;
use crate::commands::{Action, Command, Table, read_command};
use crate::config::config;
use crate::lists::{clients, servers};
use crate::pools::pools;
use book_register::view::BookView;
use ini_config::Settings;
use std::alloc::{AllocError, Global};

/// What the console answers to a command.
#[derive(Drop)]
pub enum ConsoleReply {
    /// These rows of this table.
    Rows { table: Table, rows: Vec<Cells> },
    /// This is to be done; it is answered by the action's tag.
    Act(Action),
    /// It is answered by the command's tag, once no link of its database is stale.
    Await,
    /// Its client may but look: 42501.
    NotAllowed,
    /// The pooler shuts down before a link is stale no more: 57P01.
    ShuttingDown,
    /// It is no command: 42601.
    Unknown,
}

/// The pooler and its version.
const VERSION: &[u8] = b"pgsess 1";

/// A table of one row.
fn alone(alloc: Global, row: Cells) -> Result<Vec<Cells>, AllocError>
    ensures { IfOk result (λ v. v.items ≡ row ∷ []) }
{
    let mut rows = Vec::new(alloc);
    rows.push(row)?;
    Ok(rows)
}

fn version(alloc: Global) -> Result<Vec<Cells>, AllocError>
    ensures { IfOk result (λ v. v.items ≡ tables.version) }
{
    alone(alloc, Cells::new(alloc)?.with(alloc, VERSION)?)
}

fn totals(alloc: Global, view: &BookView) -> Result<Vec<Cells>, AllocError>
    ensures { IfOk result (λ v. v.items ≡ tables.totals view.now) }
{
    let numbers = [
        view.decisions,
        view.starts,
        view.reuses,
        view.evictions,
        view.losses,
    ];
    alone(alloc, Cells::new(alloc)?.with_numbers(alloc, &numbers)?)
}

/// The rows of a table.
fn rows_of(
    alloc: Global,
    view: &BookView,
    settings: &Settings,
    table: Table,
) -> Result<Vec<Cells>, AllocError>
    ensures { IfOk result (λ v. v.items ≡ spec.rows_of view.now settings.now table) }
{
    match table {
        Table::Pools => pools(alloc, view),
        Table::Clients => clients(alloc, view),
        Table::Servers => servers(alloc, view),
        Table::Config => config(alloc, settings),
        Table::Version => version(alloc),
        Table::Totals => totals(alloc, view),
    }
}

/// What the console answers to the text of a command, over this view of the book and these settings. The only error is that memory was
/// refused.
pub fn answer(
    alloc: Global,
    view: &BookView,
    settings: &Settings,
    command: &[u8],
) -> Result<ConsoleReply, AllocError>
    ensures { IfOk result (λ r. reply_view r ≡ spec.answer view.now settings.now command.now) }
{
    reply_to(alloc, view, settings, read_command(command))
}

/// The same, of a command that was read already, or of a text that is none.
pub fn reply_to(
    alloc: Global,
    view: &BookView,
    settings: &Settings,
    command: Option<Command<'_>>,
) -> Result<ConsoleReply, AllocError>
    ensures { IfOk result (λ r. reply_view r ≡ spec.reply_to view.now settings.now (option_map command_view command.entry)) }
{
    match command {
        None => Ok(ConsoleReply::Unknown),
        Some(Command::Act(action)) => Ok(ConsoleReply::Act(action)),
        Some(Command::Await(_)) => Ok(ConsoleReply::Await),
        Some(Command::Show(table)) => Ok(ConsoleReply::Rows {
            table,
            rows: rows_of(alloc, view, settings, table)?,
        }),
    }
}

//! The tables with a row for each client and each link, by number.
ghost use Rattle.std.specs.Prelude.{◌≡◌, ◌≤◌, ◌++◌, fold, length, map, nat_le, take_while, IfOk, OnOk};
ghost use Rattle.console_core.specs.Tables as spec;

use crate::cells::Cells;
use book_model::events::ClientState;
use book_register::view::BookView;
use book_rows::clients::Client;
use book_rows::links::Link;
use std::alloc::{AllocError, Global};
use std::marker::Model;

/// A row, and the number by which it stands among the others.
#[derive(Drop)]
struct Numbered {
    number: u64,
    cells: Cells,
}

impl Model for Numbered {
    ghost use Rattle.console_core.specs.Tables.{Numbered as NumberedOf};

    ghost Value = { NumberedOf };

    ghost view = { λ r. record { number = r.number; cells = r.cells } };
}

impl Numbered {
    /// Whether its number is this one, or lower.
    fn is_up_to(&self, number: u64) -> bool
        ensures { result ≡ nat_le self.now.number number }
    {
        self.number <= number
    }
}

fn client_state(state: ClientState) -> &'static [u8]
    ensures { result.now ≡ spec.client_state state }
{
    match state {
        ClientState::LoggingIn => b"login",
        ClientState::Waiting => b"waiting",
        ClientState::Active => b"active",
    }
}

fn client_row(alloc: Global, client: &Client) -> Result<Numbered, AllocError>
    ensures { IfOk result (λ r. r ≡ spec.client_row client.now) }
{
    let cells = Cells::new(alloc)?
        .with_number(alloc, client.number)?
        .with(alloc, client_state(client.state))?;
    Ok(Numbered {
        number: client.number,
        cells,
    })
}

fn link_row(alloc: Global, state: &[u8], link: &Link) -> Result<Numbered, AllocError>
    ensures { IfOk result (λ r. r ≡ spec.link_row state.now link.now) }
{
    let key = link.key.key();
    let cells = Cells::new(alloc)?
        .with_number(alloc, link.number)?
        .with(alloc, key.row.as_slice())?
        .with(alloc, key.user.as_slice())?
        .with(alloc, state)?;
    Ok(Numbered {
        number: link.number,
        cells,
    })
}

/// How many rows in front have no greater number.
fn place_of(rows: &[Numbered], number: u64) -> usize
    ensures place { result ≡ length (take_while (λ r. nat_le r.number number) rows.now) }
    ensures bound { result ≤ length rows.now }
{
    rows.iter().take_while(|row| row.is_up_to(number)).count()
}

/// A row more, behind those in front that have no greater number.
fn put_row(rows: &mut Vec<Numbered>, row: Numbered) -> Result<(), AllocError>
    ensures { OnOk result (rows.new.items ≡ spec.with_row rows.old.items row) }
{
    let place = place_of(rows.as_slice(), row.number);
    rows.insert(place, row)?;
    Ok(())
}

fn put_clients(
    alloc: Global,
    rows: &mut Vec<Numbered>,
    clients: &[Client],
) -> Result<(), AllocError>
    ensures { OnOk result (rows.new.items ≡ fold spec.with_row rows.old.items (map spec.client_row clients.now)) }
{
    for client in clients {
        put_row(rows, client_row(alloc, client)?)?;
    }
    Ok(())
}

fn put_links(
    alloc: Global,
    rows: &mut Vec<Numbered>,
    state: &[u8],
    links: &[Link],
) -> Result<(), AllocError>
    ensures { OnOk result (rows.new.items ≡ fold spec.with_row rows.old.items (map (spec.link_row state.now) links.now)) }
{
    for link in links {
        put_row(rows, link_row(alloc, state, link)?)?;
    }
    Ok(())
}

/// The rows without their numbers.
fn cells_of(alloc: Global, rows: Vec<Numbered>) -> Result<Vec<Cells>, AllocError>
    ensures { IfOk result (λ v. v.items ≡ map (λ r. r.cells) rows.items) }
{
    rows.into_iter().map(|row| row.cells).collect(alloc)
}

/// A row for each client.
pub(crate) fn clients(alloc: Global, view: &BookView) -> Result<Vec<Cells>, AllocError>
    ensures { IfOk result (λ v. v.items ≡ spec.clients view.now) }
{
    let mut rows = Vec::new(alloc);
    put_clients(alloc, &mut rows, &view.clients)?;
    cells_of(alloc, rows)
}

/// A row for each link.
pub(crate) fn servers(alloc: Global, view: &BookView) -> Result<Vec<Cells>, AllocError>
    ensures { IfOk result (λ v. v.items ≡ spec.servers view.now) }
{
    let mut rows = Vec::new(alloc);
    put_links(alloc, &mut rows, b"active", &view.lent)?;
    put_links(alloc, &mut rows, b"idle", &view.idle)?;
    cells_of(alloc, rows)
}

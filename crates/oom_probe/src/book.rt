//! A lease book. Its making and its view are asked again; its events take no memory.

use crate::making::{key, limits};
use crate::told::{put_numbers, put_unless};
use book_model::events::{Beyond, Event};
use book_register::view::BookView;
use lease_book::book::Book;
use lease_book::events::BookEvent::{GiveBack, Plain};
use lease_book::events::BookReply;
use link_run::links::{CleanLink, LinkParts};
use memory_ends::gone_end::GoneEnd;
use memory_start_laws::unfollowed_starts_are_clean;
use param_track::Reported;
use start_keys::StartKey;
use std::alloc::{AllocError, Global};
use std::sync::Arc;

/// An empty book.
fn empty(alloc: Global) -> Result<Book<GoneEnd>, AllocError> {
    let limits = limits(alloc)?;
    let again = Arc::try_clone(&limits)?;
    match Book::new(alloc, limits) {
        Ok(book) => Ok(book),
        Err(_) => Book::new(alloc, again),
    }
}

fn happens(book: &mut Book<GoneEnd>, event: Event) -> BookReply<GoneEnd> {
    book.apply(0, Plain(event))
}

/// A client comes and asks for a link of this key; its number.
fn comes(book: &mut Book<GoneEnd>, key: &Arc<StartKey>) -> Result<u64, AllocError> {
    let arrival = Event::Arrive {
        beyond: Beyond::Nothing,
    };
    let BookReply::Client(client) = happens(book, arrival) else {
        return Err(AllocError);
    };
    let key = Arc::try_clone(key)?;
    drop(happens(book, Event::Ask { client, key }));
    Ok(client)
}

/// A link of this key, number and second of birth, whose server has gone since.
fn gone_link(
    alloc: Global,
    key: Arc<StartKey>,
    number: u64,
    started_at: u64,
) -> Result<CleanLink<GoneEnd>, AllocError> {
    unfollowed_starts_are_clean();
    let parts = LinkParts {
        end: GoneEnd::of(&key)?,
        key,
        number,
        started_at,
        server_key: None,
        reported: Reported::new(alloc),
    };
    Ok(parts.clean())
}

/// A link of this key that is started for the client.
fn started(
    alloc: Global,
    book: &mut Book<GoneEnd>,
    key: &Arc<StartKey>,
    client: u64,
) -> Result<CleanLink<GoneEnd>, AllocError> {
    let BookReply::Start {
        number,
        started_at,
        ..
    } = happens(book, Event::Take { client })
    else {
        return Err(AllocError);
    };
    gone_link(alloc, Arc::try_clone(key)?, number, started_at)
}

/// A book with a client that has a link, one that waits, and a link that lies idle.
pub fn filled(alloc: Global) -> Result<Book<GoneEnd>, AllocError> {
    let mut book = empty(alloc)?;
    let key = key(alloc)?;
    let first = comes(&mut book, &key)?;
    let second = comes(&mut book, &key)?;
    let of_first = started(alloc, &mut book, &key, first)?;
    let _ = started(alloc, &mut book, &key, second)?;
    comes(&mut book, &key)?;
    drop(book.apply(0, GiveBack(of_first)));
    drop(happens(&mut book, Event::Leave { client: first }));
    Ok(book)
}

/// The book as it is, where memory was refused once too.
pub fn view_of(
    alloc: Global,
    book: &Book<GoneEnd>,
    out: &mut Vec<u8>,
) -> Result<BookView, AllocError> {
    let decisions = book.lists().decisions();
    match book.view(alloc) {
        Ok(view) => Ok(view),
        Err(_) => {
            put_unless(
                book.lists().decisions() == decisions,
                b"a view changes the book",
                out,
            )?;
            book.view(alloc)
        }
    }
}

/// Appends how many there are of what a book shows.
pub fn put_view(view: &BookView, out: &mut Vec<u8>) -> Result<(), AllocError> {
    let counts = [
        view.clients.len() as u64,
        view.tickets.len() as u64,
        view.lent.len() as u64,
        view.idle.len() as u64,
        view.decisions,
        view.starts,
    ];
    put_numbers(b"view", &counts, out)
}

/// A book and its view.
pub fn told(alloc: Global, out: &mut Vec<u8>) -> Result<(), AllocError> {
    let book = filled(alloc)?;
    let view = view_of(alloc, &book, out)?;
    put_view(&view, out)
}

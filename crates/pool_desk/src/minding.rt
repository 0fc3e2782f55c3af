//! Links that nobody uses, of whose servers it is heard that they hang up.
ghost use Rattle.std.specs.Prelude.{◌≡◌};

use crate::outside::Outside;
use desk_tallies::answers::Grant;
use lease_book::events::BookEvent;
use link_run::links::CleanLink;

/// The same link, whose end is minded from now on.
fn minded<S: Outside>(outside: &S, link: CleanLink<S::End>) -> CleanLink<S::End>
    ensures { result ≡ link }
{
    let mut parts = link.lend();
    outside.mind(parts.number, &mut parts.end);
    parts.clean()
}

/// The same event; the end of a link that comes back is minded from now on.
pub(crate) fn heeded<S: Outside>(outside: &S, event: BookEvent<S::End>) -> BookEvent<S::End>
    ensures { result ≡ event }
{
    match event {
        BookEvent::GiveBack(link) => BookEvent::GiveBack(minded(outside, link)),
        event => event,
    }
}

/// The same link, whose end isn't minded any more.
fn released<S: Outside>(outside: &S, link: CleanLink<S::End>) -> CleanLink<S::End>
    ensures { result ≡ link }
{
    let mut parts = link.lend();
    outside.release(&mut parts.end);
    parts.clean()
}

/// The same grant; the end of a link that was idle isn't minded any more.
pub(crate) fn granted<S: Outside>(outside: &S, grant: Grant<S::End>) -> Grant<S::End>
    ensures { result ≡ grant }
{
    match grant {
        Grant::Lend(link) => Grant::Lend(released(outside, link)),
        grant => grant,
    }
}

//! A new link for a client.
ghost use Rattle.std.specs.Prelude.{◌≡◌, [], IfErr, IfOk, option_map};
ghost use Rattle.user_file.specs.Users.{user_named};
ghost use Rattle.std.specs.Arc.{arc_value};
ghost use Rattle.link_desk.specs.Homes.{IsAtHome};
ghost use Rattle.pool_serve.specs.Endings.{IsUnopened};
ghost use Rattle.pool_serve.specs.LinkSecrets.{link_secret, secret_in};
ghost use Rattle.pool_serve.specs.Serving.{IsLoggedIn, LetsIn, MayEnd, owed};
ghost use Rattle.pool_serve.specs.FinalMessages.{final_message_of};

use crate::ending::Ending;
use crate::logged_in::LoggedIn;
use credentials::Credential;
use link_desk::desk::LinkDesk;
use link_run::links::CleanLink;
use link_start::start::start_link;
use server_end::gate::Gate;
use std::alloc::{AllocError, Global};
use std::sync::Arc;
use time_limits::LINK_TURNS;
use user_file::Secret;

/// The secret that a link's server is told of.
#[derive(Drop)]
enum LinkSecret<'a> {
    /// Of a user whom the database's row names.
    OfRow(Secret),
    /// One of the user file.
    OfUsers(&'a Secret),
}

impl<'a> LinkSecret<'a> {
    fn get(&self) -> &Secret
        ensures { result.now ≡ secret_in self.now }
    {
        match self {
            LinkSecret::OfRow(secret) => secret,
            LinkSecret::OfUsers(secret) => secret,
        }
    }
}

/// The secret of the user file that the user of a client's link has.
fn users_secret<'a>(logged_in: &'a LoggedIn) -> Option<LinkSecret<'a>>
    ensures { option_map secret_in result ≡ option_map (λ u. u.secret) (user_named (arc_value logged_in.entry.now.key).user logged_in.entry.now.login.users.rows) }
{
    let user = logged_in.login.users().row(logged_in.key.user.as_slice())?;
    Some(LinkSecret::OfUsers(&user.secret))
}

/// The secret of the user of a client's link: of a user whom the database's row names that row's password. The only error is out of memory.
fn secret_of<'a>(
    alloc: Global,
    logged_in: &'a LoggedIn,
) -> Result<Option<LinkSecret<'a>>, AllocError>
    ensures { IfOk result (λ s. option_map secret_in s ≡ link_secret logged_in.entry.now.login (arc_value logged_in.entry.now.key)) }
{
    let users = users_secret(logged_in);
    let Some(row) = logged_in.login.settings().row(logged_in.key.row.as_slice()) else {
        return Ok(users);
    };
    if row.user.is_none() {
        return Ok(users);
    }
    if let Some(password) = row.password {
        return Ok(Some(LinkSecret::OfRow(Secret::read(alloc, password)?)));
    }
    match users {
        Some(secret) => Ok(Some(secret)),
        None => Ok(Some(LinkSecret::OfRow(Secret::Unusable))),
    }
}

/// A time of the settings, of which 0 is none.
fn time_of(seconds: u32) -> Option<u32> {
    if seconds == 0 {
        return None;
    }
    Some(seconds)
}

/// Starts a link of this number and second of birth for a client, over a new end of its key's server, which is reached in so many seconds
/// (0: as the desk likes); or why it isn't.
fn start_anew<D: LinkDesk, G: Gate<D::End>>(
    alloc: Global,
    desk: &D,
    logged_in: &LoggedIn,
    number: u64,
    started_at: u64,
    seconds: u32,
    gate: &mut G,
) -> Result<CleanLink<D::End>, Ending>
    requires logged_in { IsLoggedIn logged_in.now }
    ensures key { IfOk result (λ l. l.key ≡ arc_value logged_in.now.key) }
    ensures number { IfOk result (λ l. l.number ≡ number) }
    ensures started_at { IfOk result (λ l. l.started_at ≡ started_at) }
    ensures home { IfOk result (λ l. IsAtHome D.home l) }
    ensures why { IfErr result (λ e. IsUnopened D.home logged_in.now e) }
    ensures told { LetsIn D.home logged_in.now.login → IfErr result (λ e. MayEnd [] (owed D.home.catalogue logged_in.now [] []) (final_message_of e)) }
{
    let Some(secret) = secret_of(alloc, logged_in)? else {
        return Err(Ending::Unreached);
    };
    let key = Arc::try_clone(&logged_in.key)?;
    let revealed = logged_in.login.revealed();
    let credential = Credential::new(alloc, secret.get(), revealed, &logged_in.word, number);
    let Some(mut end) = desk.dial(number, &logged_in.key, &credential, seconds) else {
        return Err(Ending::Unreached);
    };
    gate.watch(&mut end);
    match start_link(
        alloc,
        end,
        key,
        &credential,
        number,
        started_at,
        gate,
        LINK_TURNS,
    ) {
        Ok(link) => Ok(link),
        Err(fault) => Err(Ending::Unstarted(fault.cause)),
    }
}

/// The same within the time that the settings give a server: from before it is dialled, up to its welcome.
pub(crate) fn open_link<D: LinkDesk, G: Gate<D::End>>(
    alloc: Global,
    desk: &D,
    logged_in: &LoggedIn,
    number: u64,
    started_at: u64,
    gate: &mut G,
) -> Result<CleanLink<D::End>, Ending>
    requires logged_in { IsLoggedIn logged_in.now }
    ensures key { IfOk result (λ l. l.key ≡ arc_value logged_in.now.key) }
    ensures number { IfOk result (λ l. l.number ≡ number) }
    ensures started_at { IfOk result (λ l. l.started_at ≡ started_at) }
    ensures home { IfOk result (λ l. IsAtHome D.home l) }
    ensures why { IfErr result (λ e. IsUnopened D.home logged_in.now e) }
    ensures told { LetsIn D.home logged_in.now.login → IfErr result (λ e. MayEnd [] (owed D.home.catalogue logged_in.now [] []) (final_message_of e)) }
{
    let seconds = logged_in.login.settings().server_connect_timeout();
    gate.limit(time_of(seconds));
    let opened = start_anew(alloc, desk, logged_in, number, started_at, seconds, gate);
    gate.limit(None);
    opened
}

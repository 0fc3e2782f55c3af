//! What a desk reaches outside: its servers, its files and its log.
ghost use Rattle.std.specs.Prelude.{◌≡◌, MatchOption, false};
ghost use Rattle.session_values.specs.State.{address_of};
ghost use Rattle.desk_tallies.specs.Homes.{IsDialled};

use book_model::limits::Limits;
use credentials::Credential;
use desk_tallies::answers::{Changed, Strike};
use log_lines::notes::{Client, Note};
use server_end::ServerEnd;
use start_keys::StartKey;
use std::sync::Arc;

/// What a desk reaches outside, and what is claimed of its servers.
pub trait Outside {
    ghost use Rattle.desk_tallies.specs.Homes.{HomeOf};

    type End: ServerEnd;

    ghost home: { HomeOf };

    /// A new end of this key's server for the link of this number, which waits for its StartupMessage, by this credential; `None` where it
    /// can't be reached, in so many seconds (0: as whoever dials likes), or the key has no server.
    fn dial(
        &self,
        number: u64,
        key: &StartKey,
        credential: &Credential<'_>,
        seconds: u32,
    ) -> Option<Self::End>
        ensures { MatchOption result (home.reaches (address_of key.now) ≡ false) (λ e. IsDialled home key.now credential.now (Self.End.standing e)) };

    /// From now on the end of the link of this number is minded, which nobody uses: who runs the desk hears when its server hangs up or says
    /// something, and tells it so ([`crate::desk::Desk::hung_up`]). That it can't be minded is ignored. It is called under the desk's lock, and
    /// waits for nothing.
    fn mind(&self, number: u64, end: &mut Self::End)
        ensures { Self.End.standing end.new ≡ Self.End.standing end.old }
    {
        let _ = number;
        let _ = end;
    }

    /// From now on it isn't minded any more: somebody has it.
    fn release(&self, end: &mut Self::End)
        ensures { Self.End.standing end.new ≡ Self.End.standing end.old }
    {
        let _ = end;
    }

    /// Sends a cancel on its way: to the server at its place goes one CancelRequest with the key word that the link's server told. It
    /// waits until the server has closed that connection, or for some seconds.
    fn strike(&self, strike: &Strike);

    /// Reads the files of settings and users again, once no earlier reading of them is unsettled: the limits of the settings. Nothing of
    /// what was read holds before [`Outside::settle`], which is to follow. `None` where a file has a fault or memory is refused, and then
    /// nothing is unsettled. So it is where there are no files.
    fn reload(&self) -> Option<Arc<Limits>> {
        None
    }

    /// The limits that were read were answered so. Where the book keeps them, all that was read holds for later clients from now on, and the
    /// log says so; else it is forgotten.
    fn settle(&self, changed: Changed) {
        let _ = changed;
    }

    /// Logs a note, if there is a log. It waits for no reader of it.
    fn note(&self, _client: &Client<'_>, _note: &Note<'_>) {}
}

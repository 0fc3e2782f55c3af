//! Which of the bytes that came go on, frame by frame, and what is told of each frame that went.
ghost use Rattle.std.specs.Prelude.{◌≡◌, ◌<◌, length, true, false};
ghost use Rattle.relay_model.specs.Leases.{Keeps};
ghost use Rattle.relay_model.specs.Steps.{IsStuck, IsStuckClient, OnlyToClient, OnlyToLink, stops_here};

use crate::last_note::hear;
use crate::relay::Relay;
use crate::reports::read_report;
use crate::verdict::{tell_arrived, tell_sent};
use disposal::laws::calls_tell;
use server_end::{ClientEnd, ServerEnd};

impl<C: ClientEnd, E: ServerEnd> Relay<C, E> {
    /// Lets all of the client's frames go on that may.
    pub(crate) fn pass_all_to_link(&mut self)
        ensures keeps { Keeps self.old self.new }
        ensures only { OnlyToLink self.old self.new }
        ensures stuck { IsStuck self.new.to_link }
    {
        'frames: while self.pass_to_link() {}
    }

    /// Lets all of the server's frames go on that may.
    pub(crate) fn pass_all_to_client(&mut self)
        ensures keeps { Keeps self.old self.new }
        ensures only { OnlyToClient self.old self.new }
        ensures stuck { IsStuckClient self.new }
    {
        'frames: while self.pass_to_client() {}
    }

    /// Lets bytes of one of the client's frames go on.
    fn pass_to_link(&mut self) -> bool
        ensures keeps { Keeps self.old self.new }
        ensures less { result ≡ true → length self.new.to_link.part < length self.old.to_link.part }
        ensures only { OnlyToLink self.old self.new }
        ensures stuck { result ≡ false → IsStuck self.new.to_link }
    {
        if !self.to_link.is_open() {
            return false;
        }
        let Some(passed) = self.to_link.pass_some() else {
            return false;
        };
        if passed.whole {
            calls_tell();
            tell_sent(&mut self.traffic, passed.kind);
        }
        true
    }

    /// After a fault of the client nothing goes on behind the border of the server's frames.
    fn stops_here(&self) -> bool
        ensures { result ≡ stops_here self.now }
    {
        self.to_link.is_faulty() && self.to_client.rest() == 0
    }

    /// Lets bytes of one of the server's frames go on.
    fn pass_to_client(&mut self) -> bool
        ensures keeps { Keeps self.old self.new }
        ensures less { result ≡ true → length self.new.to_client.part < length self.old.to_client.part }
        ensures only { OnlyToClient self.old self.new }
        ensures stuck { result ≡ false → IsStuckClient self.new }
    {
        if !self.to_client.is_open() || self.stops_here() {
            return false;
        }
        let Some(passed) = self.to_client.pass_some() else {
            return false;
        };
        if passed.whole {
            calls_tell();
            let own = read_report(&mut self.link.reported, &self.to_client, passed);
            tell_arrived(&mut self.traffic, passed, own);
            hear(&mut self.last_note, &self.to_client, passed);
        }
        true
    }
}

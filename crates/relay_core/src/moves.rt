//! The four moves of a pump: each end is read once, and written once.
ghost use Rattle.std.specs.Prelude.{◌≡◌, true, false};
ghost use Rattle.relay_flow.specs.Flows.{is_empty};
ghost use Rattle.relay_model.specs.Leases.{Keeps};
ghost use Rattle.relay_model.specs.Steps.{IsStuck, IsStuckClient, may_read_client, may_read_link, may_write_client, may_write_link, ReadsClient, ReadsLink, WritesClient, WritesLink};

use crate::flags::{any_over, client_read, client_wrote, count_moved, link_moved};
use crate::relay::Relay;
use server_end::{ClientEnd, Moved, ServerEnd, rest_of};

impl<C: ClientEnd, E: ServerEnd> Relay<C, E> {
    /// Reads the client, and lets what may go on.
    pub(crate) fn from_client(&mut self, ready: bool) -> Moved
        ensures keeps { Keeps self.old self.new }
        ensures steps { ReadsClient ready self.old self.new result }
        ensures stuck { IsStuck self.new.to_link }
    {
        let moved = self.read_client(ready);
        self.pass_all_to_link();
        moved
    }

    /// Reads the link, and lets what may go on.
    pub(crate) fn from_link(&mut self, ready: bool) -> Moved
        ensures keeps { Keeps self.old self.new }
        ensures steps { ReadsLink ready self.old self.new result }
        ensures stuck { IsStuckClient self.new }
    {
        let moved = self.read_link(ready);
        self.pass_all_to_client();
        moved
    }

    /// Writes to the link.
    pub(crate) fn for_link(&mut self, ready: bool) -> Moved
        ensures keeps { Keeps self.old self.new }
        ensures steps { WritesLink ready self.old self.new result }
    {
        if !self.may_write_link(ready) {
            return Moved::NotNow;
        }
        self.write_link()
    }

    /// Writes to the client: first its welcome.
    pub(crate) fn for_client(&mut self, ready: bool) -> Moved
        ensures keeps { Keeps self.old self.new }
        ensures steps { WritesClient ready self.old self.new result }
    {
        if !self.may_write_client(ready) {
            return Moved::NotNow;
        }
        if self.welcome_is_empty() {
            return self.write_client();
        }
        self.write_welcome()
    }

    /// Whether the client is read: no end is over, and its frames go on.
    fn may_read_client(&self, ready: bool) -> bool
        ensures { result ≡ may_read_client ready self.now }
    {
        ready && (!any_over(self.flags) && self.to_link.is_open())
    }

    /// Whether the link is read: no end is over, its frames go on, and the welcome was given.
    fn may_read_link(&self, ready: bool) -> bool
        ensures { result ≡ may_read_link ready self.now }
    {
        ready && (!any_over(self.flags) && (self.to_client.is_open() && self.welcome_is_empty()))
    }

    /// Whether the link is written to: not after a fault of the client's bytes.
    fn may_write_link(&self, ready: bool) -> bool
        ensures { result ≡ may_write_link ready self.now }
    {
        ready
            && (!self.flags.link_over
                && (!self.to_link.is_faulty() && !self.to_link.held_is_empty()))
    }

    /// Whether the client is written to.
    fn may_write_client(&self, ready: bool) -> bool
        ensures { result ≡ may_write_client ready self.now }
    {
        ready && (!self.flags.client_over && !self.is_quiet())
    }

    /// One read of the client, where it may be and there is room.
    fn read_client(&mut self, ready: bool) -> Moved
        ensures keeps { Keeps self.old self.new }
        ensures steps { ReadsClient ready self.old self.new result }
    {
        if !self.may_read_client(ready) {
            return Moved::NotNow;
        }
        if !self.to_link.make_room() {
            return Moved::NotNow;
        }
        let moved = self.to_link.read_client(&mut self.client);
        self.flags = client_read(self.flags, moved);
        moved
    }

    /// One read of the link, where it may be and there is room.
    fn read_link(&mut self, ready: bool) -> Moved
        ensures keeps { Keeps self.old self.new }
        ensures steps { ReadsLink ready self.old self.new result }
    {
        if !self.may_read_link(ready) {
            return Moved::NotNow;
        }
        if !self.to_client.make_room() {
            return Moved::NotNow;
        }
        let moved = self.to_client.read_server(&mut self.link.end);
        self.flags = link_moved(self.flags, moved);
        moved
    }

    /// One write to the link, which is ready, of all that is held for it.
    fn write_link(&mut self) -> Moved
        requires { may_write_link true self.old ≡ true }
        ensures keeps { Keeps self.old self.new }
        ensures steps { WritesLink true self.old self.new result }
    {
        let held = self.to_link.held();
        let moved = self.link.end.write_some(held);
        self.to_link.wrote(count_moved(moved));
        self.flags = link_moved(self.flags, moved);
        moved
    }

    /// One write to the client, which is ready, of all that is held for it.
    fn write_client(&mut self) -> Moved
        requires welcome { is_empty self.old.greeting ≡ true }
        requires held { is_empty self.old.to_client.held ≡ false }
        ensures keeps { Keeps self.old self.new }
        ensures steps { WritesClient true self.old self.new result }
    {
        let held = self.to_client.held();
        let moved = self.client.write_some(held);
        self.to_client.wrote(count_moved(moved));
        self.flags = client_wrote(self.flags, moved);
        moved
    }

    /// One write to the client, which is ready, of its welcome.
    fn write_welcome(&mut self) -> Moved
        requires { is_empty self.old.greeting ≡ false }
        ensures keeps { Keeps self.old self.new }
        ensures steps { WritesClient true self.old self.new result }
    {
        let unsent = rest_of(self.welcome.as_slice(), self.greeted);
        let moved = self.client.write_some(unsent);
        self.greeted += count_moved(moved);
        self.flags = client_wrote(self.flags, moved);
        moved
    }
}

//! A gate whose time is over after some turns.
use server_end::ServerEnd;
use server_end::gate::{Gate, Ready, TurnCount};

/// A gate that never waits, and is late after so many turns.
pub struct ShortGate {
    left: u32,
    is_late: bool,
    turns: TurnCount,
}

impl Drop for ShortGate {
    fn drop(self) {
        let ShortGate {
            left: _,
            is_late: _,
            turns: _,
        } = self;
    }
}

impl ShortGate {
    pub fn of(turns: u32) -> ShortGate {
        ShortGate {
            left: turns,
            is_late: false,
            turns: TurnCount::new(),
        }
    }
}

impl<E: ServerEnd> Gate<E> for ShortGate {
    ghost turns = { λ g. g.turns };

    ghost late = { λ g. g.is_late };

    fn turn(&mut self) -> Ready {
        Gate::<E>::turn_of_link(self);
        Ready {
            client: true,
            server: true,
        }
    }

    fn turn_of_client(&mut self) {
        Gate::<E>::turn_of_link(self);
    }

    fn turn_of_link(&mut self) {
        self.turns.count();
        self.left = self.left.saturating_sub(1);
    }

    fn is_late(&mut self) -> bool {
        self.is_late = self.left == 0;
        self.is_late
    }
}

//! The acts of a play, and what each of its clients sends by them.
ghost use Rattle.std.specs.Prelude.{◌≡◌, ◌≤◌, ◌+◌, length, IfOk};
ghost use Rattle.act_client.specs.Acts.{all_send, sender, sends};

use bytes::BytesMut;
use std::alloc::{AllocError, Global};
use std::cell::Cell;
use std::marker::Model;

/// What happens in a play. Its clients count from 1, in the order in which they come.
#[derive(Clone, Copy, Drop)]
pub enum Act<'a> {
    /// The next client comes.
    Come,
    /// This client sends these bytes.
    Send(u32, &'a [u8]),
    /// This client hangs up.
    Go(u32),
    /// The clock has reached this second.
    Tick(u64),
    /// Each server that is started from here on dies once so many bytes were read from it.
    ServersDieAfter(u64),
}

/// One client of a play: its number, all that it sends, and how far the play has come with it.
pub struct Script {
    number: u32,
    input: BytesMut,
    has_come: Cell<bool>,
    has_gone: Cell<bool>,
    /// So many bytes were sent by now.
    sent: Cell<usize>,
}

impl Drop for Script {
    fn drop(self) {
        let Script {
            number: _,
            input: _,
            has_come: _,
            has_gone: _,
            sent: _,
        } = self;
    }
}

impl Model for Script {
    ghost use Rattle.act_client.specs.Acts.{Sender};

    ghost Value = { Sender };

    ghost view = { λ s. record { number = s.number; bytes = s.input.items } };
}

/// What the client of this number sends by these acts, which follow its coming.
fn sent_by(alloc: Global, client: u32, acts: &[Act<'_>]) -> Result<BytesMut, AllocError>
    ensures { IfOk result (λ b. b.items ≡ sends client acts.now) }
{
    let mut sent = BytesMut::new(alloc);
    let mut left = acts;
    while let [act, later @ ..] = left {
        match act {
            Act::Send(sender, bytes) if *sender == client => sent.extend_from_slice(bytes)?,
            Act::Go(goer) if *goer == client => return Ok(sent),
            _ => {}
        }
        left = later;
    }
    Ok(sent)
}

/// The number after this one.
fn next_number(number: u32) -> Result<u32, AllocError>
    ensures { IfOk result (λ next. next ≡ number + 1) }
{
    match number.checked_add(1) {
        Some(next) => Ok(next),
        None => Err(AllocError),
    }
}

/// The scripts of all clients that come by these acts, in their order. `AllocError` where memory is refused, and where 4,294,967,295
/// clients come or more.
pub fn scripts(alloc: Global, acts: &[Act<'_>]) -> Result<Vec<Script>, AllocError>
    ensures { IfOk result (λ v. v.items ≡ all_send 1 acts.now) }
{
    let mut all = Vec::new(alloc);
    let mut number = 1;
    let mut left = acts;
    while let [act, later @ ..] = left {
        if let Act::Come = act {
            all.push(Script::new(alloc, number, later)?)?;
            number = next_number(number)?;
        }
        left = later;
    }
    Ok(all)
}

impl Script {
    fn new(alloc: Global, number: u32, acts: &[Act<'_>]) -> Result<Script, AllocError>
        ensures { IfOk result (λ s. s ≡ sender number acts.now) }
    {
        Ok(Script {
            number,
            input: sent_by(alloc, number, acts)?,
            has_come: Cell::new(false),
            has_gone: Cell::new(false),
            sent: Cell::new(0),
        })
    }

    /// The client's number.
    pub fn number(&self) -> u32
        ensures { result ≡ self.now.number }
    {
        self.number
    }

    /// All that the client sends.
    pub fn input(&self) -> &[u8]
        ensures { result.now ≡ self.now.bytes }
    {
        self.input.as_slice()
    }

    /// How much of it was sent by now.
    pub(crate) fn sent(&self) -> usize
        ensures { result ≤ length self.now.bytes }
    {
        self.sent.get().min(self.input.len())
    }

    /// Whether the client has come.
    pub fn has_come(&self) -> bool {
        self.has_come.get()
    }

    /// Whether it has hung up.
    pub fn has_gone(&self) -> bool {
        self.has_gone.get()
    }

    /// The client comes.
    pub fn come(&self) {
        self.has_come.set(true);
    }

    /// It sends so many bytes more, where it has come and hasn't hung up.
    pub fn send(&self, count: usize) {
        if self.has_come() && !self.has_gone() {
            self.sent.set(self.sent.get().saturating_add(count));
        }
    }

    /// It hangs up, where it has come.
    pub fn go(&self) {
        if self.has_come() {
            self.has_gone.set(true);
        }
    }
}

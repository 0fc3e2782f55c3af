//! The worlds of the pooler: clients, links, the book and cancels, what may happen next, and what every step keeps. Here are the laws of
//! the steps that leave the book's lists and the links' roles alone.
//!
//! Public to the other worlds: what a step is, and the laws of what it keeps. Its functions do nothing: each is a law.
#![tactic(auto)]

ghost use Rattle.world_steps.specs.Laws.{ByteStepsKeep, ClientStepsKeep, EndStepsKeep};

/// A client's coming and sends, and the steps of its login, keep the relation.
pub fn client_steps_keep()
    ensures { ClientStepsKeep }
{}

/// So do moves of bytes, a server's step and its death, and cancels that come to their servers.
pub fn byte_steps_keep()
    ensures { ByteStepsKeep }
{}

/// So do refusals and closings.
pub fn end_steps_keep()
    ensures { EndStepsKeep }
{}

//! The tables of what is known of users and of the book's last decisions.
ghost use Rattle.std.specs.Prelude.{◌≡◌, ◌++◌, map, IfOk, OnOk};
ghost use Rattle.monitor_core.specs.Known as spec;

use crate::rows::Row;
use pool_figures::decisions::DecisionSeen;
use pool_figures::seen::Seen;
use std::alloc::{AllocError, Global};
use user_file::{UserRow, Users};

#[tactic(auto, unfolding(crate::specs::Known::user_row))]
fn user_row(alloc: Global, user: &UserRow) -> Result<Row, AllocError>
    ensures { IfOk result (λ r. r ≡ spec.user_row user.now) }
{
    Row::new(alloc)
        .with(alloc, user.name.as_bytes())?
        .with(alloc, b"")
}

fn user_rows(alloc: Global, users: &Users) -> Result<Vec<Row>, AllocError>
    ensures { IfOk result (λ v. v.items ≡ map spec.user_row users.now.rows) }
{
    let mut rows = Vec::new(alloc);
    'users: while let Some(user) = users.at(rows.len()) {
        rows.push(user_row(alloc, user)?)?;
    }
    Ok(rows)
}

/// A row for each user of the user file.
pub(crate) fn users(alloc: Global, seen: &Seen) -> Result<Vec<Row>, AllocError>
    ensures { IfOk result (λ v. v.items ≡ spec.users seen.now) }
{
    match &seen.users {
        Some(users) => user_rows(alloc, users),
        None => Ok(Vec::new(alloc)),
    }
}

#[tactic(auto, unfolding(crate::specs::Known::decision_row))]
fn decision_row(alloc: Global, decision: &DecisionSeen) -> Result<Row, AllocError>
    ensures { IfOk result (λ r. r ≡ spec.decision_row decision.now) }
{
    Row::new(alloc)
        .with_numbers(alloc, &[decision.number, decision.pass])?
        .with(alloc, decision.event.as_bytes())?
        .with_number(alloc, decision.of)?
        .with(alloc, decision.reply.as_bytes())?
        .with_number(alloc, decision.to)
}

fn decision_rows(alloc: Global, decisions: &[DecisionSeen]) -> Result<Vec<Row>, AllocError>
    ensures { IfOk result (λ v. v.items ≡ map spec.decision_row decisions.now) }
{
    let mut rows = Vec::with_capacity(alloc, decisions.len())?;
    for decision in decisions {
        rows.push(decision_row(alloc, decision)?)?;
    }
    Ok(rows)
}

/// A row for each decision of the book that is kept.
pub(crate) fn decisions(alloc: Global, seen: &Seen) -> Result<Vec<Row>, AllocError>
    ensures { IfOk result (λ v. v.items ≡ spec.decisions seen.now) }
{
    decision_rows(alloc, &seen.decisions)
}

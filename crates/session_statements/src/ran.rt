//! What a run of a statement leaves beside the state, and how it is written.
ghost use Rattle.std.specs.Prelude.{◌≡◌, ◌++◌, None, Some, OnOk};
ghost use Rattle.std.specs.List.{flat_map};
ghost use Rattle.frame_view.specs.Frames.{spelling};
ghost use Rattle.mini_sql.specs.Meanings.{meaning};
ghost use Rattle.session_values.specs.Errors.{already_in_transaction, no_transaction};
ghost use Rattle.session_values.specs.Runs as spec;
ghost use Rattle.session_values.specs.Runs.{given_frames};
ghost use Rattle.session_statements.specs.Rans.{notices_of, outcome_of};

use crate::output::{put_row_tag, put_rows};
use bytes::BytesMut;
use message_view::{Severity, put_command_complete, put_empty_query_response, put_notice_response};
use mini_sql::Stmt;
use session_values::row::Row;
use shared_list::Shared;
use std::alloc::{AllocError, Global};

/// A warning on the way.
#[derive(Clone, Copy, Drop)]
pub enum Notice {
    AlreadyInTransaction,
    NoTransaction,
}

/// What a statement gives.
#[derive(Drop)]
pub enum Outcome {
    /// The empty statement.
    Nothing,
    /// It was done, as its tag tells.
    Done(&'static [u8]),
    Rows(Shared<Row>),
}

/// What a run leaves beside the state.
#[derive(Drop)]
pub struct Ran {
    pub notice: Option<Notice>,
    pub outcome: Outcome,
}

impl Ran {
    /// The empty statement.
    pub(crate) fn nothing() -> Ran
        ensures notice { result.notice ≡ None }
        ensures outcome { outcome_of result.outcome ≡ spec.Nothing }
    {
        Ran {
            notice: None,
            outcome: Outcome::Nothing,
        }
    }

    /// A statement that was done, with this tag.
    pub(crate) fn done(tag: &'static [u8]) -> Ran
        ensures notice { result.notice ≡ None }
        ensures outcome { outcome_of result.outcome ≡ spec.Done tag.now }
    {
        Ran {
            notice: None,
            outcome: Outcome::Done(tag),
        }
    }

    /// A statement that was done, after this warning.
    pub(crate) fn warned(notice: Notice, tag: &'static [u8]) -> Ran
        ensures notice { result.notice ≡ Some notice }
        ensures outcome { outcome_of result.outcome ≡ spec.Done tag.now }
    {
        Ran {
            notice: Some(notice),
            outcome: Outcome::Done(tag),
        }
    }

    /// A statement that gives these rows.
    pub(crate) fn rows(rows: Shared<Row>) -> Ran
        ensures notice { result.notice ≡ None }
        ensures outcome { outcome_of result.outcome ≡ spec.Rows rows }
    {
        Ran {
            notice: None,
            outcome: Outcome::Rows(rows),
        }
    }
}

fn put_already_in_transaction(out: &mut BytesMut) -> Result<(), AllocError>
    ensures { OnOk result (out.new.items ≡ out.old.items ++ spelling already_in_transaction) }
{
    put_notice_response(
        out,
        Severity::Warning,
        b"25001",
        b"there is already a transaction in progress",
    )
}

fn put_no_transaction(out: &mut BytesMut) -> Result<(), AllocError>
    ensures { OnOk result (out.new.items ≡ out.old.items ++ spelling no_transaction) }
{
    put_notice_response(
        out,
        Severity::Warning,
        b"25P01",
        b"there is no transaction in progress",
    )
}

/// Writes the warning on the way, if there is one.
pub fn put_notices(notice: Option<Notice>, out: &mut BytesMut) -> Result<(), AllocError>
    ensures { OnOk result (out.new.items ≡ out.old.items ++ flat_map spelling (notices_of notice)) }
{
    match notice {
        Some(Notice::AlreadyInTransaction) => put_already_in_transaction(out),
        Some(Notice::NoTransaction) => put_no_transaction(out),
        None => Ok(()),
    }
}

/// Writes all that a statement gives, and its end.
pub fn put_outcome(
    alloc: Global,
    statement: &Stmt<'_>,
    outcome: &Outcome,
    out: &mut BytesMut,
) -> Result<(), AllocError>
    ensures { OnOk result (out.new.items ≡ out.old.items ++ flat_map spelling (given_frames (meaning statement.now) (outcome_of outcome.now))) }
{
    match outcome {
        Outcome::Nothing => put_empty_query_response(out),
        Outcome::Done(tag) => put_command_complete(out, tag),
        Outcome::Rows(rows) => {
            put_rows(alloc, rows.as_slice(), out)?;
            put_row_tag(alloc, statement, rows.len(), out)
        }
    }
}

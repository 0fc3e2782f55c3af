//! Reports and ReadyForQuery (PostgreSQL manual, "Asynchronous Operations").
ghost use Rattle.std.specs.Prelude.{◌≡◌, ◌++◌, ◌≤◌, length, map, OnOk, Ok};
ghost use Rattle.std.specs.List.{flat_map};
ghost use Rattle.std.specs.Arc.{arc_value};
ghost use Rattle.frame_view.specs.Frames.{spelling};
ghost use Rattle.session_values.specs.Answers.{Gave};
ghost use Rattle.session_values.specs.Parameters.{reported_parameters};
ghost use Rattle.session_values.specs.State.{all_reports, all_reports_from, answers, ready, report_of, reported_now, reports, reports_from, status};
ghost use Rattle.message_view.specs.Parts.{status_byte};

use crate::session::SessionState;
use bytes::BytesMut;
use message_view::{Status, put_parameter_status, put_ready_for_query};
use session_values::block::Block;
use session_values::parameter::{PARAMETERS, Parameter};
use session_values::text::Text;
use session_values::values::REPORTED;
use std::alloc::{AllocError, Global};
use std::sync::Arc;

/// The reported parameters.
fn reported_parameters() -> &'static [Parameter]
    ensures { result.now ≡ reported_parameters }
{
    &PARAMETERS[..REPORTED]
}

/// One ParameterStatus for each parameter whose value isn't the last reported one.
fn put_reports(
    parameters: &[Parameter],
    current: &[Arc<Text>],
    reported: &[Arc<Text>],
    out: &mut BytesMut,
) -> Result<(), AllocError>
    requires current { length parameters.now ≤ length current.now }
    requires reported { length parameters.now ≤ length reported.now }
    ensures { OnOk result (out.new.items ≡ out.old.items ++ flat_map spelling (reports_from parameters.now (map arc_value current.now) (map arc_value reported.now))) }
{
    for (place, parameter) in parameters.iter().enumerate() {
        put_report(*parameter, &current[place], &reported[place], out)?;
    }
    Ok(())
}

fn put_report(
    parameter: Parameter,
    current: &Text,
    reported: &Text,
    out: &mut BytesMut,
) -> Result<(), AllocError>
    ensures { OnOk result (out.new.items ≡ out.old.items ++ flat_map spelling (report_of parameter current.now reported.now)) }
{
    if current.is(reported.as_slice()) {
        return Ok(());
    }
    put_parameter_status(out, parameter.name(), current.as_slice())
}

/// One ParameterStatus for each parameter.
fn put_all_reports(
    parameters: &[Parameter],
    values: &[Arc<Text>],
    out: &mut BytesMut,
) -> Result<(), AllocError>
    requires { length parameters.now ≤ length values.now }
    ensures { OnOk result (out.new.items ≡ out.old.items ++ flat_map spelling (all_reports_from parameters.now (map arc_value values.now))) }
{
    for (place, parameter) in parameters.iter().enumerate() {
        put_parameter_status(out, parameter.name(), values[place].as_slice())?;
    }
    Ok(())
}

fn status_of(block: Block) -> Status
    ensures { status_byte result ≡ status block }
{
    match block {
        Block::Outside => Status::Idle,
        Block::Inside => Status::InTransaction,
        Block::Failed => Status::Failed,
    }
}

impl SessionState {
    /// Writes reports and ReadyForQuery.
    pub fn ready(&mut self, alloc: Global, out: &mut BytesMut) -> Result<(), AllocError>
        ensures { OnOk result (Gave self.new out.old.items out.new.items (ready self.old)) }
    {
        self.report(alloc, out)?;
        put_ready_for_query(out, status_of(self.block))
    }

    /// Reports what changed since the last report; where that is known to be nothing, it isn't looked
    /// for.
    #[tactic(auto, using(crate::proofs::Known::none_reported))]
    fn report(&mut self, alloc: Global, out: &mut BytesMut) -> Result<(), AllocError>
        ensures { OnOk result (Gave self.new out.old.items out.new.items (answers (reported_now self.old) (reports self.old))) }
    {
        if self.is_reported {
            return Ok(());
        }
        put_reports(
            reported_parameters(),
            self.work.values.as_slice(),
            self.reported.as_slice(),
            out,
        )?;
        self.reported = self.work.values.reported(alloc)?;
        self.is_reported = true;
        Ok(())
    }

    /// Writes one ParameterStatus for each reported parameter.
    pub fn put_all_reports(&self, out: &mut BytesMut) -> Result<(), AllocError>
        ensures { OnOk result (out.new.items ≡ out.old.items ++ flat_map spelling (all_reports self.now)) }
    {
        put_all_reports(reported_parameters(), self.reported.as_slice(), out)
    }
}

//! Laws over the definitions alone: what the writers append is cut out again, whatever follows it,
//! and its parts are read again; and a body is read as parts only where they spell it.
ghost use Rattle.std.specs.Prelude.{◌++◌, ◌∷◌, []};
ghost use Rattle.std.specs.List.{AllByRecursion};
ghost use Rattle.message_view.specs.Bodies.{HasNoZero, bind_body, columns_body, execute_body, fields_body, int32, parse_body, startup_body, status_body, target_body, text, values};
ghost use Rattle.message_laws.specs.Laws.{CancelRequestIsCut, IsReaderOf, NamesAreTheStandards, PasswordMessageIsCut, QueryIsCut, ServerFrameIsCut, StartupMessageIsCut};
ghost use Rattle.message_view.specs.Parts.{status_byte};
ghost use Rattle.message_view.specs.Reading.{authentication_of, bind_of, data_row_of, execute_of, key_of, note_of, parse_of, password_of, query_of, ready_of, row_description_of, startup_of, status_of, tag_of, target_of};
ghost use Rattle.message_view.specs.Spelled.{Fits32, FitsBind, FitsColumn, FitsExecute, FitsField, FitsKey, FitsList, FitsPair, FitsParse, FitsStatus, FitsTarget, FitsValue};

use frame_view::laws::{first_spelled_is_read, spelled_is_first};

/// The numbers and letters of [`message_view::kinds`] are the standard's.
pub fn names_are_the_standards()
    ensures { NamesAreTheStandards }
{}

/// A server's frame is the first of the frames.
pub fn server_frame_is_cut()
    ensures { ServerFrameIsCut }
{
    spelled_is_first();
}

/// A Query is the first of the frames.
pub fn query_is_cut()
    ensures { QueryIsCut }
{
    spelled_is_first();
}

/// A PasswordMessage is the first of the frames.
pub fn password_message_is_cut()
    ensures { PasswordMessageIsCut }
{
    spelled_is_first();
}

/// A StartupMessage is the first packet.
pub fn startup_message_is_cut()
    ensures { StartupMessageIsCut }
{}

/// So is a CancelRequest.
pub fn cancel_request_is_cut()
    ensures { CancelRequestIsCut }
{
    first_spelled_is_read();
}

/// A StartupMessage's pairs are read again, and only where they spell the body.
pub fn startup_is_read()
    ensures { IsReaderOf startup_of startup_body (AllByRecursion FitsPair) }
{}

/// So is a PasswordMessage's text.
pub fn password_is_read()
    ensures { IsReaderOf password_of text HasNoZero }
{}

/// So is a Query's text.
pub fn query_is_read()
    ensures { IsReaderOf query_of text HasNoZero }
{}

/// So are a Parse's parts.
pub fn parse_is_read()
    ensures { IsReaderOf parse_of parse_body FitsParse }
{}

/// So are a Bind's parts.
pub fn bind_is_read()
    ensures { IsReaderOf bind_of bind_body FitsBind }
{}

/// So is what a Describe or a Close names.
pub fn target_is_read()
    ensures { IsReaderOf target_of target_body FitsTarget }
{}

/// So are an Execute's parts.
pub fn execute_is_read()
    ensures { IsReaderOf execute_of (λ x. execute_body x.0 x.1) FitsExecute }
{}

/// So are an authentication message's number and the rest.
pub fn authentication_is_read()
    ensures { IsReaderOf authentication_of (λ x. int32 x.0 ++ x.1) (λ x. Fits32 x.0) }
{}

/// So are a BackendKeyData's numbers.
pub fn key_is_read()
    ensures { IsReaderOf key_of (λ x. int32 x.0 ++ int32 x.1) FitsKey }
{}

/// So are a ParameterStatus's name and value.
pub fn status_is_read()
    ensures { IsReaderOf status_of (λ x. status_body x.0 x.1) FitsStatus }
{}

/// So is a ReadyForQuery's status.
pub fn ready_is_read()
    ensures { IsReaderOf ready_of (λ s. status_byte s ∷ []) (λ _. Unit {0}) }
{}

/// So is a CommandComplete's tag.
pub fn tag_is_read()
    ensures { IsReaderOf tag_of text HasNoZero }
{}

/// So are a RowDescription's columns.
pub fn row_description_is_read()
    ensures { IsReaderOf row_description_of columns_body (FitsList FitsColumn) }
{}

/// So are a DataRow's values.
pub fn data_row_is_read()
    ensures { IsReaderOf data_row_of values (FitsList FitsValue) }
{}

/// So are an ErrorResponse's and a NoticeResponse's fields.
pub fn note_is_read()
    ensures { IsReaderOf note_of fields_body (AllByRecursion FitsField) }
{}

//! The messages of a client of the console.
ghost use Rattle.std.specs.Prelude.{◌≡◌, false};
ghost use Rattle.session_values.specs.Answers.{frame_of};
ghost use Rattle.message_view.specs.Reading.{query_of};
ghost use Rattle.console_core.specs.Messages as spec;
ghost use Rattle.console_core.specs.Views.{response_view};

use frame_view::Frame;
use frame_view::client::{FLUSH, QUERY, SYNC, TERMINATE};
use message_view::QueryView;

/// What a message is answered by.
#[derive(Clone, Copy, Drop)]
pub enum Response<'a> {
    /// The answer to this command.
    Answer(&'a [u8]),
    /// The error of a Query whose body is no text, and ReadyForQuery.
    Malformed,
    /// The error of a message that the console doesn't serve; those that follow are dropped up to the next Sync.
    NotServed,
    /// ReadyForQuery; no message is dropped any more.
    Ready,
    Nothing,
    /// Nothing: the client leaves.
    Leave,
}

/// The response to a Query of this body, where messages aren't dropped.
fn query_response(body: &[u8]) -> Response<'_>
    ensures { response_view false result ≡ spec.query_response (query_of body.now) }
{
    match QueryView::read(body) {
        Ok(query) => Response::Answer(query.text),
        Err(_) => Response::Malformed,
    }
}

/// The response to a client's message, where messages are dropped up to the next Sync, or aren't.
pub fn response_to(frame: Frame<'_>, drops: bool) -> Response<'_>
    ensures { response_view drops result ≡ spec.response_to drops (frame_of frame.entry) }
{
    match frame.kind {
        TERMINATE => Response::Leave,
        SYNC => Response::Ready,
        _ if drops => Response::Nothing,
        FLUSH => Response::Nothing,
        QUERY => query_response(frame.body),
        _ => Response::NotServed,
    }
}

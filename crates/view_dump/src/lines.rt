//! The parts of messages, a line for each.

use frame_view::{FirstStep, MAX_FRAME, Side, Step, client, first_packet, next_frame, server};
use itoa::Buffer;
use message_view::{
    AuthView, BindView, CloseView, Codes, DataRowView, DescribeView, ExecuteView, KeyView,
    NoteView, ParseView, PasswordView, QueryView, ReadyView, RowDescView, StartupView, Status,
    StatusView, TagView, Target, Values, ViewError,
};
use std::alloc::{AllocError, Global};

/// Which messages the bytes are.
#[derive(Clone, Copy, Drop)]
pub enum Messages {
    /// Clients' first packets.
    First,
    /// Those of this side behind them.
    Of(Side),
}

/// Why a message's parts aren't told.
#[derive(Drop)]
enum Unread {
    Memory,
    Fault(ViewError),
}

impl From<AllocError> for Unread {
    fn from(_error: AllocError) -> Unread {
        Unread::Memory
    }
}

impl From<ViewError> for Unread {
    fn from(fault: ViewError) -> Unread {
        Unread::Fault(fault)
    }
}

/// The lines so far, of which the last is being written.
#[derive(Drop)]
struct Line {
    alloc: Global,
    out: Vec<u8>,
}

impl Line {
    /// Adds a text in hex.
    fn text(&mut self, text: &[u8]) -> Result<(), AllocError> {
        let hex = hex::encode(self.alloc, text)?;
        self.out.extend_from_slice(b" x")?;
        self.out.extend_from_slice(hex.as_bytes())
    }

    /// Adds a number.
    fn number(&mut self, number: i64) -> Result<(), AllocError> {
        let mut digits = Buffer::new();
        self.out.extend_from_slice(b" ")?;
        self.out.extend_from_slice(digits.format(number).as_bytes())
    }

    fn value(&mut self, value: Option<&[u8]>) -> Result<(), AllocError> {
        match value {
            Some(value) => self.text(value),
            None => self.out.extend_from_slice(b" null"),
        }
    }

    fn values(&mut self, values: Values<'_>) -> Result<(), AllocError> {
        self.number(values.len() as i64)?;
        for value in values {
            self.value(value)?;
        }
        Ok(())
    }

    fn codes(&mut self, codes: Codes<'_>) -> Result<(), AllocError> {
        self.number(codes.len() as i64)?;
        for code in codes {
            self.number(i64::from(code))?;
        }
        Ok(())
    }

    fn target(&mut self, target: Target<'_>) -> Result<(), AllocError> {
        let (kind, name) = match target {
            Target::Statement(name) => (b"S", name),
            Target::Portal(name) => (b"P", name),
        };
        self.text(kind)?;
        self.text(name)
    }

    fn parse(&mut self, view: ParseView<'_>) -> Result<(), AllocError> {
        self.text(view.name)?;
        self.text(view.query)?;
        self.number(view.oids.len() as i64)?;
        for oid in view.oids {
            self.number(i64::from(oid))?;
        }
        Ok(())
    }

    fn bind(&mut self, view: BindView<'_>) -> Result<(), AllocError> {
        self.text(view.portal)?;
        self.text(view.statement)?;
        self.codes(view.formats)?;
        self.values(view.values())?;
        self.codes(view.results)
    }

    fn columns(&mut self, view: RowDescView<'_>) -> Result<(), AllocError> {
        self.number(view.columns().len() as i64)?;
        for column in view.columns() {
            self.text(column.name)?;
            for number in [column.table, u32::from(column.number), column.type_oid] {
                self.number(i64::from(number))?;
            }
            self.number(i64::from(column.size))?;
            self.number(i64::from(column.modifier))?;
            self.number(i64::from(column.format))?;
        }
        Ok(())
    }

    fn ready(&mut self, status: Status) -> Result<(), AllocError> {
        match status {
            Status::Idle => self.text(b"I"),
            Status::InTransaction => self.text(b"T"),
            Status::Failed => self.text(b"E"),
        }
    }

    /// Adds the parts of a StartupMessage.
    fn first(&mut self, body: &[u8]) -> Result<(), Unread> {
        for (name, value) in StartupView::read(body)?.pairs() {
            self.text(name)?;
            self.text(value)?;
        }
        Ok(())
    }

    fn note(&mut self, view: NoteView<'_>) -> Result<(), AllocError> {
        for (code, text) in view.fields() {
            self.number(i64::from(code))?;
            self.text(text)?;
        }
        Ok(())
    }

    /// Adds the parts of a client's message.
    fn of_client(&mut self, kind: u8, body: &[u8]) -> Result<(), Unread> {
        match kind {
            client::QUERY => self.text(QueryView::read(body)?.text)?,
            client::PASSWORD_MESSAGE => self.text(PasswordView::read(body)?.password)?,
            client::PARSE => self.parse(ParseView::read(body)?)?,
            client::BIND => self.bind(BindView::read(body)?)?,
            client::DESCRIBE => self.target(DescribeView::read(body)?.target)?,
            client::CLOSE => self.target(CloseView::read(body)?.target)?,
            client::EXECUTE => {
                let view = ExecuteView::read(body)?;
                self.text(view.portal)?;
                self.number(i64::from(view.limit))?;
            }
            _ => {}
        }
        Ok(())
    }

    /// Adds the parts of a server's message.
    fn of_server(&mut self, kind: u8, body: &[u8]) -> Result<(), Unread> {
        match kind {
            server::AUTHENTICATION => {
                let view = AuthView::read(body)?;
                self.number(i64::from(view.kind))?;
                self.text(view.rest)?;
            }
            server::PARAMETER_STATUS => {
                let view = StatusView::read(body)?;
                self.text(view.name)?;
                self.text(view.setting)?;
            }
            server::BACKEND_KEY_DATA => {
                let view = KeyView::read(body)?;
                self.number(i64::from(view.pid))?;
                self.number(i64::from(view.secret))?;
            }
            server::READY_FOR_QUERY => self.ready(ReadyView::read(body)?.status)?,
            server::COMMAND_COMPLETE => self.text(TagView::read(body)?.tag)?,
            server::ROW_DESCRIPTION => self.columns(RowDescView::read(body)?)?,
            server::DATA_ROW => self.values(DataRowView::read(body)?.values())?,
            server::ERROR_RESPONSE | server::NOTICE_RESPONSE => self.note(NoteView::read(body)?)?,
            _ => {}
        }
        Ok(())
    }

    /// Ends the line; what isn't read is told by the name of its fault.
    fn end(&mut self, parts: Result<(), Unread>) -> Result<(), AllocError> {
        let end: &[u8] = match parts {
            Ok(()) => b" .\n",
            Err(Unread::Memory) => return Err(AllocError),
            Err(Unread::Fault(ViewError::TooShort)) => b" TooShort\n",
            Err(Unread::Fault(ViewError::NoZero)) => b" NoZero\n",
            Err(Unread::Fault(ViewError::LeftOver)) => b" LeftOver\n",
            Err(Unread::Fault(ViewError::BadLength)) => b" BadLength\n",
        };
        self.out.extend_from_slice(end)
    }

    /// A line for each StartupMessage that the bytes begin with.
    fn firsts(&mut self, bytes: &[u8]) -> Result<(), AllocError> {
        let mut rest = bytes;
        for _ in 0..bytes.len() {
            let FirstStep::Startup(body) = first_packet(rest) else {
                break;
            };
            let parts = self.first(body);
            self.end(parts)?;
            rest = &rest[(8 + body.len()).min(rest.len())..];
        }
        Ok(())
    }

    /// A line for each message of this side that the bytes begin with.
    fn messages(&mut self, side: Side, bytes: &[u8]) -> Result<(), AllocError> {
        let mut rest = bytes;
        for _ in 0..bytes.len() {
            let Step::Whole(frame) = next_frame(rest, 0, MAX_FRAME, side) else {
                break;
            };
            let parts = match side {
                Side::Client => self.of_client(frame.kind, frame.body),
                Side::Server => self.of_server(frame.kind, frame.body),
            };
            self.end(parts)?;
            rest = &rest[frame.whole.len().min(rest.len())..];
        }
        Ok(())
    }
}

/// A line for each message that the bytes begin with.
pub fn lines_of(alloc: Global, messages: Messages, bytes: &[u8]) -> Result<Vec<u8>, AllocError> {
    let mut line = Line {
        alloc,
        out: Vec::new(alloc),
    };
    match messages {
        Messages::First => line.firsts(bytes)?,
        Messages::Of(side) => line.messages(side, bytes)?,
    }
    Ok(line.out)
}

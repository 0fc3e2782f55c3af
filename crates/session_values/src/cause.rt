//! The errors by which a session answers (PostgreSQL manual, "PostgreSQL Error Codes").
ghost use Rattle.std.specs.Prelude.{◌≡◌};

/// Why a client's message is answered by an error.
#[derive(Clone, Copy, Debug, PartialEq, Eq, Drop)]
pub enum Cause {
    /// 08P01
    MalformedMessage,
    /// 0A000
    NotSupported,
    /// 22023
    InvalidValue,
    /// 25001
    InTransaction,
    /// 25P02
    Aborted,
    /// 26000
    NoStatement,
    /// 34000
    NoPortal,
    /// 3D000
    NoDatabase,
    /// 42601
    Syntax,
    /// 42701
    ColumnTwice,
    /// 42703
    NoColumn,
    /// 42704
    NoParameter,
    /// 42P01
    NoTable,
    /// 42P02
    NoPlaceholder,
    /// 42P03
    PortalExists,
    /// 42P05
    StatementExists,
    /// 42P07
    TableExists,
    /// 55000
    PortalIsDone,
    /// 55P02
    FixedParameter,
    /// 57014
    Cancelled,
}

impl Cause {
    ghost use Rattle.session_values.specs.Errors.{told};

    /// Its SQLSTATE.
    pub fn code(self) -> &'static [u8]
        ensures { result.now ≡ (told self).code }
    {
        match self {
            Cause::MalformedMessage => b"08P01",
            Cause::NotSupported => b"0A000",
            Cause::InvalidValue => b"22023",
            Cause::InTransaction => b"25001",
            Cause::Aborted => b"25P02",
            Cause::NoStatement => b"26000",
            Cause::NoPortal => b"34000",
            Cause::NoDatabase => b"3D000",
            Cause::Syntax => b"42601",
            Cause::ColumnTwice => b"42701",
            Cause::NoColumn => b"42703",
            Cause::NoParameter => b"42704",
            Cause::NoTable => b"42P01",
            Cause::NoPlaceholder => b"42P02",
            Cause::PortalExists => b"42P03",
            Cause::StatementExists => b"42P05",
            Cause::TableExists => b"42P07",
            Cause::PortalIsDone => b"55000",
            Cause::FixedParameter => b"55P02",
            Cause::Cancelled => b"57014",
        }
    }

    /// Its text.
    pub fn text(self) -> &'static [u8]
        ensures { result.now ≡ (told self).message }
    {
        match self {
            Cause::MalformedMessage => b"invalid message format",
            Cause::NotSupported => b"not supported by this server",
            Cause::InvalidValue => b"invalid value",
            Cause::InTransaction => b"DISCARD ALL cannot run inside a transaction block",
            Cause::Aborted => b"current transaction is aborted",
            Cause::NoStatement => b"prepared statement does not exist",
            Cause::NoPortal => b"portal does not exist",
            Cause::NoDatabase => b"database does not exist",
            Cause::Syntax => b"syntax error",
            Cause::ColumnTwice => b"column specified more than once",
            Cause::NoColumn => b"column does not exist",
            Cause::NoParameter => b"unrecognized configuration parameter",
            Cause::NoTable => b"relation does not exist",
            Cause::NoPlaceholder => b"there is no parameter",
            Cause::PortalExists => b"portal already exists",
            Cause::StatementExists => b"prepared statement already exists",
            Cause::TableExists => b"relation already exists",
            Cause::PortalIsDone => b"portal cannot be run",
            Cause::FixedParameter => b"parameter cannot be changed",
            Cause::Cancelled => b"statement was cancelled",
        }
    }
}

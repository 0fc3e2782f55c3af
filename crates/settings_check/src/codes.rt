//! The codes of what is wrong with a line.
ghost use Rattle.std.specs.Prelude.{◌≡◌};
ghost use Rattle.settings_check.specs.Codes as spec;

use ini_config::IniCause;
use user_file::UserCause;

/// The code of a fault of the settings.
pub fn ini_code(cause: IniCause) -> &'static str
    ensures { result.now ≡ spec.ini_code cause }
{
    match cause {
        IniCause::UnknownSection => "C1",
        IniCause::UnknownKey => "C2",
        IniCause::BadValue => "C3",
        IniCause::KeyTwice => "C4",
        IniCause::PoolMode => "C5",
        IniCause::ResetQuery => "C6",
        IniCause::NotALine => "C7",
        IniCause::Memory => "C8",
    }
}

/// The code of a fault of the users.
pub fn users_code(cause: UserCause) -> &'static str
    ensures { result.now ≡ spec.users_code cause }
{
    match cause {
        UserCause::BadQuoting => "U1",
        UserCause::NameTwice => "U2",
        UserCause::Memory => "U3",
    }
}

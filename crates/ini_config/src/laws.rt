//! The law of settings that were read, as the contract of a function that does nothing.

ghost use Rattle.ini_config.specs.Bounds.{ReadSettingsAreWithinBounds};

/// Whatever a settings file says, where it is read its counts, times, sizes and ports are within their bounds, and each of its rows
/// names a database that a server can have.
pub fn read_settings_are_within_bounds()
    ensures { ReadSettingsAreWithinBounds }
{}

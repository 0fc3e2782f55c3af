//! The values that SET and a start give to parameters (PostgreSQL manual, "SET").
ghost use Rattle.std.specs.Prelude.{◌≡◌, IfOk};
ghost use Rattle.mini_sql.specs.Meanings.{literal_value, setting_value};
ghost use Rattle.session_values.specs.Answers.{Finds};
ghost use Rattle.session_values.specs.State.{new_value, set_all, set_parameter};

use crate::cause::Cause;
use crate::parameter::Parameter;
use crate::stop::Stop;
use crate::text::Text;
use crate::values::Values;
use mini_sql::{Literal, Setting};
use std::alloc::{AllocError, Global};

/// The text that a literal stands for.
pub fn literal_text(alloc: Global, literal: &Literal<'_>) -> Result<Text, AllocError>
    ensures { IfOk result (λ t. t ≡ literal_value literal.now) }
{
    let mut bytes = Vec::new(alloc);
    for byte in literal.bytes() {
        bytes.push(byte)?;
    }
    Ok(Text::from_vec(bytes))
}

/// The text that a setting stands for; none for DEFAULT.
pub fn setting_text(alloc: Global, setting: &Setting<'_>) -> Result<Option<Text>, AllocError>
    ensures { IfOk result (λ o. o ≡ setting_value setting.now) }
{
    match setting {
        Setting::Default => Ok(None),
        Setting::Literal(literal) => Ok(Some(literal_text(alloc, literal)?)),
        Setting::Word(word) => Ok(Some(Text::folded(alloc, word)?)),
        Setting::Digits(digits) => Ok(Some(Text::from_slice(alloc, digits)?)),
    }
}

/// The value that a SET keeps, or why there is none; no text stands for the default.
pub fn new_value(
    alloc: Global,
    defaults: &Values,
    parameter: Parameter,
    text: &Option<Text>,
) -> Result<Text, Stop>
    ensures { Finds result (new_value defaults.now parameter text.now) }
{
    if parameter.is_fixed() {
        return Err(Stop::Refused(Cause::FixedParameter));
    }
    let Some(text) = text else {
        return Ok(defaults.get(parameter).copied()?);
    };
    match parameter.accepted(alloc, text.as_slice())? {
        Some(value) => Ok(value),
        None => Err(Stop::Refused(Cause::InvalidValue)),
    }
}

/// The values after a SET, or why there are none.
pub fn set_parameter(
    alloc: Global,
    defaults: &Values,
    values: &Values,
    name: &[u8],
    text: &Option<Text>,
) -> Result<Values, Stop>
    ensures { Finds result (set_parameter defaults.now values.now name.now text.now) }
{
    let Some(parameter) = Parameter::named(name) else {
        return Err(Stop::Refused(Cause::NoParameter));
    };
    let value = new_value(alloc, defaults, parameter, text)?;
    Ok(values.with(alloc, parameter, value)?)
}

/// The values after a SET of each of these.
pub fn set_all(
    alloc: Global,
    defaults: &Values,
    parameters: &[(Text, Text)],
) -> Result<Values, Stop>
    ensures { Finds result (set_all defaults.now defaults.now parameters.now) }
{
    let mut values = defaults.copied()?;
    for parameter in parameters {
        let text = Some(parameter.1.copied()?);
        values = set_parameter(alloc, defaults, &values, parameter.0.as_slice(), &text)?;
    }
    Ok(values)
}

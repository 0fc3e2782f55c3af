//! The values of the run-time parameters.
ghost use Rattle.std.specs.Prelude.{◌≡◌, ◌<◌, length, map, IfOk, if◌then◌else◌};
ghost use Rattle.std.specs.Arc.{arc_value};
ghost use Rattle.session_values.specs.Parameters.{default, defaults, is_fixed, parameters, value_of, with_value};
ghost use Rattle.session_values.specs.State.{reported_of};
ghost use Rattle.session_values.specs.Runs.{reset_from};

use crate::parameter::{PARAMETER_COUNT, PARAMETERS, Parameter};
use crate::text::Text;
use shared_list::Shared;
use std::alloc::{AllocError, Global};
use std::marker::Model;
use std::sync::Arc;

/// How many parameters are reported: the first ones.
pub const REPORTED: usize = 9;

/// The values of all parameters. Contracts see them as a list, in the order of the parameters.
pub struct Values {
    list: Shared<Text>,
}

impl Drop for Values {
    fn drop(self) {
        let Values { list: _ } = self;
    }
}

impl Model for Values {
    ghost use Rattle.std.specs.Prelude.{◌≡◌, List, ℕ, length};
    ghost use Rattle.session_values.specs.declared.parameter.TheConstants.{PARAMETER_COUNT};

    ghost Value = { List (List ℕ) };

    ghost view = { λ v. v.list };

    ghost invariant = { λ v. length v.list ≡ PARAMETER_COUNT };
}

fn default_of(version: &[u8], parameter: Parameter) -> &[u8]
    ensures { result.now ≡ default version.now parameter }
{
    match parameter {
        Parameter::ApplicationName => b"",
        Parameter::ClientEncoding => b"UTF8",
        Parameter::DateStyle => b"ISO, MDY",
        Parameter::IntegerDatetimes => b"on",
        Parameter::IntervalStyle => b"postgres",
        Parameter::ServerEncoding => b"UTF8",
        Parameter::ServerVersion => version,
        Parameter::StandardConformingStrings => b"on",
        Parameter::TimeZone => b"UTC",
        Parameter::ExtraFloatDigits => b"1",
        Parameter::SearchPath => b"public",
        Parameter::StatementTimeout => b"0",
    }
}

fn default_list(
    alloc: Global,
    version: &[u8],
    parameters: &[Parameter],
) -> Result<Vec<Arc<Text>>, AllocError>
    ensures { IfOk result (λ v. map arc_value v.items ≡ map (default version.now) parameters.now) }
{
    let mut list = Vec::with_capacity(alloc, parameters.len())?;
    for parameter in parameters {
        list.push(Arc::new(
            alloc,
            Text::from_slice(alloc, default_of(version, *parameter))?,
        )?)?;
    }
    Ok(list)
}

fn reset_value(
    parameter: Parameter,
    current: &Arc<Text>,
    default: &Arc<Text>,
) -> Result<Arc<Text>, AllocError>
    ensures { IfOk result (λ v. arc_value v ≡ (if is_fixed parameter then arc_value current.now else arc_value default.now)) }
{
    if parameter.is_fixed() {
        Arc::try_clone(current)
    } else {
        Arc::try_clone(default)
    }
}

/// A value of each parameter: the default where it may be changed, else the current one.
fn reset_list(
    alloc: Global,
    parameters: &[Parameter],
    current: &[Arc<Text>],
    defaults: &[Arc<Text>],
) -> Result<Vec<Arc<Text>>, AllocError>
    requires current { length current.now ≡ length parameters.now }
    requires defaults { length defaults.now ≡ length parameters.now }
    ensures values { IfOk result (λ v. map arc_value v.items ≡ reset_from parameters.now (map arc_value current.now) (map arc_value defaults.now)) }
    ensures length { IfOk result (λ v. length v.items ≡ length parameters.now) }
{
    let mut list = Vec::with_capacity(alloc, parameters.len())?;
    for (place, parameter) in parameters.iter().enumerate() {
        list.push(reset_value(*parameter, &current[place], &defaults[place])?)?;
    }
    Ok(list)
}

impl Values {
    /// The defaults of a server of this version.
    pub fn defaults(alloc: Global, version: &[u8]) -> Result<Values, AllocError>
        ensures { IfOk result (λ v. v ≡ defaults version.now) }
    {
        Ok(Values {
            list: Shared::from_shared(alloc, default_list(alloc, version, &PARAMETERS)?)?,
        })
    }

    /// The same values.
    pub fn copied(&self) -> Result<Values, AllocError>
        ensures { IfOk result (λ v. v ≡ self.now) }
    {
        Ok(Values {
            list: self.list.copied()?,
        })
    }

    /// The value of a parameter.
    pub fn get(&self, parameter: Parameter) -> &Text
        ensures { result.now ≡ value_of self.now parameter }
    {
        self.list.at(parameter.place())
    }

    /// These values with another one of a parameter.
    pub fn with(
        &self,
        alloc: Global,
        parameter: Parameter,
        value: Text,
    ) -> Result<Values, AllocError>
        ensures { IfOk result (λ v. v ≡ with_value self.now parameter value) }
    {
        Ok(Values {
            list: self.list.set(alloc, parameter.place(), value)?,
        })
    }

    /// The default of each parameter that may be changed, and these values of the others.
    pub fn reset(&self, alloc: Global, defaults: &Values) -> Result<Values, AllocError>
        ensures { IfOk result (λ v. v ≡ reset_from parameters self.now defaults.now) }
    {
        let list = reset_list(
            alloc,
            &PARAMETERS,
            self.list.as_slice(),
            defaults.list.as_slice(),
        )?;
        Ok(Values {
            list: Shared::from_shared(alloc, list)?,
        })
    }

    /// All values, in the order of the parameters.
    pub fn as_slice(&self) -> &[Arc<Text>]
        ensures values { map arc_value result.now ≡ self.now }
        ensures length { length result.now ≡ PARAMETER_COUNT }
    {
        self.list.as_slice()
    }

    /// The values of the reported parameters.
    pub fn reported(&self, alloc: Global) -> Result<Shared<Text>, AllocError>
        ensures values { IfOk result (λ v. v ≡ reported_of self.now) }
        ensures count { IfOk result (λ v. length v ≡ REPORTED) }
    {
        self.list.front(alloc, REPORTED)
    }
}

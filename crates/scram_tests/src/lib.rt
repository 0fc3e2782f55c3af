//! Tests of SCRAM (`scram`) and of how passwords are prepared for it (`sasl_prep`): vectors of RFCs, an exchange whole, what PostgreSQL
//! made of passwords, and what isn't read.
#![tactic(auto)]

#[cfg(test)]
mod exchanges;
#[cfg(test)]
mod preparations;
#[cfg(test)]
mod refusals;
#[cfg(test)]
mod vectors;
#[cfg(test)]
mod verifiers;

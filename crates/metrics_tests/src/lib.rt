//! Tests of metrics: the text whole, worked out by hand (`metrics_text`); requests and their responses, and the serving of them over the
//! loopback network (`metrics_http`).
#![tactic(auto)]

#[cfg(test)]
mod books;
#[cfg(test)]
mod requests;
#[cfg(test)]
mod responses;
#[cfg(test)]
mod serving;
#[cfg(test)]
mod texts;

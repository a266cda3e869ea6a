//! What a server believes of the headers in which proxies tell what they were asked: the
//! `X-Forwarded-` family, for which `Forwarded` (RFC 7239) is the standard's name.
#![tactic(auto)]

mod endpoint;
mod headers;
mod keeping;
mod kept_field;
mod lists;
mod reading;
#[cfg(test)]
mod shown;
#[cfg(test)]
mod tests;
mod trusting;
mod types;

pub use kept_field::KeptField;
pub use trusting::trust;
pub use types::{ProxyFault, ProxyRules, Trusted};

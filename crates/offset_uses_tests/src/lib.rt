//! Tests of `offset_uses`.
#![tactic(auto)]

#[cfg(test)]
mod asserts;
#[cfg(test)]
mod layouts;
#[cfg(test)]
mod uses;

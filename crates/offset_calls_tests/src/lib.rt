//! Tests of `offset_calls`, and random tickets of `offset_guarded`.
#![tactic(auto)]

#[cfg(test)]
mod asserts;
#[cfg(test)]
mod calls;
#[cfg(test)]
mod layouts;
#[cfg(test)]
mod long_lists;
#[cfg(test)]
mod tickets;

//! Tests of `offset_script` and of `offset_pictures`.
#![tactic(auto)]

#[cfg(test)]
mod asserts;
#[cfg(test)]
mod layouts;
#[cfg(test)]
mod pictures;
#[cfg(test)]
mod playing;
#[cfg(test)]
mod programs;
#[cfg(test)]
mod scripts;

//! Many heaps are plain lists of blocks. It has laws alone, of what `offset_heaps` does and `offset_calls` defines.
#![tactic(auto)]

pub mod laws;

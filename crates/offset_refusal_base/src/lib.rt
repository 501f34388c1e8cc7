//! What the programs share whose calls run out of memory: the layouts that a call is made on, the cells that take
//! the numbers of its results, how it can fail, and the lines that are printed. These functions have no
//! contracts; those that they call are proved.
#![tactic(auto)]

pub mod cells;
pub mod layouts;
pub mod outcomes;
pub mod program;

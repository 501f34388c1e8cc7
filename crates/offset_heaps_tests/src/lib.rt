//! What callers of many heaps prove by the contracts alone: that each call is one of those that the laws speak of, and that
//! any calls, one after another, make no place live again whose heap is gone.
#![tactic(auto)]

mod histories;
mod one_heap;
mod taking;

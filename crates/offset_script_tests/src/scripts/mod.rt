//! Tests of `offset_script`.

mod adapters;
mod debug_texts;
mod devices;
mod outcomes;
mod parsing;
mod plain_sinks;
mod rows;

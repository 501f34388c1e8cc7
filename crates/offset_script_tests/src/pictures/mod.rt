//! Tests of `offset_pictures`.

mod examples;
mod many;
mod markup;
mod support;

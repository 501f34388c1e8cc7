//! The two lawful layouts of the tables. They alone touch cells.

pub(crate) mod by_field;
pub(crate) mod by_node;
pub(crate) mod fills;

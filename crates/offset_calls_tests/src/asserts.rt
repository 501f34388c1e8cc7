//! Assertions that are proved once: `assert!` and `assert_eq!` are proved anew wherever they are written,
//! each for seconds. Only tests may end the process, so each crate of tests has its own.

ghost use Rattle.std.specs.Prelude.{◌≡◌, true};

use std::alloc::Global;
use std::fmt::Debug;
use std::process::Abort;

/// Ends the test where this is false.
pub fn assert_that(rt: &impl Abort, is_so: bool)
    ensures { is_so ≡ true }
{
    assert!(rt; is_so);
}

/// Ends the test where these values differ.
pub fn assert_same<T: PartialEq + Debug>(rt: &impl Abort, found: &T, wanted: &T) {
    assert_eq!(rt; found, wanted);
}

/// Ends the test where the text of a value, by its `Debug`, is not this one.
pub fn assert_text<T: Debug>(rt: &impl Abort, alloc: Global, value: &T, wanted: &str) {
    let text = format!(in alloc; "{value:?}").expect(rt, "memory");
    assert_same(rt, &text.as_str(), &wanted);
}

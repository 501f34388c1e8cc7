//! A third lawful index type: the numbers 0 to 7, of which 0 to 6 name nodes.

ghost use Rattle.std.specs.Prelude.{◌≡◌, ℕ, ◌%◌, ◌<◌};

use offset_allocator::{NodeIndex, NodeIndexNonMax};
use std::fmt;
use std::marker::Model;

/// A number up to 7.
#[derive(Clone, Copy)]
pub struct Tiny {
    value: u8,
}

impl Model for Tiny {
    ghost Value = { ℕ };

    ghost view = { λ n. n.value };

    ghost invariant = { λ n. n.value < 8 };

    ghost inverse = { λ n. record { value = n } };
}

impl Default for Tiny {
    ghost is_default = { λ n. n ≡ 0 };

    fn default() -> Self {
        Tiny { value: 0 }
    }
}

/// A number up to 6.
#[derive(Clone, Copy, PartialEq)]
pub struct NonMaxTiny {
    value: u8,
}

impl Model for NonMaxTiny {
    ghost Value = { ℕ };

    ghost view = { λ n. n.value };

    ghost invariant = { λ n. n.value < 7 };

    ghost inverse = { λ n. record { value = n } };
}

impl Default for NonMaxTiny {
    ghost is_default = { λ n. n ≡ 0 };

    fn default() -> Self {
        NonMaxTiny { value: 0 }
    }
}

impl fmt::Debug for NonMaxTiny {
    fn fmt<W: fmt::Write>(&self, f: &mut fmt::Formatter<W>) -> fmt::Result {
        fmt::Debug::fmt(&self.value, f)
    }
}

impl fmt::Display for NonMaxTiny {
    ghost use Rattle.std.specs.Prelude.{Some};
    ghost use Rattle.std.specs.Fmt.{decimal};

    ghost output = { λ n. Some (decimal n) };

    fn fmt<W: fmt::Write>(&self, f: &mut fmt::Formatter<W>) -> fmt::Result {
        let value = self.value;
        write!(f, "{value}")
    }
}

impl NodeIndexNonMax for NonMaxTiny {
    ghost use Rattle.std.specs.Prelude.{refl};
    ghost use Rattle.std.proofs.Common.{rules};

    ghost number = { λ n. n };

    ghost of_number = { λ n. n };

    ghost limit = { 7 };

    fn to_usize(self) -> usize {
        self.value as usize
    }

    ghost of_its_number = { λ x. refl };

    ghost equal_numbers = { Prim.search rules };
}

impl NodeIndex for Tiny {
    ghost use Rattle.std.specs.Prelude.{refl};
    ghost use Rattle.std.proofs.Common.{lit≤};

    type NonMax = NonMaxTiny;

    ghost MAX = { 7 };

    ghost number = { λ n. n };

    const MAX: u32 = 7;

    fn from_u32(val: u32) -> Self
        ensures { result ≡ val % 8 }
    {
        Tiny {
            value: (val % 8) as u8,
        }
    }

    fn to_usize(self) -> usize {
        self.value as usize
    }

    fn to_nonmax(self) -> Option<NonMaxTiny> {
        if self.value == 7 {
            None
        } else {
            Some(NonMaxTiny { value: self.value })
        }
    }

    fn of_nonmax(n: NonMaxTiny) -> Self {
        Tiny { value: n.value }
    }

    ghost at_least_four = { lit≤ tt };

    ghost at_most_a_word = { lit≤ tt };

    ghost limit_of_names = { refl };
}

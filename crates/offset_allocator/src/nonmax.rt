//! The index types `u32` and `u16`, and the names of their nodes. It touches no table.
ghost use Rattle.std.specs.Prelude.{◌≡◌, ℕ, ◌%◌, ◌<◌, MatchOption};

use crate::index::{NodeIndex, NodeIndexNonMax};
use std::fmt;
use std::marker::Model;

/// A number below 4294967295.
#[derive(Clone, Copy, PartialEq)]
pub struct NonMaxU32 {
    value: u32,
}

impl Model for NonMaxU32 {
    ghost Value = { ℕ };

    ghost view = { λ n. n.value };

    ghost invariant = { λ n. n.value < 4294967295 };

    ghost inverse = { λ n. record { value = n } };
}

impl NonMaxU32 {
    /// The name of this number, or `None` for 4294967295.
    ///
    /// ```
    /// assert_eq!(NonMaxU32::new(7).unwrap().get(), 7);
    /// assert!(NonMaxU32::new(u32::MAX).is_none());
    /// ```
    pub fn new(value: u32) -> Option<Self>
        ensures { MatchOption result (value ≡ 4294967295) (λ n. (value < 4294967295) × (n ≡ value)) }
    {
        if value == u32::MAX {
            None
        } else {
            Some(NonMaxU32 { value })
        }
    }

    /// The number.
    ///
    /// ```
    /// assert_eq!(NonMaxU32::new(7).unwrap().get(), 7);
    /// ```
    pub fn get(self) -> u32
        ensures number { result ≡ self }
        ensures below { result < 4294967295 }
    {
        self.value
    }
}

impl Default for NonMaxU32 {
    ghost is_default = { λ n. n ≡ 0 };

    fn default() -> Self {
        NonMaxU32 { value: 0 }
    }
}

impl fmt::Debug for NonMaxU32 {
    fn fmt<W: fmt::Write>(&self, f: &mut fmt::Formatter<W>) -> fmt::Result {
        fmt::Debug::fmt(&self.value, f)
    }
}

impl fmt::Display for NonMaxU32 {
    ghost use Rattle.std.specs.Prelude.{Some};
    ghost use Rattle.std.specs.Fmt.{decimal};

    ghost output = { λ n. Some (decimal n) };

    fn fmt<W: fmt::Write>(&self, f: &mut fmt::Formatter<W>) -> fmt::Result {
        let value = self.value;
        write!(f, "{value}")
    }
}

impl NodeIndexNonMax for NonMaxU32 {
    ghost use Rattle.std.specs.Prelude.{refl};
    ghost use Rattle.std.proofs.Common.{rules};

    ghost number = { λ n. n };

    ghost of_number = { λ n. n };

    ghost limit = { 4294967295 };

    fn to_usize(self) -> usize {
        self.value as usize
    }

    ghost of_its_number = { λ x. refl };

    ghost equal_numbers = { Prim.search rules };
}

impl NodeIndex for u32 {
    ghost use Rattle.std.specs.Prelude.{refl};
    ghost use Rattle.std.proofs.Common.{lit≤};

    type NonMax = NonMaxU32;

    ghost MAX = { 4294967295 };

    ghost number = { λ n. n };

    const MAX: u32 = u32::MAX;

    fn from_u32(val: u32) -> Self
        ensures { result ≡ val }
    {
        val
    }

    fn to_usize(self) -> usize {
        self as usize
    }

    fn to_nonmax(self) -> Option<NonMaxU32> {
        NonMaxU32::new(self)
    }

    fn to_name(self) -> NonMaxU32 {
        NonMaxU32 { value: self }
    }

    fn of_nonmax(n: NonMaxU32) -> Self {
        n.get()
    }

    ghost at_least_four = { lit≤ tt };

    ghost at_most_a_word = { lit≤ tt };

    ghost limit_of_names = { refl };
}

/// A number below 65535.
#[derive(Clone, Copy, PartialEq)]
pub struct NonMaxU16 {
    value: u16,
}

impl Model for NonMaxU16 {
    ghost Value = { ℕ };

    ghost view = { λ n. n.value };

    ghost invariant = { λ n. n.value < 65535 };

    ghost inverse = { λ n. record { value = n } };
}

impl NonMaxU16 {
    /// The name of this number, or `None` for 65535.
    ///
    /// ```
    /// assert_eq!(NonMaxU16::new(7).unwrap().get(), 7);
    /// assert!(NonMaxU16::new(u16::MAX).is_none());
    /// ```
    pub fn new(value: u16) -> Option<Self>
        ensures { MatchOption result (value ≡ 65535) (λ n. (value < 65535) × (n ≡ value)) }
    {
        if value == u16::MAX {
            None
        } else {
            Some(NonMaxU16 { value })
        }
    }

    /// The number.
    ///
    /// ```
    /// assert_eq!(NonMaxU16::new(7).unwrap().get(), 7);
    /// ```
    pub fn get(self) -> u16
        ensures number { result ≡ self }
        ensures below { result < 65535 }
    {
        self.value
    }
}

impl Default for NonMaxU16 {
    ghost is_default = { λ n. n ≡ 0 };

    fn default() -> Self {
        NonMaxU16 { value: 0 }
    }
}

impl fmt::Debug for NonMaxU16 {
    fn fmt<W: fmt::Write>(&self, f: &mut fmt::Formatter<W>) -> fmt::Result {
        fmt::Debug::fmt(&self.value, f)
    }
}

impl fmt::Display for NonMaxU16 {
    ghost use Rattle.std.specs.Prelude.{Some};
    ghost use Rattle.std.specs.Fmt.{decimal};

    ghost output = { λ n. Some (decimal n) };

    fn fmt<W: fmt::Write>(&self, f: &mut fmt::Formatter<W>) -> fmt::Result {
        let value = self.value;
        write!(f, "{value}")
    }
}

impl NodeIndexNonMax for NonMaxU16 {
    ghost use Rattle.std.specs.Prelude.{refl};
    ghost use Rattle.std.proofs.Common.{rules};

    ghost number = { λ n. n };

    ghost of_number = { λ n. n };

    ghost limit = { 65535 };

    fn to_usize(self) -> usize {
        self.value as usize
    }

    ghost of_its_number = { λ x. refl };

    ghost equal_numbers = { Prim.search rules };
}

impl NodeIndex for u16 {
    ghost use Rattle.std.specs.Prelude.{refl};
    ghost use Rattle.std.proofs.Common.{lit≤};

    type NonMax = NonMaxU16;

    ghost MAX = { 65535 };

    ghost number = { λ n. n };

    const MAX: u32 = 65535;

    fn from_u32(val: u32) -> Self
        ensures { result ≡ val % 65536 }
    {
        (val % 65536) as u16
    }

    fn to_usize(self) -> usize {
        self as usize
    }

    fn to_nonmax(self) -> Option<NonMaxU16> {
        NonMaxU16::new(self)
    }

    fn to_name(self) -> NonMaxU16 {
        NonMaxU16 { value: self }
    }

    fn of_nonmax(n: NonMaxU16) -> Self {
        n.get()
    }

    ghost at_least_four = { lit≤ tt };

    ghost at_most_a_word = { lit≤ tt };

    ghost limit_of_names = { refl };
}

//! Sizes, places and alignments in bytes, as units of a space. It only computes.
ghost use Rattle.std.specs.Prelude.{◌≡◌, ◌↔◌, ◌+◌, ◌*◌, ◌%◌, ◌<◌, ◌≤◌, ◌⊎◌, ℕ, IfSome, None};

/// How units of a space are bytes of something larger: each unit has `unit` bytes, and the first one begins at
/// the address `base`. So a space with fewer than 2^32 units can stand for addresses of 64 bits, as those of a
/// device, or for a heap of more than 4 GiB.
///
/// Ranges that have no unit in common have no byte in common. Each call takes any numbers; with a unit of 0
/// bytes all but `bytes_of` and `address_of` return `None`.
///
/// ```
/// let scale = Scale { base: 1 << 40, unit: 256 };
/// let mesh = space.allocate(scale.units_of(1000).unwrap()).unwrap();
/// assert_eq!(scale.address_of(mesh.offset), Some(1 << 40));
/// assert_eq!(scale.offset_at((1 << 40) + 1023), Some(3));
/// ```
#[derive(Clone, Copy, PartialEq, Debug)]
pub struct Scale {
    /// The address of the first unit.
    pub base: u64,
    /// The bytes of a unit.
    pub unit: u64,
}

// A number, where it has at most 32 bits.
fn narrow(number: u64) -> Option<u32>
    ensures some { IfSome result (λ n. n ≡ number) }
    ensures none { result ≡ None ↔ (4294967295 < number) }
{
    if number > u32::MAX as u64 {
        None
    } else {
        Some(number as u32)
    }
}

impl Scale {
    /// Returns the fewest units that hold `bytes` bytes, or `None` if more than 4294967295 are needed.
    ///
    /// ```
    /// let scale = Scale { base: 0, unit: 256 };
    /// assert_eq!((scale.units_of(0), scale.units_of(256), scale.units_of(257)), (Some(0), Some(1), Some(2)));
    /// ```
    pub fn units_of(self, bytes: u64) -> Option<u32>
        ensures enough { IfSome result (λ n. bytes ≤ self.unit * n) }
        ensures fewest { IfSome result (λ n. (k : ℕ) → bytes ≤ self.unit * k → n ≤ k) }
        ensures none { result ≡ None ↔ ((self.unit ≡ 0) ⊎ (self.unit * 4294967295 < bytes)) }
    {
        if self.unit == 0 {
            return None;
        }
        let whole = bytes / self.unit;
        if bytes % self.unit == 0 {
            return narrow(whole);
        }
        narrow(whole.saturating_add(1))
    }

    /// Returns the bytes of `units` units, or `None` if they need more than 64 bits.
    ///
    /// ```
    /// let scale = Scale { base: 0, unit: 256 };
    /// assert_eq!(scale.bytes_of(3), Some(768));
    /// ```
    pub fn bytes_of(self, units: u32) -> Option<u64>
        ensures some { IfSome result (λ n. n ≡ self.unit * units) }
        ensures none { result ≡ None ↔ (18446744073709551615 < self.unit * units) }
    {
        self.unit.checked_mul(units as u64)
    }

    /// Returns the address at which the unit at `offset` begins, or `None` if it needs more than 64 bits.
    ///
    /// ```
    /// let scale = Scale { base: 4096, unit: 256 };
    /// assert_eq!(scale.address_of(3), Some(4864));
    /// ```
    pub fn address_of(self, offset: u32) -> Option<u64>
        ensures some { IfSome result (λ n. n ≡ self.base + self.unit * offset) }
        ensures none { result ≡ None ↔ (18446744073709551615 < self.base + self.unit * offset) }
    {
        let bytes = self.unit.checked_mul(offset as u64)?;
        self.base.checked_add(bytes)
    }

    /// Returns the offset of the unit that has the byte at `address`, or `None` if the address is before the
    /// first unit, or after the last one that an offset of 32 bits can have.
    ///
    /// ```
    /// let scale = Scale { base: 4096, unit: 256 };
    /// assert_eq!((scale.offset_at(5119), scale.offset_at(5120)), (Some(3), Some(4)));
    /// assert_eq!(scale.offset_at(4095), None);
    /// ```
    pub fn offset_at(self, address: u64) -> Option<u32>
        ensures there { IfSome result (λ o. (self.base + self.unit * o ≤ address)
            × (address < self.base + self.unit * (o + 1))) }
        ensures none { result ≡ None ↔ ((self.unit ≡ 0) ⊎ (address < self.base)
            ⊎ (self.base + self.unit * 4294967296 ≤ address)) }
    {
        if self.unit == 0 || address < self.base {
            return None;
        }
        narrow((address - self.base) / self.unit)
    }

    /// Returns the alignment in units: the offsets that are its multiples are exactly those whose addresses
    /// are multiples of `bytes`. `None` is returned if `bytes` is 0, if the base is not a multiple of `bytes`,
    /// if neither of `bytes` and `unit` is a multiple of the other, and if the alignment would be above
    /// 4294967295.
    ///
    /// ```
    /// let scale = Scale { base: 1 << 40, unit: 256 };
    /// assert_eq!((scale.align_of(16), scale.align_of(65_536)), (Some(1), Some(256)));
    /// assert_eq!(scale.align_of(768), None); // the base is no multiple of it
    /// ```
    pub fn align_of(self, bytes: u64) -> Option<u32>
        ensures some { IfSome result (λ a. 1 ≤ a) }
        ensures exact { IfSome result (λ a. (o : ℕ) → ((self.base + self.unit * o) % bytes ≡ 0)
            ↔ (o % a ≡ 0)) }
        ensures none { result ≡ None ↔ ((self.unit ≡ 0) ⊎ (bytes ≡ 0) ⊎ (1 ≤ self.base % bytes)
            ⊎ ((1 ≤ self.unit % bytes) × ((1 ≤ bytes % self.unit) ⊎ (self.unit * 4294967295 < bytes)))) }
    {
        if self.unit == 0 || bytes == 0 {
            return None;
        }
        if self.base % bytes != 0 {
            return None;
        }
        if self.unit % bytes == 0 {
            return Some(1);
        }
        if bytes % self.unit != 0 {
            return None;
        }
        narrow(bytes / self.unit)
    }
}

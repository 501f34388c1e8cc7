//! Size classes: sizes to classes and back, as a small float of 5 bits of exponent and 3 of mantissa. Each
//! size up to 15 is a class of its own (those below 8 without an exponent); from there on the 256 classes
//! rise in steps of at most an eighth. It touches no table.

ghost use Rattle.std.specs.Prelude.{◌≡◌, ◌<◌, ◌≤◌, ◌%◌, ◌^◌, ◌*◌, ◌-◌, ◌↔◌, ℕ};
ghost use Rattle.offset_allocator.specs.Classes.{value, up, down, IsExponent};

/// How many bits of a class are its mantissa.
pub const MANTISSA_BITS: u32 = 3;
/// One more than the largest mantissa: sizes below it are classes of their own.
pub const MANTISSA_VALUE: u32 = 8;
/// The bits of the mantissa.
pub const MANTISSA_MASK: u32 = 7;

/// The smallest class whose value is at least `size` units. For a size above 4026531840 it is 240, a class
/// that no block has.
///
/// ```
/// let class = small_float::uint_to_float_round_up(1000);
/// assert_eq!(small_float::float_to_uint(class), 1024);
/// ```
#[inline]
pub fn uint_to_float_round_up(size: u32) -> u32
    ensures is { result ≡ up size }
    ensures smallest { (c : ℕ) → ((result ≤ c) ↔ (size ≤ value c)) }
    ensures waste { 8 * (value result - size) ≤ size }
{
    if size <= MANTISSA_VALUE {
        return size;
    }
    // the class after the last one whose value is too small
    class_of(size - 1, size.ilog2()) + 1
}

/// The largest class whose value is at most `size` units: the class of a free block of this size. It is at
/// most 239.
///
/// ```
/// let class = small_float::uint_to_float_round_down(1000);
/// assert_eq!(small_float::float_to_uint(class), 960);
/// ```
#[inline]
pub fn uint_to_float_round_down(size: u32) -> u32
    ensures is { result ≡ down size }
    ensures largest { (c : ℕ) → ((c ≤ result) ↔ (value c ≤ size)) }
{
    // with the exponent of 8 a smaller size is its own class, so no branch is needed
    class_of(size, (size | MANTISSA_VALUE).ilog2())
}

/// The class of a block of `size` units. `exponent` is the place of the leading bit of the size, or of one
/// unit more, or 3 for a size below 8.
fn class_of(size: u32, exponent: u32) -> u32
    requires { IsExponent size exponent }
    ensures is { result ≡ down size }
{
    let start = exponent - MANTISSA_BITS;
    // the leading one of the size carries into the exponent; with the exponent of one unit more nothing
    // carries
    (start << MANTISSA_BITS) + (size >> start)
}

/// The value of a class below 256 in units, of which the low 32 bits are returned: the values of the classes
/// from 240 on are larger.
///
/// ```
/// assert_eq!(small_float::float_to_uint(7), 7);
/// assert_eq!(small_float::float_to_uint(239), 4_026_531_840);
/// ```
pub fn float_to_uint(float_value: u32) -> u32
    requires { float_value < 256 }
    ensures is { result ≡ value float_value % 2 ^ 32 }
    ensures rises { (c : ℕ) → c < float_value → value c < value float_value }
    ensures up_again { up (value float_value) ≡ float_value }
    ensures down_again { down (value float_value) ≡ float_value }
{
    let exponent = float_value >> MANTISSA_BITS;
    let mantissa = float_value & MANTISSA_MASK;
    if exponent == 0 {
        mantissa
    } else {
        (mantissa | MANTISSA_VALUE) << (exponent - 1)
    }
}

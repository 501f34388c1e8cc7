//! The eight age groups of lives, each with a colour and its words in the legend. It only computes.

ghost use Rattle.std.specs.Prelude.{◌≡◌, ◌<◌};
ghost use Rattle.offset_pictures.specs.Shapes.{age_of};

/// The age groups, rising: what the legend says of each. The rectangles of group k, counted from 0, have the
/// class `age` with the number k + 1.
pub const AGES: [&str; 8] = [
    "to 10 calls",
    "to 30",
    "to 100",
    "to 300",
    "to 1,000",
    "to 3,000",
    "to 10,000",
    "longer",
];

/// The age group of a life, by the number of its calls.
pub fn age_of(calls: usize) -> usize
    ensures age { result ≡ age_of calls }
    ensures within { result < 8 }
{
    match calls {
        0..=10 => 0,
        11..=30 => 1,
        31..=100 => 2,
        101..=300 => 3,
        301..=1_000 => 4,
        1_001..=3_000 => 5,
        3_001..=10_000 => 6,
        _ => 7,
    }
}

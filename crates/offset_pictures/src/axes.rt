//! Axes: where a value lies on the picture. It only computes.

ghost use Rattle.std.specs.Prelude.{◌≡◌, ◌+◌, ◌-◌, ◌*◌, ◌^◌, ◌<◌, ◌≤◌};
ghost use Rattle.offset_pictures.specs.Scales.{along, round_step};

/// A tenth of a pixel. Lengths are in hundredths of a pixel.
pub const TENTH: u32 = 10;

/// An axis: the values from 0 to `most`, over `span` hundredths of a pixel. One that runs to the right has 0
/// at its start; one that runs upwards has `most` there, since y counts down from the top of the picture. A
/// value beyond `most` lies where `most` does.
#[derive(Clone, Copy, PartialEq, Debug)]
pub struct Axis {
    /// Where it starts: at its left end, or its upper one.
    pub start: u32,
    /// How long it is.
    pub span: u32,
    /// The largest value that it shows.
    pub most: u32,
    pub ghost positive: { 0 < most },
    pub ghost within: { start + span ≤ 120000 },
}

impl Axis {
    // The distance of a value from the value 0.
    fn length(&self, value: u64) -> u32
        ensures exact { result ≡ along self.now.span self.now.most value }
        ensures within { result ≤ self.now.span }
    {
        let most = u64::from(self.most);
        (value.min(most) * u64::from(self.span) / most) as u32
    }

    /// Where a value lies, if the axis runs to the right.
    pub fn right(&self, value: u64) -> u32
        ensures exact { result ≡ self.now.start + along self.now.span self.now.most value }
        ensures within { result ≤ self.now.start + self.now.span }
        ensures small { self.now.most < 2 ^ 32 }
    {
        self.start + self.length(value)
    }

    /// Where a value lies, if the axis runs upwards.
    pub fn up(&self, value: u64) -> u32
        ensures exact { result
            ≡ self.now.start + self.now.span - along self.now.span self.now.most value }
        ensures within { self.now.start ≤ result }
        ensures below { result ≤ self.now.start + self.now.span }
    {
        self.start + self.span - self.length(value)
    }
}

// The round numbers that 32 bits hold.
const STEPS: [u32; 29] = [
    1,
    2,
    5,
    10,
    20,
    50,
    100,
    200,
    500,
    1_000,
    2_000,
    5_000,
    10_000,
    20_000,
    50_000,
    100_000,
    200_000,
    500_000,
    1_000_000,
    2_000_000,
    5_000_000,
    10_000_000,
    20_000_000,
    50_000_000,
    100_000_000,
    200_000_000,
    500_000_000,
    1_000_000_000,
    2_000_000_000,
];

/// The smallest round number, 1, 2 or 5 with zeros, of which `count` add up to at least `most`.
pub fn round_step(most: u32, count: u8) -> u32
    requires { 3 ≤ count }
    ensures is { result ≡ round_step most count }
    ensures most { most ≤ result * count }
{
    for step in &STEPS {
        if u64::from(*step) * u64::from(count) >= u64::from(most) {
            return *step;
        }
    }
    2_000_000_000
}

//! Random numbers, the same in each run, and a digest of results.

/// Random numbers from a seed, by SplitMix64.
#[derive(Drop)]
pub struct Random {
    state: u64,
}

impl Random {
    /// The numbers of one round of a job.
    pub fn new(seed: u32, round: u32) -> Self {
        Random {
            state: u64::from(seed).wrapping_mul(4_294_967_296) ^ u64::from(round),
        }
    }

    /// The next number.
    pub fn number(&mut self) -> u64 {
        self.state = self.state.wrapping_add(0x9e37_79b9_7f4a_7c15);
        let mixed = (self.state ^ (self.state >> 30)).wrapping_mul(0xbf58_476d_1ce4_e5b9);
        let mixed = (mixed ^ (mixed >> 27)).wrapping_mul(0x94d0_49bb_1331_11eb);
        mixed ^ (mixed >> 31)
    }

    /// A number below `most`, or 0.
    pub fn below(&mut self, most: u32) -> u32 {
        let product = (self.number() >> 32).wrapping_mul(u64::from(most));
        u32::try_from(product >> 32).unwrap_or(0)
    }

    /// The parts that decide one step.
    pub fn draw(&mut self) -> Draw {
        Draw(self.number())
    }

    /// A number from 1 to 2 to the power of `bits`, at most 31, small ones more often. It is always 64 for 0
    /// bits.
    pub fn size(&mut self, bits: u32) -> u32 {
        if bits == 0 {
            return 64;
        }
        let number = self.number();
        let low = u32::try_from(number % 65_536).unwrap_or(0);
        let shift = 32u32.saturating_sub(bits).saturating_add(low % bits);
        let high = u32::try_from(number >> 32).unwrap_or(0);
        high.wrapping_shr(shift).saturating_add(1)
    }
}

/// A random number, whose parts decide one step: one is large, and seven are small.
#[derive(Clone, Copy)]
pub struct Draw(u64);

impl Draw {
    /// The large part, as a number below `most`, or 0.
    pub fn below(self, most: u32) -> u32 {
        let product = (self.0 >> 32).wrapping_mul(u64::from(most));
        u32::try_from(product >> 32).unwrap_or(0)
    }

    /// The large part, as a number below `places`. If the first small part is odd, it is in the first
    /// sixteenth: ranges at these places are freed sooner.
    pub fn place(self, places: u32) -> u32 {
        let among = if self.part(0) % 2 == 0 {
            places
        } else {
            places / 16 + 1
        };
        self.below(among)
    }

    /// The small part of this number, from 0 to 6: a number below 16.
    pub fn part(self, at: u32) -> u64 {
        self.0.wrapping_shr(at.wrapping_mul(4)) % 16
    }
}

/// A digest of numbers in their order.
#[derive(Drop)]
pub struct Digest {
    /// Its value so far.
    pub value: u64,
}

impl Digest {
    /// Adds a number.
    pub fn add(&mut self, number: u64) {
        self.value = (self.value ^ number)
            .wrapping_mul(0x9e37_79b9_7f4a_7c15)
            .rotate_left(29);
    }

    /// Adds the bytes of a text, and their number.
    pub fn add_text(&mut self, text: &[u8]) {
        self.add(text.len() as u64);
        for piece in text.chunks(8) {
            if let [a, b, c, d, e, f, g, h] = piece {
                self.add(u64::from_le_bytes([*a, *b, *c, *d, *e, *f, *g, *h]));
            } else {
                for byte in piece {
                    self.add(u64::from(*byte));
                }
            }
        }
    }
}

//! Random numbers, the same in each run of the tests.

/// Numbers below 32768: the high bits of a linear congruential generator.
#[derive(Drop)]
pub struct Random {
    state: u64,
}

impl Random {
    /// The numbers that follow a state.
    pub fn new(state: u64) -> Self {
        Random { state }
    }

    /// The next number.
    pub fn advance(&mut self) -> u32 {
        let state = self.state.wrapping_mul(1_103_515_245).wrapping_add(12_345) % 2_147_483_648;
        self.state = state;
        (state / 65_536) as u32
    }

    /// The next number, as a place among `places`.
    pub fn place(&mut self, places: usize) -> usize {
        match (self.advance() as usize).checked_rem(places) {
            None => 0,
            Some(place) => place,
        }
    }
}

// Pseudo-random numbers, the same ones for the same seed.
#[derive(Clone, Copy)]
pub(crate) struct Dice {
    state: u64,
}

impl Dice {
    pub(crate) fn new(seed: u32) -> Dice {
        Dice {
            state: u64::from(seed),
        }
    }

    fn roll(&mut self) -> u64 {
        self.state = self.state.wrapping_add(0x9e37_79b9_7f4a_7c15);
        let first = (self.state ^ (self.state >> 30)).wrapping_mul(0xbf58_476d_1ce4_e5b9);
        let second = (first ^ (first >> 27)).wrapping_mul(0x94d0_49bb_1331_11eb);
        second ^ (second >> 31)
    }

    // A number below the bound, or 0 where the bound is 0. The remainder is below it, so the cast keeps it; in `byte` too.
    pub(crate) fn below(&mut self, bound: u16) -> u16 {
        (self.roll() % u64::from(bound.max(1))) as u16
    }

    pub(crate) fn byte(&mut self) -> u8 {
        (self.roll() % 256) as u8
    }

    // True once in so many times, or never where that is 0.
    pub(crate) fn one_in(&mut self, count: u16) -> bool {
        count != 0 && self.below(count) == 0
    }

    // One of these numbers, or 0 where there is none.
    pub(crate) fn one_of(&mut self, choices: &[u16]) -> u16 {
        let count = u16::try_from(choices.len()).unwrap_or(u16::MAX);
        let place = usize::from(self.below(count));
        choices.get(place).copied().unwrap_or(0)
    }
}

/// Numbers that look random and are the same in each run of the program.
#[derive(Drop)]
pub struct Dice {
    state: u32,
}

impl Dice {
    /// Dice that begin at `seed`; at 0 they would throw nothing but 0, so they begin at 1 there.
    pub fn new(seed: u32) -> Dice {
        Dice { state: seed.max(1) }
    }

    /// The next number: a xorshift of 32 bits.
    fn throw(&mut self) -> u32 {
        let mut x = self.state;
        x ^= x << 13;
        x ^= x >> 17;
        x ^= x << 5;
        self.state = x;
        x
    }

    /// A number below `n`, which is not above 256; 0 where `n` is 0.
    pub fn below(&mut self, n: usize) -> usize {
        if n == 0 {
            return 0;
        }
        (self.throw() >> 7) as usize % n
    }

    /// Whether a throw of one in `n` came.
    pub fn one_in(&mut self, n: usize) -> bool {
        self.below(n) == 0
    }

    /// One of `choices`; `other` where there are none.
    pub fn pick<T: Copy>(&mut self, choices: &[T], other: T) -> T {
        let i = self.below(choices.len());
        choices.get(i).copied().unwrap_or(other)
    }
}

ghost use Rattle.std.specs.Prelude.{◌-◌, ◌≤◌};

// Numbers that differ from one to the next without a plain pattern, the same for the same seed.
#[derive(Clone, Copy)]
pub struct Draws {
    state: u64,
}

impl Draws {
    pub fn new(seed: u64) -> Draws {
        Draws { state: seed | 1 }
    }

    fn step(&mut self) -> u64 {
        let mut x = self.state;
        x ^= x << 13;
        x ^= x >> 7;
        x ^= x << 17;
        self.state = x;
        x
    }

    // A number below n, and 0 where n is 0.
    pub fn below(&mut self, n: u32) -> u32
        ensures { result ≤ n - 1 }
    {
        if n == 0 {
            return 0;
        }
        ((self.step() >> 20) % n as u64) as u32
    }

    // Yes, about once in n times.
    pub fn once_in(&mut self, n: u32) -> bool {
        self.below(n) == 0
    }
}

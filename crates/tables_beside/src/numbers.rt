// Numbers that look random and are always the same.
ghost use Rattle.std.specs.Prelude.{◌≡◌};
ghost use Rattle.tables_beside.specs.Drawing.{following, high_bits};

#[derive(Drop)]
pub struct Numbers {
    state: u64,
}

impl Numbers {
    pub fn new(seed: u64) -> Numbers
        ensures { result.state ≡ seed }
    {
        Numbers { state: seed }
    }

    // The high bits of a linear congruence, which are the better ones.
    pub fn next(&mut self) -> u64
        ensures state { self.new.state ≡ following self.old.state }
        ensures value { result ≡ high_bits (following self.old.state) }
    {
        self.state = self
            .state
            .wrapping_mul(6364136223846793005)
            .wrapping_add(1442695040888963407);
        self.state >> 33
    }
}

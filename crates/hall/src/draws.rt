// Numbers that a seed chooses.
ghost use Rattle.std.specs.Prelude.{◌≡◌, ◌+◌, ◌*◌, ◌/◌, ◌%◌, ◌^◌};

// No Iterator, whose next hands out an Option: these numbers never end.
#[derive(Clone, Copy)]
pub struct Draws {
    x: u64,
}

impl Draws {
    pub fn new(seed: u64) -> Draws
        ensures { result.x ≡ seed }
    {
        Draws { x: seed }
    }

    // The next number, of 31 bits.
    pub fn next(&mut self) -> u64
        ensures state { self.new.x ≡ (self.old.x * 6364136223846793005 + 1442695040888963407) % 2 ^ 64 }
        ensures value { result ≡ self.new.x / 2 ^ 33 }
    {
        self.x = self
            .x
            .wrapping_mul(6364136223846793005)
            .wrapping_add(1442695040888963407);
        self.x >> 33
    }
}

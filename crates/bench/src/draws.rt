// Numbers that look random and are the same on every machine.
ghost use Rattle.std.specs.Prelude.{◌≡◌, ◌<◌, ◌*◌, ◌%◌};

const FACTOR: u64 = 48_271;

const MODULUS: u64 = 2_147_483_647;

/// A row of numbers below 2,147,483,647, each 48,271 times the one before it, by that modulus: the
/// "minimal standard" of Park and Miller.
#[derive(Drop)]
pub struct Draws {
    state: u64,

    ghost in_range: { state < 2147483647 },
}

impl Draws {
    /// The row that comes after the number.
    pub fn new(first: u32) -> Draws
        requires { first < 2147483647 }
        ensures { result.state ≡ first }
    {
        Draws {
            state: u64::from(first),
        }
    }

    /// The next number of the row, by the bound.
    pub fn below(&mut self, bound: u32) -> u32
        requires { 0 < bound }
        ensures within { result < bound }
        ensures drawn { result ≡ self.new.state % bound }
        ensures moved { self.new.state ≡ self.old.state * 48271 % 2147483647 }
    {
        self.state = self.state * FACTOR % MODULUS;
        (self.state % u64::from(bound)) as u32
    }
}

// The calls of a port over memory, numbered from 1, of which some fail.
ghost use Rattle.std.specs.Prelude.{◌≡◌, ◌<◌, ◌^◌, ◌+◌, ◌-◌, min};

/// Which calls of a port are to fail, and how many were made. Numbers end at 2^64 - 1, and no call
/// after that fails.
#[derive(Drop)]
pub struct Calls {
    pub fails: Vec<u64>,
    pub made: u64,
    pub ghost counted: { made < 2 ^ 64 },
}

impl Calls {
    ghost use Rattle.sip_ports.specs.Calls.{failed_of, next_fails, one_if};

    /// No call was made.
    pub fn new(fails: Vec<u64>) -> Self
        ensures fails { result.fails ≡ fails }
        ensures made { result.made ≡ 0 }
    {
        Calls { fails, made: 0 }
    }

    /// Counts one more call, and answers whether it fails.
    pub fn next_fails(&mut self) -> bool
        ensures answer { result ≡ next_fails self.old.fails.items self.old.made }
        ensures fails { self.new.fails ≡ self.old.fails }
        ensures made { self.new.made ≡ min (self.old.made + 1) (2 ^ 64 - 1) }
        ensures failed { failed_of self.new.fails.items self.new.made
            ≡ failed_of self.old.fails.items self.old.made + one_if result }
    {
        if self.made == u64::MAX {
            return false;
        }
        self.made += 1;
        self.fails.contains(&self.made)
    }
}

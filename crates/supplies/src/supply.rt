//! The interface of supplies.
ghost use Rattle.std.specs.Prelude.{◌≡◌, ℕ, ◌≤◌};
ghost use Rattle.numbers.specs.Columns.{largest_listed};
ghost use Rattle.supplies.specs.Supplied.{Laws, When};

/// Supplies are counted up to this instant, the last one: a later one counts as this.
pub const LAST_INSTANT: u64 = 1_000_000;

/// The least processor time to be had in so many ticks.
pub trait Supply {
    // what is supplied in so many ticks
    ghost gives: { Self → ℕ → ℕ };

    /// What is supplied in `t` ticks at least.
    fn supplied(&self, t: u64) -> u64
        ensures { result ≡ gives self.now t };

    /// The first instant at which the supply reaches `w`, or none where it never does.
    fn when(&self, w: u64) -> Option<u64>
        ensures { When (gives self.now) w result };

    // what every supply keeps: nothing at first, and 0 or 1 more with each tick
    ghost laws: { (s : Self) → Laws (gives s) };
}

/// A supply that stands on sheets, by its code and two numbers.
pub trait ListedSupply: Supply {
    // the code
    ghost coded: { Self → ℕ };

    // the two numbers
    ghost numbered: { Self → ℕ × ℕ };

    /// The code by which the supply is known on sheets.
    fn code(&self) -> u64
        ensures { result ≡ coded self.now };

    /// The two numbers that stand beside the code.
    fn numbers(&self) -> (u64, u64)
        ensures { result ≡ numbered self.now };

    // the code stands in eight columns
    ghost codes: { (s : Self) → coded s ≤ largest_listed };

    // and so do both numbers
    ghost listed: { (s : Self) → ((numbered s).0 ≤ largest_listed) × ((numbered s).1 ≤ largest_listed) };
}

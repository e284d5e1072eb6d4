//! Why a supply cannot be made.
ghost use Rattle.std.specs.Prelude.{◌≡◌};
ghost use Rattle.supplies.specs.Refusals.{refusal};

/// Why a supply cannot be made.
#[derive(Clone, Copy, PartialEq, Eq, Debug)]
pub enum SupplyFault {
    /// The budget is not from 1 to the period, or the period is longer than 1,000,000.
    Share,
}

impl SupplyFault {
    /// The number that the refusal is known by.
    // A named method and no `From`: the number is part of the format of refusals, and `u64::from` would not say which number it is.
    pub fn number(&self) -> u64
        ensures { result ≡ refusal self.now }
    {
        match self {
            SupplyFault::Share => 9,
        }
    }
}

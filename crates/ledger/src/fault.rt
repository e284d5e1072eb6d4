//! Why a call on a task set is refused.
ghost use Rattle.std.specs.Prelude.{◌≡◌};
ghost use Rattle.ledger.specs.Refusals.{refusal};
ghost use Rattle.ledger.specs.declared.fault.SetFault.TheVariants.{Row};

use loads::RowFault;

/// Why a call on a task set is refused.
#[derive(Clone, Copy, PartialEq, Eq, Debug)]
pub enum SetFault {
    /// There are 32 tasks already.
    Full,
    /// There is no such position.
    Position,
    /// The kind does not allow the row.
    Row(RowFault),
    /// The deadline is not from 1 to the separation.
    Deadline,
    /// There is no such resource.
    Resource,
    /// The section is longer than the task's longest job.
    Length,
    /// No table of ceilings that fits would leave every task an instant.
    Unserved,
}

impl SetFault {
    /// The number that the refusal is known by.
    // A named method and no `From`: the number is part of the format of refusals, and `u64::from` would not say which number it is.
    pub fn number(&self) -> u64
        ensures { result ≡ refusal self.now }
    {
        match self {
            SetFault::Full => 1,
            SetFault::Position => 2,
            SetFault::Row(_) => 3,
            SetFault::Deadline => 4,
            SetFault::Resource => 5,
            SetFault::Length => 6,
            SetFault::Unserved => 8,
        }
    }
}

/// The entry at fault stands inside the set's refusal.
impl From<RowFault> for SetFault {
    ghost from_gives = { λ fault r. r ≡ Row fault };

    fn from(fault: RowFault) -> SetFault {
        SetFault::Row(fault)
    }
}

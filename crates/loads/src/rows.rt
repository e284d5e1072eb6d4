//! Rows of eight numbers, and rules that judge them entry by entry.
ghost use Rattle.std.specs.Prelude.{◌≡◌, ℕ, ◌<◌, Bool, List};
ghost use Rattle.loads.specs.Rows.{Judged, lowest};

/// The largest number that may stand in a lawful row.
pub const LARGEST_ENTRY: u64 = 1_000_000;

/// A task's load, entries 1 to 8; its kind says what they mean.
pub type Row = [u64; 8];

/// An entry of a row that its kind does not allow. `lawful` names the lowest-numbered one, from 1 to 8.
#[derive(Clone, Copy, PartialEq, Eq, Debug)]
pub struct RowFault {
    pub entry: u64,
}

/// A rule that judges a row entry by entry.
pub(crate) trait EntryRule {
    // the entry with this index passes
    ghost passes: { Self → List ℕ → ℕ → Bool };

    /// Whether the entry with this index, from 0, may stand in the row.
    fn allows(&self, row: &Row, index: usize) -> bool
        requires { index < 8 }
        ensures { result ≡ passes self.now row.now index };
}

/// Yes, or the lowest-numbered entry that breaks the rule.
pub(crate) fn judge_entries<R: EntryRule>(rule: &R, row: &Row) -> Result<(), RowFault>
    ensures { Judged (lowest (R.passes rule.now row.now) 8) result }
{
    // a `for`, which is compiled to eight tests: a search by `find` makes the slack of framed tasks take three times as long
    for index in 0..8 {
        if !rule.allows(row, index) {
            return Err(RowFault {
                // `as`: Rust has no `From` of a `usize` for a `u64`
                entry: index as u64 + 1,
            });
        }
    }
    Ok(())
}

//! The table itself, and what it keeps at all times.
ghost use Rattle.std.specs.Prelude.{◌≡◌, ℕ, ◌*◌, ◌≤◌, [], slice_index, slice_index_or};
ghost use Rattle.ledger.specs.Ceilings.{ceiling, natural};
ghost use Rattle.ledger.specs.Ledger.{most_tasks};
ghost use Rattle.table.specs.Flat.{tasks_of};

use ledger::Mark;
use loads::Row;

/// The most tasks that a set can have.
pub(crate) const TASKS: usize = 32;

/// How many resources a set has.
pub const RESOURCES: usize = 16;

/// What was entered of each task and each resource, by their indices from 0, and the ceilings that are held. The sections stand
/// in one flat array, sixteen lengths for each task. The arrays are fixed, as the memory of a table is, with `count` places in use;
/// rows and deadlines stand by themselves, since each is lent as a slice.
#[derive(Clone, Copy)]
pub struct Table {
    pub(crate) count: usize,
    pub(crate) rows: [Row; 32],
    pub(crate) deadlines: [u64; 32],
    pub(crate) sections: [u64; 512],
    pub(crate) marks: [Mark; 16],
    pub(crate) ceilings: [u64; 16],
    // at most 32 tasks
    ghost few: { count ≤ most_tasks },
    // nothing for absent tasks: no row,
    ghost blank: { (k i : ℕ) → count ≤ k → slice_index (slice_index_or rows k []) i ≡ 0 },
    // no deadline,
    ghost undated: { (k : ℕ) → count ≤ k → slice_index deadlines k ≡ 0 },
    // and no section
    ghost unused: { (k : ℕ) → 16 * count ≤ k → slice_index sections k ≡ 0 },
    // held ceilings are at most natural ones
    ghost low: { (j : ℕ) → 1 ≤ j → j ≤ 16 → ceiling ceilings j ≤ natural (tasks_of count rows deadlines sections) j },
}

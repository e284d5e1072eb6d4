//! What is reckoned of a whole table.
ghost use Rattle.table.specs.Tables.{ledger};
ghost use Rattle.taskset.specs.Reckoning.{Settled, Slacks};

use crate::task::TaskAt;
use loads::LoadKind;
use supplies::Supply;
use table::Table;

/// The slacks of all tasks, by their indices.
// Kind, supply and table go together here and in `settle` alone: what is asked of one task is asked of `TaskAt`.
pub(crate) fn slacks<K: LoadKind, S: Supply>(kind: &K, supply: &S, table: &Table) -> [i64; 32]
    ensures { Slacks (K.means kind.now) (S.gives supply.now) (ledger table.now) result }
{
    let mut slacks: [i64; 32] = [0; 32];
    // by index: the first places of a fixed array are filled, one for each task; `from_fn` would have to tell absent tasks apart
    for at in 0..table.count() {
        let task = TaskAt {
            kind,
            supply,
            table,
            at,
        };
        slacks[at] = task.slack();
    }
    slacks
}

/// Settles every ceiling of a table afresh.
pub(crate) fn settle<K: LoadKind, S: Supply>(kind: &K, supply: &S, table: &mut Table)
    ensures { Settled (K.means kind.now) (S.gives supply.now) table.old table.new }
{
    let slacks = slacks(kind, supply, table);
    table.settle(&slacks);
}

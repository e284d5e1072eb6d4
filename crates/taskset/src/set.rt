//! A task set.
ghost use Rattle.std.specs.Prelude.{◌≡◌, []};
ghost use Rattle.taskset.specs.Standing.{Stands, LeftByEdits};

use loads::LoadKind;
use supplies::Supply;
use table::Table;

/// The tasks of one load kind on one supply, the resources that they use, and the ceilings that are held.
#[derive(Drop)]
pub struct TaskSet<K: LoadKind, S: Supply> {
    pub(crate) kind: K,
    pub(crate) supply: S,
    pub(crate) table: Table,
    // some history of edits has left the table
    ghost left: { ∥ LeftByEdits (K.means kind) (S.gives supply) table ∥₁ },
}

impl<K: LoadKind, S: Supply> TaskSet<K, S> {
    /// A set with no task, and every resource lowered.
    pub fn new(kind: K, supply: S) -> Self
        ensures kind { result.kind ≡ kind }
        ensures supply { result.supply ≡ supply }
        ensures stands { Stands (K.means kind) (S.gives supply) [] [] result.table }
    {
        let table = Table::new();
        TaskSet {
            kind,
            supply,
            table,
        }
    }
}

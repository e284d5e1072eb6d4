//! One task of a table: its longest job, its slack, its first instants, and how long it may hold a resource.
ghost use Rattle.std.specs.Prelude.{◌≡◌, ◌+◌, ◌<◌, ◌≤◌, length, take, slice_index_or};
ghost use Rattle.ledger.specs.Instants.{job, slack, covered_with, held_for};
ghost use Rattle.ledger.specs.Ledger.{no_task, rows, task};
ghost use Rattle.table.specs.Tables.{ledger, held};

use analysis::Level;
use loads::LoadKind;
use supplies::{LAST_INSTANT, Supply};
use table::Table;

/// The task with an index, in a table whose rows mean what a kind says, on a supply.
#[derive(Drop)]
pub(crate) struct TaskAt<'a, K, S> {
    pub(crate) kind: &'a K,
    pub(crate) supply: &'a S,
    pub(crate) table: &'a Table,
    pub(crate) at: usize,
    // there is such a task
    ghost there: { at < length (ledger table.now).tasks },
}

impl<'a, K: LoadKind, S: Supply> TaskAt<'a, K, S> {
    /// The level of priority below the first `above` tasks.
    fn level(&self, above: usize) -> Level<'a, K, S>
        requires { above ≤ length (ledger self.now.table.now).tasks }
        ensures kind { result.kind.now ≡ self.now.kind.now }
        ensures supply { result.supply.now ≡ self.now.supply.now }
        ensures above { result.above.now ≡ take above (rows (ledger self.now.table.now)) }
        ensures few { length result.above.now ≤ 32 }
    {
        Level {
            kind: self.kind,
            supply: self.supply,
            above: &self.table.rows()[..above],
        }
    }

    /// Its longest job.
    pub(crate) fn longest(&self) -> u64
        ensures { result ≡ job (K.means self.now.kind.now) (ledger self.now.table.now) (self.now.at + 1) }
    {
        self.kind.longest(&self.table.rows()[self.at])
    }

    /// Its deadline.
    fn deadline(&self) -> u64
        ensures { result ≡ (task (ledger self.now.table.now) (self.now.at + 1)).deadline }
    {
        self.table.deadlines()[self.at]
    }

    /// Its slack.
    pub(crate) fn slack(&self) -> i64
        ensures { result ≡ slack (K.means self.now.kind.now) (S.gives self.now.supply.now) (ledger self.now.table.now) (self.now.at + 1) }
    {
        // `as`: the slack of one of at most 32 tasks is proved to fit, where `try_from` would have to be asked
        self.level(self.at).slack(self.longest(), self.deadline()) as i64
    }

    /// Its first instant with a blocking, none where it has none by its deadline.
    pub(crate) fn first_instant(&self, blocking: u64) -> Option<u64>
        ensures { result ≡ covered_with (K.means self.now.kind.now) (S.gives self.now.supply.now) (ledger self.now.table.now) (self.now.at + 1) blocking }
    {
        let base = self.longest().saturating_add(blocking);
        self.level(self.at).first_instant(base, self.deadline())
    }

    /// How long it may hold a resource, by its index, under the held ceilings; 0 where it does not use it.
    pub(crate) fn held_for(&self, j: usize) -> u64
        ensures { result ≡ held_for (K.means self.now.kind.now) (S.gives self.now.supply.now) (ledger self.now.table.now) (held self.now.table.now) (j + 1) (slice_index_or (ledger self.now.table.now).tasks self.now.at no_task) }
    {
        let length = self.table.length(self.at, j);
        if length == 0 {
            // no time, as hold times count it: the task has no section to be through with
            return 0;
        }
        // `as`: Rust has no `From` of a `u64` for a `usize`
        let above = (self.table.ceiling(j) as usize).saturating_sub(1);
        self.level(above)
            .first_instant(length, LAST_INSTANT)
            .unwrap_or(0)
    }
}

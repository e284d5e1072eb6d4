//! The figures of a task set: what is to be said of each task and each resource.
ghost use Rattle.std.specs.Prelude.{◌≡◌, ◌+◌, ◌<◌, length, slice_index_or};
ghost use Rattle.ledger.specs.Ledger.{no_task};
ghost use Rattle.table.specs.Tables.{ledger};
ghost use Rattle.taskset.specs.Figures.{At, TaskAnswer, ResourceAnswer, held_by, hold_of};

use crate::set::TaskSet;
use crate::task::TaskAt;
use ledger::SetFault;
use loads::LoadKind;
use supplies::Supply;
use table::{RESOURCES, index_of};

impl<K: LoadKind, S: Supply> TaskSet<K, S> {
    /// How many tasks there are.
    pub fn count(&self) -> usize
        ensures { result ≡ length (ledger self.now.table).tasks }
    {
        self.table.count()
    }

    /// The task at a position.
    pub(crate) fn at(&self, position: u64) -> Result<TaskAt<'_, K, S>, SetFault>
        ensures { At K.LoadKind S.Supply self.now position result }
    {
        let at = index_of(position, self.table.count()).ok_or(SetFault::Position)?;
        Ok(TaskAt {
            kind: &self.kind,
            supply: &self.supply,
            table: &self.table,
            at,
        })
    }

    /// What there is to say of the task at a position: its blocking, its slack and its first instant, 0 where it has none.
    pub fn task(&self, position: u64) -> Result<(u64, i64, u64), SetFault>
        ensures { TaskAnswer K.LoadKind S.Supply self.now position result }
    {
        let task = self.at(position)?;
        let blocking = self.table.blocking(task.at + 1);
        // 0 is what the figures of a set say where there is none
        let first = task.first_instant(blocking).unwrap_or(0);
        Ok((blocking, task.slack(), first))
    }

    /// How long the task with an index may hold a resource, by its index; 0 where it does not use it.
    fn held_for(&self, at: usize, j: usize) -> u64
        requires { at < length (ledger self.now.table).tasks }
        ensures { result ≡ held_by K.LoadKind S.Supply self.now (j + 1) (slice_index_or (ledger self.now.table).tasks at no_task) }
    {
        // by its parts, as in `at`: behind a call a proof would not see whose task it is
        let task = TaskAt {
            kind: &self.kind,
            supply: &self.supply,
            table: &self.table,
            at,
        };
        task.held_for(j)
    }

    /// The hold time of a resource by its index.
    fn hold(&self, j: usize) -> u64
        ensures { result ≡ hold_of K.LoadKind S.Supply self.now (j + 1) }
    {
        // `fold`: `max` takes a first step and then loops, two calls of the step, neither of them inlined
        (0..self.table.count()).fold(0, |longest: u64, at| longest.max(self.held_for(at, j)))
    }

    /// What there is to say of a resource: its natural ceiling, its held ceiling and its hold time.
    pub fn resource(&self, resource: u64) -> Result<(u64, u64, u64), SetFault>
        ensures { ResourceAnswer K.LoadKind S.Supply self.now resource result }
    {
        let j = index_of(resource, RESOURCES).ok_or(SetFault::Resource)?;
        Ok((self.table.natural(j), self.table.ceiling(j), self.hold(j)))
    }
}

//! What stands in a table.
ghost use Rattle.std.specs.Prelude.{◌≡◌, ◌+◌, ◌≤◌, length};
ghost use Rattle.ledger.specs.Ceilings.{ceiling, natural};
ghost use Rattle.ledger.specs.Ledger.{rows, most_tasks};
ghost use Rattle.table.specs.Tables.{ledger, held, deadlines, length_at};

use crate::table::{RESOURCES, Table};
use loads::Row;

// `few` stands at each of the three: a caller of one does not ask the others; `rows` and `deadlines` lend two fields of two types
#[tactic(auto, using(crate::proofs::FlatTasks::standing))]
impl Table {
    /// How many tasks there are.
    pub fn count(&self) -> usize
        ensures is { result ≡ length (ledger self.now).tasks }
        ensures few { result ≤ most_tasks }
        ensures kept { result ≡ self.now.count }
    {
        self.count
    }

    /// The rows of the tasks, by position.
    pub fn rows(&self) -> &[Row]
        ensures is { result.now ≡ rows (ledger self.now) }
        ensures each { length result.now ≡ length (ledger self.now).tasks }
        ensures few { length result.now ≤ most_tasks }
    {
        &self.rows[..self.count]
    }

    /// The deadlines of the tasks, by position.
    pub fn deadlines(&self) -> &[u64]
        ensures is { result.now ≡ deadlines (ledger self.now) }
        ensures each { length result.now ≡ length (ledger self.now).tasks }
        ensures few { length result.now ≤ most_tasks }
    {
        &self.deadlines[..self.count]
    }

    /// The longest section of a task on a resource, by their indices; 0 where there is no such task or resource.
    pub fn length(&self, at: usize, j: usize) -> u64
        ensures { result ≡ length_at (ledger self.now).tasks at j }
    {
        // An `if`: by `get`, a resource past the last would be one of the next task.
        if at < self.count && j < RESOURCES {
            self.sections[16 * at + j]
        } else {
            0
        }
    }

    /// The held ceiling of a resource by its index, 0 where there is no such resource.
    pub fn ceiling(&self, j: usize) -> u64
        ensures is { result ≡ ceiling (held self.now) (j + 1) }
        ensures low { result ≤ natural (ledger self.now).tasks (j + 1) }
    {
        self.ceilings.get(j).copied().unwrap_or(0)
    }
}

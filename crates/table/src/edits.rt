//! The four edits of a table. It asks only its own questions: is there room, and are the position and the resource there? An edit
//! that is taken leaves every ceiling at 0, which is at most the natural one, until they are settled.
ghost use Rattle.ledger.specs.History.{Entered};
ghost use Rattle.ledger.specs.declared.edit.Edit.TheVariants.{Insert, Withdraw, Section};
ghost use Rattle.ledger.specs.declared.edit.Edit.TheVariants.{Mark as Marked};
ghost use Rattle.table.specs.Tables.{ledger, Unsettled};

use crate::index::index_of;
use crate::shifts::{enter, remove};
use crate::table::{RESOURCES, TASKS, Table};
use ledger::{Mark, SetFault};
use loads::Row;

// `Unsettled` is the one name for what each of the four leaves of a table
impl Table {
    /// Puts a task in at a position; later tasks move down. All ceilings are then to be settled.
    #[tactic(auto, using(crate::proofs::FlatTasks::inserting))]
    pub fn insert(&mut self, position: u64, row: Row, deadline: u64) -> Result<(), SetFault>
        ensures entered { Entered (ledger self.old) (Insert position row deadline) result (ledger self.new) }
        ensures unsettled { Unsettled result self.old self.new }
    {
        let count = self.count();
        if count >= TASKS {
            return Err(SetFault::Full);
        }
        let at = index_of(position, count + 1).ok_or(SetFault::Position)?;
        enter(&mut self.rows[at..count + 1], &[row]);
        enter(&mut self.deadlines[at..count + 1], &[deadline]);
        enter(&mut self.sections[16 * at..16 * count + 16], &[0; 16]);
        self.count = count + 1;
        self.ceilings = [0; 16];
        Ok(())
    }

    /// Takes the task at a position out; later tasks move up. All ceilings are then to be settled.
    #[tactic(auto, using(crate::proofs::FlatTasks::withdrawing))]
    pub fn withdraw(&mut self, position: u64) -> Result<(), SetFault>
        ensures entered { Entered (ledger self.old) (Withdraw position) result (ledger self.new) }
        ensures unsettled { Unsettled result self.old self.new }
    {
        let count = self.count();
        let at = index_of(position, count).ok_or(SetFault::Position)?;
        remove(&mut self.rows[at..count], &[[0; 8]]);
        remove(&mut self.deadlines[at..count], &[0]);
        remove(&mut self.sections[16 * at..16 * count], &[0; 16]);
        self.count = count - 1;
        self.ceilings = [0; 16];
        Ok(())
    }

    /// Sets the longest section of a task on a resource, 0 for no use. All ceilings are then to be settled.
    #[tactic(auto, using(crate::proofs::FlatTasks::sections))]
    pub fn section(&mut self, position: u64, resource: u64, length: u64) -> Result<(), SetFault>
        ensures entered { Entered (ledger self.old) (Section position resource length) result (ledger self.new) }
        ensures unsettled { Unsettled result self.old self.new }
    {
        let at = index_of(position, self.count()).ok_or(SetFault::Position)?;
        let j = index_of(resource, RESOURCES).ok_or(SetFault::Resource)?;
        self.sections[16 * at + j] = length;
        self.ceilings = [0; 16];
        Ok(())
    }

    /// Marks a resource. All ceilings are then to be settled.
    pub fn mark(&mut self, resource: u64, mark: Mark) -> Result<(), SetFault>
        ensures entered { Entered (ledger self.old) (Marked resource mark) result (ledger self.new) }
        ensures unsettled { Unsettled result self.old self.new }
    {
        let j = index_of(resource, RESOURCES).ok_or(SetFault::Resource)?;
        self.marks[j] = mark;
        self.ceilings = [0; 16];
        Ok(())
    }
}

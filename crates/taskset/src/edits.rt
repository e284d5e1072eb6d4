//! The four edits of a task set. Each asks its questions in order; at the first no it refuses and leaves the set untouched.
ghost use Rattle.std.specs.Prelude.{◌≡◌};
ghost use Rattle.ledger.specs.declared.edit.Edit.TheVariants.{Insert, Withdraw, Section};
ghost use Rattle.ledger.specs.declared.edit.Edit.TheVariants.{Mark as Marked};
ghost use Rattle.taskset.specs.Reckoning.{Served};
ghost use Rattle.taskset.specs.Sets.{Edited};

use crate::reckoning::{settle, slacks};
use crate::set::TaskSet;
use ledger::{Edit, Mark, SetFault};
use loads::{LoadKind, Row};
use supplies::Supply;
use table::{Table, from_one_to};

impl<K: LoadKind, S: Supply> TaskSet<K, S> {
    /// Settles every ceiling of an edited table afresh, if some table of ceilings fits and leaves every task an instant.
    // in place: a table is large, and an answer that holds one is copied and blanked at every edit
    fn serve(&self, edited: &mut Table) -> Result<(), SetFault>
        ensures { Served (K.means self.now.kind) (S.gives self.now.supply) edited.old result edited.new }
    {
        let slacks = slacks(&self.kind, &self.supply, edited);
        if !edited.bearable(&slacks) {
            return Err(SetFault::Unserved);
        }
        edited.settle(&slacks);
        Ok(())
    }

    /// Puts a task in at a position; later tasks move down, and the new task uses no resource.
    pub fn insert(&mut self, position: u64, row: Row, deadline: u64) -> Result<(), SetFault>
        ensures { Edited K.LoadKind S.Supply (Insert position row deadline) result self.old self.new }
    {
        let mut edited = self.table;
        edited.insert(position, row, deadline)?;
        self.kind.lawful(&row)?;
        if !from_one_to(deadline, self.kind.separation(&row)) {
            return Err(SetFault::Deadline);
        }
        self.serve(&mut edited)?;
        self.table = edited;
        Ok(())
    }

    /// Takes the task at a position out; later tasks move up.
    pub fn withdraw(&mut self, position: u64) -> Result<(), SetFault>
        ensures { Edited K.LoadKind S.Supply (Withdraw position) result self.old self.new }
    {
        self.table.withdraw(position)?;
        settle(&self.kind, &self.supply, &mut self.table);
        Ok(())
    }

    /// Sets the longest section of a task on a resource, 0 for no use.
    pub fn section(&mut self, position: u64, resource: u64, length: u64) -> Result<(), SetFault>
        ensures { Edited K.LoadKind S.Supply (Section position resource length) result self.old self.new }
    {
        let longest = self.at(position)?.longest();
        let mut edited = self.table;
        edited.section(position, resource, length)?;
        if length > longest {
            return Err(SetFault::Length);
        }
        self.serve(&mut edited)?;
        self.table = edited;
        Ok(())
    }

    /// Marks a resource.
    pub fn mark(&mut self, resource: u64, mark: Mark) -> Result<(), SetFault>
        ensures { Edited K.LoadKind S.Supply (Marked resource mark) result self.old self.new }
    {
        self.table.mark(resource, mark)?;
        settle(&self.kind, &self.supply, &mut self.table);
        Ok(())
    }

    /// Makes one edit.
    pub fn edit(&mut self, edit: Edit) -> Result<(), SetFault>
        ensures { Edited K.LoadKind S.Supply edit result self.old self.new }
    {
        // a switch over data, which lists of edits hold; each arm is a method of its own
        match edit {
            Edit::Insert {
                position,
                row,
                deadline,
            } => self.insert(position, row, deadline),
            Edit::Withdraw { position } => self.withdraw(position),
            Edit::Section {
                position,
                resource,
                length,
            } => self.section(position, resource, length),
            Edit::Mark { resource, mark } => self.mark(resource, mark),
        }
    }
}

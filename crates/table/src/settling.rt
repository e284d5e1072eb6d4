//! Ceilings settled anew: each resource by itself, as low as the slack of the tasks allows.
ghost use Rattle.std.specs.Prelude.{◌≡◌, ◌+◌, ◌<◌, ◌≤◌, ◌↔◌, length, pos, IsTrue, int_le, slice_index_or};
ghost use Rattle.ledger.specs.Ceilings.{natural};
ghost use Rattle.ledger.specs.Settled.{slack_at, lower, settled, bears, lowest_table, NaturallyBorne};
ghost use Rattle.table.specs.Tables.{ledger, held};

use crate::table::Table;
use ledger::Mark;

/// A table whose ceilings are settled, with the slacks of its tasks by their indices.
#[derive(Clone, Copy)]
struct Settling<'a> {
    table: &'a Table,
    slacks: &'a [i64; 32],
}

impl Settling<'_> {
    /// Whether the task with an index can wait for a section.
    fn bears(&self, at: usize, section: u64) -> bool
        requires { at < 32 }
        ensures { result ≡ int_le (pos section) (slice_index_or self.now.slacks.now at (pos 0)) }
    {
        // `as`, of a number that is not negative: compared as `i128`, a table of three tasks takes half as long again to settle
        let slack = self.slacks[at];
        slack >= 0 && section <= slack as u64
    }

    /// The ceiling of a resource, by its index, lowered from a position past one after another, up to the first that cannot bear it.
    #[tactic(auto, using(crate::proofs::Bearings::lowering))]
    fn lowered(&self, j: usize, from: u64) -> u64
        requires { from ≤ length (ledger self.now.table.now).tasks }
        ensures { result ≡ lower (bears (slack_at self.now.slacks.now) (ledger self.now.table.now) (j + 1)) from }
    {
        // A `while`: the number that it stops at is the answer; a search through a range would find nothing where every position bears.
        // `as` before and after it, since there is no `From`.
        let mut ceiling = from as usize;
        while ceiling > 1 && self.bears(ceiling - 2, self.table.longest_below(ceiling - 1, j)) {
            ceiling -= 1;
        }
        ceiling as u64
    }

    /// The lowest ceiling of a resource by its index, with this mark.
    #[tactic(auto, using(ledger::proofs::Natural::natural_within))]
    fn lowest(&self, j: usize, mark: Mark) -> u64
        ensures { result ≡ settled mark (bears (slack_at self.now.slacks.now) (ledger self.now.table.now) (j + 1)) (natural (ledger self.now.table.now).tasks (j + 1)) }
    {
        let natural = self.table.natural(j);
        match mark {
            Mark::Kept => natural,
            Mark::Lowered => self.lowered(j, natural),
        }
    }

    /// The lowest ceilings of all resources, each settled by itself.
    #[tactic(auto, using(crate::proofs::Bearings::filling))]
    fn lowest_ceilings(&self) -> [u64; 16]
        ensures { result ≡ lowest_table (slack_at self.now.slacks.now) (ledger self.now.table.now) }
    {
        // A `for` over the resources with their index, as settling is laid down: each by itself, under its own mark.
        let mut ceilings = [0; 16];
        for (j, mark) in self.table.marks.iter().enumerate() {
            ceilings[j] = self.lowest(j, *mark);
        }
        ceilings
    }

    /// Whether every position can bear its blocking under the natural ceilings.
    fn bearable(&self) -> bool
        ensures { IsTrue result ↔ NaturallyBorne (slack_at self.now.slacks.now) (ledger self.now.table.now) }
    {
        let ceilings = self.table.natural_ceilings();
        (0..self.table.count()).all(|at| {
            let blocking = self.table.blocking_under(&ceilings, at + 1);
            self.bears(at, blocking)
        })
    }
}

// Callers hold a table and slacks apart: these two are the way in to `Settling`.
impl Table {
    /// Settles every ceiling afresh, as low as the slacks of the tasks, by their indices, allow.
    #[tactic(auto, using(ledger::proofs::Lowest::lowest_natural))]
    pub fn settle(&mut self, slacks: &[i64; 32])
        ensures ledger { ledger self.new ≡ ledger self.old }
        ensures held { held self.new ≡ lowest_table (slack_at slacks.now) (ledger self.old) }
    {
        let settling = Settling {
            table: self,
            slacks,
        };
        self.ceilings = settling.lowest_ceilings();
    }

    /// Whether every position can bear its blocking under the natural ceilings, with these slacks of the tasks by their indices.
    pub fn bearable(&self, slacks: &[i64; 32]) -> bool
        ensures { IsTrue result ↔ NaturallyBorne (slack_at slacks.now) (ledger self.now) }
    {
        let settling = Settling {
            table: self,
            slacks,
        };
        settling.bearable()
    }
}

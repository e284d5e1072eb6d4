//! Natural ceilings and blocking, from the sections of a table.
ghost use Rattle.std.specs.Prelude.{◌≡◌, ◌+◌, slice_index_or};
ghost use Rattle.ledger.specs.Ceilings.{natural, natural_table, longest_below, obstacle, blocking};
ghost use Rattle.ledger.specs.Ledger.{no_task};
ghost use Rattle.table.specs.Tables.{ledger, held};

use crate::table::{RESOURCES, Table};

impl Table {
    /// The natural ceiling of a resource by its index: the smallest position that uses it, 0 where none does.
    pub fn natural(&self, j: usize) -> u64
        ensures { result ≡ natural (ledger self.now).tasks (j + 1) }
    {
        (0..self.count())
            .find(|at| self.length(*at, j) > 0)
            // 0 is no position in a table of ceilings; `as`, since there is no `From`
            .map_or(0, |at| at as u64 + 1)
    }

    /// The natural ceilings of all resources.
    pub(crate) fn natural_ceilings(&self) -> [u64; 16]
        ensures { result ≡ natural_table (ledger self.now) }
    {
        std::array::from_fn(|j| self.natural(j))
    }

    /// The longest section on a resource, by its index, of the tasks below a position.
    // the chain of `blocking_under` too: a function for both would take a range and a closure, and be as long
    pub(crate) fn longest_below(&self, position: usize, j: usize) -> u64
        ensures { result ≡ longest_below (ledger self.now) (j + 1) position }
    {
        // `fold`: `max` takes a first step and then loops, two calls of the step, neither of them inlined
        (position..self.count()).fold(0, |longest: u64, at| longest.max(self.length(at, j)))
    }

    /// The longest section of a task, by its index, that can block a position under the ceilings.
    // Ceilings and position go together through two functions: a struct for them would be longer than what it saves.
    fn obstacle(&self, at: usize, ceilings: &[u64; 16], position: usize) -> u64
        ensures { result ≡ obstacle ceilings.now position (slice_index_or (ledger self.now).tasks at no_task) }
    {
        (0..RESOURCES)
            // `as`, since there is no `From`
            .filter(|j| (1..=position as u64).contains(&ceilings[*j]))
            // `fold`, as in `longest_below`
            .fold(0, |longest: u64, j| longest.max(self.length(at, j)))
    }

    /// The blocking of a position under the ceilings.
    pub(crate) fn blocking_under(&self, ceilings: &[u64; 16], position: usize) -> u64
        ensures { result ≡ blocking (ledger self.now) ceilings.now position }
    {
        // `fold`, as in `longest_below`
        (position..self.count()).fold(
            0,
            |longest: u64, at| longest.max(self.obstacle(at, ceilings, position)),
        )
    }

    /// The blocking of a position under the ceilings that are held.
    pub fn blocking(&self, position: usize) -> u64
        ensures { result ≡ blocking (ledger self.now) (held self.now) position }
    {
        self.blocking_under(&self.ceilings, position)
    }
}

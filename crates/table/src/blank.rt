//! A table with nothing in it.
ghost use Rattle.std.specs.Prelude.{◌≡◌, replicate};
ghost use Rattle.ledger.specs.Ledger.{empty};
ghost use Rattle.table.specs.Tables.{ledger, held};

use crate::table::Table;
use ledger::Mark;
use loads::Row;

/// No section for any of 32 tasks on any of sixteen resources.
fn no_sections() -> [u64; 512]
    ensures { result ≡ replicate 512 0 }
{
    [0; 512]
}

/// No row for any of 32 tasks.
fn no_rows() -> [Row; 32]
    ensures { result ≡ replicate 32 (replicate 8 0) }
{
    [[0; 8]; 32]
}

impl Table {
    /// No task, and every resource lowered.
    pub fn new() -> Self
        ensures ledger { ledger result ≡ empty }
        ensures ceilings { held result ≡ replicate 16 0 }
    {
        Table {
            count: 0,
            rows: no_rows(),
            deadlines: [0; 32],
            sections: no_sections(),
            marks: [Mark::Lowered; 16],
            ceilings: [0; 16],
        }
    }
}

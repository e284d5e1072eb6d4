//! The plain kind: jobs of at most C ticks, at least T ticks apart.
ghost use Rattle.std.specs.Prelude.{◌≡◌};
ghost use Rattle.loads.specs.Codes.{plain_code};
ghost use Rattle.loads.specs.Plain.{plain_entry, plain_formulas};
ghost use Rattle.loads.specs.LawProofs.PlainLaws.{plain_formula_laws};
ghost use Rattle.std.proofs.Common.{rules};

use super::guarded::ByFormulas;
use super::kind::ListedKind;
use super::periods::last_before_next;
use super::rows::{EntryRule, LARGEST_ENTRY, Row, RowFault, judge_entries};

/// The code of the plain kind: sheets have numbers for kinds.
const CODE: u64 = 1;

/// Entry 1 is C, entry 2 is T, and the others are 0.
#[derive(Clone, Copy)]
pub struct Plain;

impl EntryRule for Plain {
    ghost passes = { λ _. plain_entry };

    fn allows(&self, row: &Row, index: usize) -> bool {
        let entry = row[index];
        if index < 2 {
            (1..=LARGEST_ENTRY).contains(&entry)
        } else {
            entry == 0
        }
    }
}

#[tactic(auto, using(crate::specs::LawProofs::PlainLaws::plain_bounds))]
impl ByFormulas for Plain {
    ghost formulas = { λ _. plain_formulas };

    ghost laws = { λ _. plain_formula_laws };

    fn judge(&self, row: &Row) -> Result<(), RowFault> {
        judge_entries(self, row)
    }

    fn longest_of_lawful(&self, row: &Row) -> u64 {
        row[0]
    }

    fn separation_of_lawful(&self, row: &Row) -> u64 {
        row[1]
    }

    fn request_of_lawful(&self, row: &Row, t: u64) -> u64 {
        t.div_ceil(self.separation_of_lawful(row)) * self.longest_of_lawful(row)
    }

    fn until_of_lawful(&self, row: &Row, t: u64) -> u64 {
        last_before_next(t, self.separation_of_lawful(row))
    }
}

impl ListedKind for Plain {
    ghost coded = { λ _. plain_code };

    ghost codes = { Prim.search rules };

    fn code(&self) -> u64 {
        CODE
    }
}

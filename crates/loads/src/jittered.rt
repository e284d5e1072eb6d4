//! The jittered kind, over any kind: a job may be ready late by up to J ticks.
ghost use Rattle.std.specs.Prelude.{◌≡◌};
ghost use Rattle.loads.specs.Codes.{jittered_code};
ghost use Rattle.loads.specs.Jittered.{jittered_formulas, row_below};
ghost use Rattle.loads.specs.LawProofs.JitteredLaws.{jittered_formula_laws};
ghost use Rattle.std.proofs.Common.{rules};

use super::guarded::ByFormulas;
use super::kind::{HORIZON, ListedKind, LoadKind};
use super::rows::{Row, RowFault};
use numbers::LARGEST_LISTED;

/// How much more than the kind below a jittered kind has as its code: sheets have numbers for kinds.
const CODE_STEP: u64 = 10;

/// The index of entry 8, the jitter.
const JITTER: usize = 7;

/// Entry 8 is J; the kind below gets the row with 0 there.
#[derive(Clone, Copy)]
pub struct Jittered<K> {
    pub below: K,
}

/// The row that the kind below gets.
fn without_jitter(row: &Row) -> Row
    ensures { result ≡ row_below row.now }
{
    let mut below = *row;
    below[JITTER] = 0;
    below
}

impl<K: LoadKind> ByFormulas for Jittered<K> {
    ghost formulas = { λ j. jittered_formulas (K.means j.below) };

    ghost laws = { λ j. jittered_formula_laws (K.means j.below) (K.laws j.below) };

    fn judge(&self, row: &Row) -> Result<(), RowFault> {
        let below = without_jitter(row);
        self.below.lawful(&below)?;
        if row[JITTER] < self.below.separation(&below) {
            Ok(())
        } else {
            Err(RowFault { entry: 8 })
        }
    }

    fn longest_of_lawful(&self, row: &Row) -> u64 {
        self.below.longest(&without_jitter(row))
    }

    fn separation_of_lawful(&self, row: &Row) -> u64 {
        self.below.separation(&without_jitter(row)) - row[JITTER]
    }

    fn request_of_lawful(&self, row: &Row, t: u64) -> u64 {
        // no jitter is added at 0: no job arrives in no time
        if t == 0 {
            return 0;
        }
        self.below.request(&without_jitter(row), t + row[JITTER])
    }

    fn until_of_lawful(&self, row: &Row, t: u64) -> u64 {
        // every later instant asks for something
        if t == 0 {
            return 0;
        }
        let last = self.below.until(&without_jitter(row), t + row[JITTER]);
        if last == HORIZON {
            return HORIZON;
        }
        last - row[JITTER]
    }
}

impl<K: ListedKind> ListedKind for Jittered<K> {
    ghost coded = { λ j. jittered_code (K.coded j.below) };

    ghost codes = { Prim.search rules };

    fn code(&self) -> u64 {
        (self.below.code() + CODE_STEP).min(LARGEST_LISTED)
    }
}

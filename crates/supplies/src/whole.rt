//! The whole processor.
ghost use Rattle.supplies.specs.Codes.{no_numbers, whole_code};
ghost use Rattle.supplies.specs.Supplied.{whole};
ghost use Rattle.std.proofs.Common.{rules};
ghost use Rattle.supplies.specs.LawProofs.WholeLaws.{whole_laws};

use super::supply::{LAST_INSTANT, ListedSupply, Supply};

/// The code of the whole processor on sheets.
// A number and no enum: sheets hold numbers.
const CODE: u64 = 1;

/// All of the time.
#[derive(Clone, Copy)]
pub struct Whole;

impl Supply for Whole {
    ghost gives = { λ _. whole };

    ghost laws = { λ _. whole_laws };

    fn supplied(&self, t: u64) -> u64 {
        t.min(LAST_INSTANT)
    }

    fn when(&self, w: u64) -> Option<u64> {
        (w <= LAST_INSTANT).then_some(w)
    }
}

impl ListedSupply for Whole {
    ghost coded = { λ _. whole_code };

    ghost numbered = { λ _. no_numbers };

    ghost codes = { Prim.search rules };

    ghost listed = { Prim.search rules };

    fn code(&self) -> u64 {
        CODE
    }

    fn numbers(&self) -> (u64, u64) {
        (0, 0)
    }
}

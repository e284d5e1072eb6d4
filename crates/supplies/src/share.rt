//! A share of the processor (the periodic resource model).
ghost use Rattle.std.specs.Prelude.{◌≡◌, ◌≤◌, MatchResult};
ghost use Rattle.supplies.specs.Codes.{share_code};
ghost use Rattle.supplies.specs.Shares.{LawfulShare, longest_period, share};
ghost use Rattle.supplies.specs.Supplied.{When, last_instant};
ghost use Rattle.supplies.specs.LawProofs.ShareLaws.{share_laws, share_listed};
ghost use Rattle.std.proofs.Common.{rules};

use super::fault::SupplyFault;
use super::supply::{LAST_INSTANT, ListedSupply, Supply};

/// The code of a share on sheets.
// A number and no enum: sheets hold numbers.
const CODE: u64 = 2;

/// The longest period of a share.
const LONGEST_PERIOD: u64 = 1_000_000;

/// `budget` ticks of each `period`, at the worst time.
#[derive(Clone, Copy)]
pub struct Share {
    budget: u64,
    period: u64,
    ghost some: { 1 ≤ budget },
    ghost part: { budget ≤ period },
    ghost brief: { period ≤ longest_period },
}

impl Share {
    /// A share of `budget` in `period`, where 1 ≤ budget ≤ period ≤ 1,000,000.
    pub fn new(budget: u64, period: u64) -> Result<Share, SupplyFault>
        ensures { MatchResult result (λ s. LawfulShare budget period × (s.budget ≡ budget) × (s.period ≡ period)) (λ f. (LawfulShare budget period → ⊥) × (f ≡ SupplyFault.Share)) }
    {
        if (1..=period).contains(&budget) && period <= LONGEST_PERIOD {
            Ok(Share { budget, period })
        } else {
            Err(SupplyFault::Share)
        }
    }

    /// The first instant at which `w` ticks are reached, or none where they never are.
    fn reaching(&self, w: u64) -> Option<u64>
        requires low { 1 ≤ w }
        requires high { w ≤ last_instant }
        ensures { When (share self.now.budget self.now.period) w result }
    {
        let gap = self.period - self.budget;
        let full = (w - 1) / self.budget;
        let at = full * self.period + 2 * gap + (w - full * self.budget);
        (at <= LAST_INSTANT).then_some(at)
    }
}

impl Supply for Share {
    ghost gives = { λ s. share s.budget s.period };

    ghost laws = { λ s. share_laws s.budget s.period s.some s.part };

    #[tactic(auto, using(crate::specs::LawProofs::Rounds::gaps_before))]
    fn supplied(&self, t: u64) -> u64 {
        let t = t.min(LAST_INSTANT);
        if self.budget == self.period {
            return t;
        }
        let gap = self.period - self.budget;
        let round = t.saturating_sub(gap).div_ceil(self.period).max(1);
        let end = (round + 1) * self.period - self.budget;
        if (end - self.budget..=end).contains(&t) {
            t - (round + 1) * gap
        } else {
            (round - 1) * self.budget
        }
    }

    fn when(&self, w: u64) -> Option<u64> {
        if w == 0 {
            return Some(0);
        }
        if w > LAST_INSTANT {
            return None;
        }
        self.reaching(w)
    }
}

impl ListedSupply for Share {
    ghost coded = { λ _. share_code };

    ghost numbered = { λ s. (s.budget, s.period) };

    ghost codes = { Prim.search rules };

    ghost listed = { λ s. share_listed s.budget s.period s.part s.brief };

    fn code(&self) -> u64 {
        CODE
    }

    fn numbers(&self) -> (u64, u64) {
        (self.budget, self.period)
    }
}

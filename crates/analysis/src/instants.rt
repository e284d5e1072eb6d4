//! First instants: when work is covered.
ghost use Rattle.std.specs.Prelude.{◌≡◌};
ghost use Rattle.analysis.specs.Extremes.{Earliest};
ghost use Rattle.analysis.specs.Levels.{level_covered, level_first};

use super::level::Level;
use loads::LoadKind;
use supplies::{LAST_INSTANT, Supply};

impl<K: LoadKind, S: Supply> Level<'_, K, S> {
    /// The first instant from 1 to the limit at which the supply covers `base` and all that the rows above can ask for, or none.
    #[tactic(auto, using(crate::proofs::Totals::request_bounded, crate::proofs::Serving::none_within))]
    pub fn first_instant(&self, base: u64, limit: u64) -> Option<u64>
        ensures is { result ≡ level_first K.means S.gives self.now base limit }
        ensures earliest { Earliest (level_covered K.means S.gives self.now base) limit result }
    {
        let mut t = 1;
        // Loops, one in the other, as the search is defined: both are left as soon as the answer is known.
        'instants: loop {
            if t > limit {
                break 'instants None;
            }
            let mut asked = base;
            for row in self.above {
                if asked > LAST_INSTANT {
                    break 'instants None;
                }
                asked += self.kind.request(row, t);
            }
            match self.supply.when(asked) {
                None => break 'instants None,
                Some(u) if u <= t => break 'instants Some(t),
                Some(u) => t = u,
            }
        }
    }
}

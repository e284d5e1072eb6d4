//! Slack: the most that the supply leaves over at an instant up to the deadline.
ghost use Rattle.std.specs.Prelude.{◌≡◌, ◌≤◌};
ghost use Rattle.loads.specs.Kind.{Until, horizon};
ghost use Rattle.analysis.specs.Extremes.{Largest};
ghost use Rattle.analysis.specs.Instants.{requests};
ghost use Rattle.analysis.specs.Levels.{level_left_over, level_slack};

use super::level::Level;
use loads::{HORIZON, LoadKind, Row};
use supplies::{LAST_INSTANT, Supply};

impl<K: LoadKind, S: Supply> Level<'_, K, S> {
    /// The greatest instant up to the horizon at which the row asks for what it asks for at `t`, for a `t` from the first tick on. An
    /// unlawful row never asks for anything.
    fn unchanged_until(&self, row: &Row, t: u64) -> u64
        requires { 1 ≤ t }
        ensures { Until horizon ((K.means self.now.kind.now).request row.now) t result }
    {
        // an answer before `t` tells an unlawful row, or a `t` past the horizon: no row is judged once more
        let until = self.kind.until(row, t);
        if until < t { HORIZON } else { until }
    }

    /// The end of the stretch from `t` on, at the first tick or later: the greatest instant up to the horizon at which the rows
    /// above ask for what they ask for at `t`.
    fn stretch_end(&self, t: u64) -> u64
        requires low { 1 ≤ t }
        requires within { t ≤ horizon }
        ensures { Until horizon (requests (K.means self.now.kind.now) self.now.above.now) t result }
    {
        self.above
            .iter()
            .fold(HORIZON, |end, row| end.min(self.unchanged_until(row, t)))
    }

    /// What the supply leaves over at `t`, after one job of `longest` ticks and all that the rows above can ask for.
    fn left_at(&self, longest: u64, t: u64) -> i128
        ensures { result ≡ level_left_over K.means S.gives self.now longest t }
    {
        // `as`: an `i128` has no `From<u128>`, and no work is too large for it.
        i128::from(self.supply.supplied(t)) - self.work(longest, t) as i128
    }

    /// The slack of a task with this longest job and deadline below the rows above: the most that the supply leaves over at an
    /// instant from 1 to the deadline. A deadline of 0 counts as 1.
    pub fn slack(&self, longest: u64, deadline: u64) -> i128
        ensures is { result ≡ level_slack K.means S.gives self.now longest deadline }
        ensures greatest { Largest (level_left_over K.means S.gives self.now longest) 1 deadline result }
    {
        let limit = deadline.clamp(1, LAST_INSTANT);
        // Only the ends of stretches are looked at: over a stretch the work stays, and the supply does not fall.
        let mut end = self.stretch_end(1).min(limit);
        let mut most = self.left_at(longest, end);
        // A `while`: where the next stretch ends is known only once this one has ended.
        while end < limit {
            end = self.stretch_end(end + 1).min(limit);
            most = most.max(self.left_at(longest, end));
        }
        most
    }
}

//! Periods that begin as time goes on, up to the horizon.
ghost use Rattle.std.specs.Prelude.{◌≤◌};
ghost use Rattle.numbers.specs.Rounding.{rounded_up};
ghost use Rattle.loads.specs.Kind.{Until, horizon, largest_entry};

use super::kind::HORIZON;

/// The last instant up to the horizon with as many periods begun as at `t`.
pub(crate) fn last_before_next(t: u64, period: u64) -> u64
    requires low { 1 ≤ period }
    requires high { period ≤ largest_entry }
    requires within { t ≤ horizon }
    ensures { Until horizon (λ v. rounded_up v period) t result }
{
    t.next_multiple_of(period).min(HORIZON)
}

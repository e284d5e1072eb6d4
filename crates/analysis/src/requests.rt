//! What several rows ask for together.
ghost use Rattle.std.specs.Prelude.{◌≡◌, ◌+◌, ◌≤◌};
ghost use Rattle.analysis.specs.Instants.{most_requested, requests, work_of};

use super::level::Level;
use loads::LoadKind;

impl<K: LoadKind, S> Level<'_, K, S> {
    /// The most work that the rows above can ask for in `t` ticks, together.
    pub fn requested(&self, t: u64) -> u128
        ensures is { result ≡ requests (K.means self.now.kind.now) self.now.above.now t }
        ensures small { result ≤ most_requested }
    {
        self.above
            .iter()
            .map(|row| u128::from(self.kind.request(row, t)))
            .sum()
    }

    /// A base amount of work, as one job, and all that the rows above can ask for in `t` ticks.
    pub fn work(&self, base: u64, t: u64) -> u128
        ensures is { result ≡ work_of (K.means self.now.kind.now) self.now.above.now base t }
        ensures small { result ≤ base + most_requested }
    {
        u128::from(base) + self.requested(t)
    }
}

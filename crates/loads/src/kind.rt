//! The interface of load kinds.
ghost use Rattle.std.specs.Prelude.{◌≡◌, ℕ, ◌≤◌};
ghost use Rattle.numbers.specs.Columns.{largest_listed};
ghost use Rattle.loads.specs.Kind.{Kind, Lasts, Laws};
ghost use Rattle.loads.specs.Rows.{Judged};

use super::rows::{Row, RowFault};

/// Requests are counted up to this instant: a later one counts as this.
pub const HORIZON: u64 = 2_000_000;

/// Says what a row means: whether it is lawful, and the work that it stands for. On an unlawful row the numbers are 0.
pub trait LoadKind {
    // what the kind says of every row
    ghost means: { Self → Kind };

    /// Yes, or the lowest-numbered entry at fault.
    fn lawful(&self, row: &Row) -> Result<(), RowFault>
        ensures { Judged ((means self.now).fault row.now) result };

    /// The longest job.
    fn longest(&self, row: &Row) -> u64
        ensures { result ≡ (means self.now).longest row.now };

    /// The least time from one job to the next.
    fn separation(&self, row: &Row) -> u64
        ensures { result ≡ (means self.now).separation row.now };

    /// The most work that can arrive in `t` ticks.
    fn request(&self, row: &Row, t: u64) -> u64
        ensures { result ≡ (means self.now).request row.now t };

    /// The greatest instant up to the horizon with the same request as `t`.
    fn until(&self, row: &Row, t: u64) -> u64
        ensures { Lasts (means self.now) row.now t result };

    // what every kind keeps: the laws of requests, longest jobs, separations and entries
    ghost laws: { (k : Self) → Laws (means k) };
}

/// A load kind that stands on sheets, by its code.
pub trait ListedKind: LoadKind {
    // the code
    ghost coded: { Self → ℕ };

    /// The code by which the kind is known on sheets.
    fn code(&self) -> u64
        ensures { result ≡ coded self.now };

    // the code stands in eight columns
    ghost codes: { (k : Self) → coded k ≤ largest_listed };
}

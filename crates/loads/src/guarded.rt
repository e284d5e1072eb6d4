//! The guard, said once for every kind by formulas.
ghost use Rattle.std.specs.Prelude.{◌≡◌, ◌≤◌};
ghost use Rattle.loads.specs.Kind.{Kind, Until, guarded, horizon};
ghost use Rattle.loads.specs.LawProofs.Guarded.{FormulaLaws, guarded_laws};
ghost use Rattle.loads.specs.Rows.{Judged};

use super::kind::{HORIZON, LoadKind};
use super::rows::{Row, RowFault};

/// A kind that answers of lawful rows alone, up to the horizon.
// a clause says that a row is lawful, and no type: it would hold the kind beside the row, and every body would take it apart
pub(crate) trait ByFormulas {
    // what the kind says of lawful rows
    ghost formulas: { Self → Kind };

    /// Yes, or the lowest-numbered entry at fault.
    fn judge(&self, row: &Row) -> Result<(), RowFault>
        ensures { Judged ((formulas self.now).fault row.now) result };

    /// The longest job of a lawful row.
    fn longest_of_lawful(&self, row: &Row) -> u64
        requires { (formulas self.now).fault row.now ≡ 0 }
        ensures { result ≡ (formulas self.now).longest row.now };

    /// The separation of a lawful row.
    fn separation_of_lawful(&self, row: &Row) -> u64
        requires { (formulas self.now).fault row.now ≡ 0 }
        ensures { result ≡ (formulas self.now).separation row.now };

    /// The request of a lawful row at an instant up to the horizon.
    fn request_of_lawful(&self, row: &Row, t: u64) -> u64
        requires lawful { (formulas self.now).fault row.now ≡ 0 }
        requires within { t ≤ horizon }
        ensures { result ≡ (formulas self.now).request row.now t };

    /// The greatest instant up to the horizon with the same request as `t`, of a lawful row.
    fn until_of_lawful(&self, row: &Row, t: u64) -> u64
        requires lawful { (formulas self.now).fault row.now ≡ 0 }
        requires within { t ≤ horizon }
        ensures { Until horizon ((formulas self.now).request row.now) t result };

    // what formulas keep: the laws of requests, longest jobs, separations and entries, of lawful rows
    ghost laws: { (k : Self) → FormulaLaws (formulas k) };
}

/// An unlawful row stands for no work, and a later instant counts as the horizon.
// the 0 is an amount, of no work; of `until` it is what `LoadKind` promises of an unlawful row
impl<F: ByFormulas> LoadKind for F {
    ghost means = { λ k. guarded (F.formulas k) };

    ghost laws = { λ k. guarded_laws (F.formulas k) (F.laws k) };

    fn lawful(&self, row: &Row) -> Result<(), RowFault> {
        self.judge(row)
    }

    fn longest(&self, row: &Row) -> u64 {
        self.judge(row).map_or(0, |()| self.longest_of_lawful(row))
    }

    fn separation(&self, row: &Row) -> u64 {
        self.judge(row)
            .map_or(0, |()| self.separation_of_lawful(row))
    }

    // `request` and `until` differ in their formula alone: a guard that takes it as a closure would save no line
    fn request(&self, row: &Row, t: u64) -> u64 {
        let instant = t.min(HORIZON);
        self.judge(row)
            .map_or(0, |()| self.request_of_lawful(row, instant))
    }

    fn until(&self, row: &Row, t: u64) -> u64 {
        let instant = t.min(HORIZON);
        self.judge(row)
            .map_or(0, |()| self.until_of_lawful(row, instant))
    }
}

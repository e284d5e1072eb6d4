//! The framed kind (the multiframe model): jobs at least T ticks apart, whose lengths go round a cycle of frames.
ghost use Rattle.std.specs.Prelude.{◌≡◌, ◌*◌, ◌≤◌};
ghost use Rattle.loads.specs.Codes.{framed_code};
ghost use Rattle.loads.specs.Framed.{busiest, frame, frame_count, framed_entry, framed_formulas, frames, most_frames};
ghost use Rattle.loads.specs.Kind.{horizon, largest_entry};
ghost use Rattle.loads.specs.LawProofs.FramedLaws.{framed_formula_laws};
ghost use Rattle.std.proofs.Common.{rules};

use super::guarded::ByFormulas;
use super::kind::ListedKind;
use super::periods::last_before_next;
use super::rows::{EntryRule, LARGEST_ENTRY, Row, RowFault, judge_entries};

/// The code of the framed kind: sheets have numbers for kinds.
const CODE: u64 = 2;

/// The most frames that a cycle can have.
const MOST_FRAMES: u64 = 5;

/// Entry 1 is T, entry 2 is the count of frames, the frames follow, and the others are 0.
#[derive(Clone, Copy)]
pub struct Framed;

impl EntryRule for Framed {
    ghost passes = { λ _. framed_entry };

    fn allows(&self, row: &Row, index: usize) -> bool {
        let entry = row[index];
        // compared by hand: with `contains` the compiler does not inline the tests of a row into a pile of jittered kinds, and every level
        // makes them again
        // `as`: Rust has no `From` of a `usize` for a `u64`
        if index == 1 {
            1 <= entry && entry <= MOST_FRAMES
        } else if (index as u64) < row[1].saturating_add(2) {
            1 <= entry && entry <= LARGEST_ENTRY
        } else {
            entry == 0
        }
    }
}

/// The cycle of frames of a lawful row.
#[derive(Clone, Copy)]
struct Cycle<'a> {
    row: &'a Row,
    ghost lawful: { framed_formulas.fault row.now ≡ 0 },
}

#[tactic(auto, using(crate::specs::LawProofs::FramedLaws::framed_bounds))]
impl Cycle<'_> {
    /// How many frames the cycle has.
    fn count(&self) -> u64
        ensures is { result ≡ frame_count self.now.row.now }
        ensures low { 1 ≤ result }
        ensures high { result ≤ most_frames }
    {
        self.row[1]
    }

    /// Frame number `j`, from 0, of the endlessly repeated cycle.
    fn frame(&self, j: u64) -> u64
        ensures is { result ≡ frame self.now.row.now j }
        ensures high { result ≤ largest_entry }
    {
        // `as`: Rust has no `From` of a `u64` for a `usize`
        self.row[2 + (j % self.count()) as usize]
    }

    /// The sum of `n` consecutive frames, from number `start` on.
    fn sum(&self, start: u64, n: u64) -> u64
        requires begins { start ≤ most_frames }
        requires few { n ≤ most_frames }
        ensures is { result ≡ frames self.now.row.now start n }
        ensures high { result ≤ most_frames * largest_entry }
    {
        (start..start + n).map(|j| self.frame(j)).sum()
    }

    /// The largest sum of `n` consecutive frames: whole cycles come to the same from every start, so only the rest is tried.
    fn busiest(&self, n: u64) -> u64
        requires { n ≤ horizon }
        ensures { result ≡ busiest self.now.row.now n }
    {
        let count = self.count();
        let cycles = n / count * self.sum(0, count);
        let rest = n % count;
        // a cycle has a frame, so there is a largest, and the 0 never stands in
        (0..count)
            .map(|start| cycles + self.sum(start, rest))
            .max()
            .unwrap_or(0)
    }
}

#[tactic(auto, using(crate::specs::LawProofs::FramedLaws::framed_bounds))]
impl ByFormulas for Framed {
    ghost formulas = { λ _. framed_formulas };

    ghost laws = { λ _. framed_formula_laws };

    // as plain: each names the helper that they share, here and in `until_of_lawful`
    fn judge(&self, row: &Row) -> Result<(), RowFault> {
        judge_entries(self, row)
    }

    fn longest_of_lawful(&self, row: &Row) -> u64 {
        Cycle { row }.busiest(1)
    }

    fn separation_of_lawful(&self, row: &Row) -> u64 {
        row[0]
    }

    fn request_of_lawful(&self, row: &Row, t: u64) -> u64 {
        Cycle { row }.busiest(t.div_ceil(self.separation_of_lawful(row)))
    }

    fn until_of_lawful(&self, row: &Row, t: u64) -> u64 {
        last_before_next(t, self.separation_of_lawful(row))
    }
}

impl ListedKind for Framed {
    ghost coded = { λ _. framed_code };

    ghost codes = { Prim.search rules };

    fn code(&self) -> u64 {
        CODE
    }
}

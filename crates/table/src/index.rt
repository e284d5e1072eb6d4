//! Positions and resources, which count from 1, as indices, which count from 0. Between `u64` and `usize` stands `as`, since there is
//! no `From`.
ghost use Rattle.std.specs.Prelude.{◌≤◌, ◌↔◌, IsTrue};
ghost use Rattle.table.specs.Indices.{IndexOf};

/// Whether a number is from 1 to `last`.
pub fn from_one_to(number: u64, last: u64) -> bool
    ensures { IsTrue result ↔ ((1 ≤ number) × (number ≤ last)) }
{
    (1..=last).contains(&number)
}

/// The index of a number from 1 to `last`, none for any other number.
pub fn index_of(number: u64, last: usize) -> Option<usize>
    ensures { IndexOf number last result }
{
    from_one_to(number, last as u64).then(|| number as usize - 1)
}

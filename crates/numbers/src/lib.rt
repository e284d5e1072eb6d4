//! What all layers share about numbers: quotients rounded up, ranges, and the largest number that a sheet has room for.
#![tactic(auto)]

/// The largest number that stands in the eight columns of a sheet's field.
pub const LARGEST_LISTED: u64 = 99_999_999;

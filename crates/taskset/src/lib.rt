//! Task sets under static priorities and the Stack Resource Policy: four edits, the lowest ceilings, and hold times.
#![tactic(auto)]

mod answers;
mod edits;
mod histories;
mod reckoning;
mod set;
mod task;

pub use histories::replay;
pub use set::TaskSet;

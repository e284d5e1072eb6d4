//! The plain inner table of a task set: what was entered, and the ceilings that are held.
#![tactic(auto)]

mod blank;
mod edits;
mod index;
mod reading;
mod sections;
mod settling;
mod shifts;
mod table;

pub use index::{from_one_to, index_of};
pub use table::{RESOURCES, Table};

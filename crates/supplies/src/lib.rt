//! What time is given: supplies of processor time.
#![tactic(auto)]

mod fault;
mod share;
mod supply;
mod whole;

pub use fault::SupplyFault;
pub use share::Share;
pub use supply::{LAST_INSTANT, ListedSupply, Supply};
pub use whole::Whole;

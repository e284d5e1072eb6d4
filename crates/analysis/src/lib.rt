//! When work is served: requests together, slack and first instants, for any load kind and any supply.
#![tactic(auto)]

mod instants;
mod level;
mod requests;
mod slacks;

pub use level::Level;

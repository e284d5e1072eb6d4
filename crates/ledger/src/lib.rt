//! What the edits of a task set enter, and what then must hold: the ledger, tables of ceilings, and histories of edits.
#![tactic(auto)]

mod edit;
mod fault;

pub use edit::{Edit, Mark};
pub use fault::SetFault;

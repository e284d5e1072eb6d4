//! What work can arrive: load kinds, which say what a task's row of eight numbers means.
#![tactic(auto)]

mod framed;
mod guarded;
mod jittered;
mod kind;
mod periods;
mod plain;
mod rows;

pub use framed::Framed;
pub use jittered::Jittered;
pub use kind::{HORIZON, ListedKind, LoadKind};
pub use plain::Plain;
pub use rows::{LARGEST_ENTRY, Row, RowFault};

//! The four edits of a task set.
use loads::Row;

/// How the ceiling of a resource is settled.
#[derive(Clone, Copy, PartialEq, Eq, Debug)]
pub enum Mark {
    /// As low as the tasks can bear.
    Lowered,
    /// At the natural ceiling.
    Kept,
}

/// One edit of a task set, with what it is given. Positions and resources count from 1.
#[derive(Clone, Copy)]
pub enum Edit {
    /// Puts a task in at the position; later tasks move down.
    Insert {
        position: u64,
        row: Row,
        deadline: u64,
    },
    /// Takes the task at the position out; later tasks move up.
    Withdraw {
        position: u64,
    },
    /// Sets the longest section of a task on a resource, 0 for no use.
    Section {
        position: u64,
        resource: u64,
        length: u64,
    },
    /// Marks a resource.
    Mark {
        resource: u64,
        mark: Mark,
    },
}

//! A level of priority: what stands above a task, and what serves it.
use loads::Row;

/// A level of priority: the rows above a task, the load kind that says what they mean, and the supply that serves them.
#[derive_where(Clone, Copy)]
pub struct Level<'a, K, S> {
    pub kind: &'a K,
    pub supply: &'a S,
    pub above: &'a [Row],
}

//! What the figures share.
use loads::LoadKind;
use std::process::Abort;
use supplies::Supply;
use taskset::TaskSet;

/// Checks what is answered of every task, by position, and how many there are.
pub(crate) fn tasks<K: LoadKind, S: Supply>(
    rt: &impl Abort,
    set: &TaskSet<K, S>,
    expected: &[(u64, i64, u64)],
) {
    assert_eq!(rt; set.count(), expected.len());
    for (position, figures) in (1..).zip(expected) {
        assert_eq!(rt; set.task(position), Ok(*figures));
    }
}

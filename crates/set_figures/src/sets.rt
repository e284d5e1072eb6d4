//! Figures of task sets: blocking, slack and first instants of tasks, ceilings and hold times of resources.
use super::checks;
use ledger::{Mark, SetFault};
use loads::{LoadKind, Plain, Row, RowFault};
use std::process::Abort;
use std::test::Fail;
use supplies::{Share, Supply, Whole};
use taskset::TaskSet;

const fn plain(job: u64, period: u64) -> Row {
    [job, period, 0, 0, 0, 0, 0, 0]
}

/// The three-task example on the whole processor, with these deadlines of the first two tasks.
fn example(rt: &impl Abort, first: u64, second: u64) -> TaskSet<Plain, Whole> {
    let mut set = TaskSet::new(Plain, Whole);
    assert_eq!(rt; set.insert(1, plain(2, 10), first), Ok(()));
    assert_eq!(rt; set.insert(2, plain(3, 15), second), Ok(()));
    assert_eq!(rt; set.insert(3, plain(5, 30), 30), Ok(()));
    assert_eq!(rt; set.section(2, 1, 1), Ok(()));
    assert_eq!(rt; set.section(3, 1, 3), Ok(()));
    assert_eq!(rt; set.section(3, 2, 4), Ok(()));
    set
}

/// Checks what is answered of every task, and of resources 1 and 2.
fn figures<K: LoadKind, S: Supply>(
    rt: &impl Abort,
    set: &TaskSet<K, S>,
    tasks: &[(u64, i64, u64)],
    resources: [(u64, u64, u64); 2],
) {
    checks::tasks(rt, set, tasks);
    assert_eq!(rt; set.resource(1), Ok(resources[0]));
    assert_eq!(rt; set.resource(2), Ok(resources[1]));
}

#[test]
fn the_three_task_example(rt: HostRuntime) {
    let set = example(&rt, 5, 12);
    figures(
        &rt,
        &set,
        &[(3, 3, 5), (4, 5, 9), (0, 13, 10)],
        [(2, 1, 3), (3, 2, 6)],
    );
    assert_eq!(rt; set.task(0), Err(SetFault::Position));
    assert_eq!(rt; set.task(4), Err(SetFault::Position));
    assert_eq!(rt; set.resource(0), Err(SetFault::Resource));
    assert_eq!(rt; set.resource(3), Ok((0, 0, 0)));
    assert_eq!(rt; set.resource(16), Ok((0, 0, 0)));
    assert_eq!(rt; set.resource(17), Err(SetFault::Resource));
}

#[test]
fn a_task_that_cannot_bear_a_section(rt: HostRuntime) {
    let set = example(&rt, 4, 12);
    assert_eq!(rt; set.resource(1), Ok((2, 2, 5)));
    assert_eq!(rt; set.resource(2), Ok((3, 2, 6)));
}

#[test]
fn a_kept_resource(rt: HostRuntime) {
    let mut set = example(&rt, 5, 12);
    assert_eq!(rt; set.mark(1, Mark::Kept), Ok(()));
    assert_eq!(rt; set.resource(1), Ok((2, 2, 5)));
    assert_eq!(rt; set.task(1), Ok((0, 3, 2)));
    assert_eq!(rt; set.mark(1, Mark::Lowered), Ok(()));
    figures(
        &rt,
        &set,
        &[(3, 3, 5), (4, 5, 9), (0, 13, 10)],
        [(2, 1, 3), (3, 2, 6)],
    );
    assert_eq!(rt; set.mark(0, Mark::Kept), Err(SetFault::Resource));
    assert_eq!(rt; set.mark(17, Mark::Kept), Err(SetFault::Resource));
}

#[test]
fn sections_too_long(rt: HostRuntime) {
    let mut set = example(&rt, 5, 9);
    assert_eq!(rt; set.section(3, 1, 4), Ok(()));
    assert_eq!(rt; set.section(3, 1, 5), Err(SetFault::Unserved));
    assert_eq!(rt; set.section(3, 1, 6), Err(SetFault::Length));
    assert_eq!(rt; set.section(3, 17, 6), Err(SetFault::Resource));
    assert_eq!(rt; set.section(4, 17, 6), Err(SetFault::Position));
    assert_eq!(rt; set.section(3, 1, 0), Ok(()));
    assert_eq!(rt; set.resource(1), Ok((2, 1, 1)));
}

#[test]
fn one_task_on_a_share(rt: HostRuntime) -> Result<(), Fail> {
    let mut set = TaskSet::new(Plain, Share::new(4, 10)?);
    assert_eq!(rt; set.insert(1, plain(5, 16), 16), Err(SetFault::Unserved));
    assert_eq!(rt; set.insert(1, plain(4, 16), 16), Ok(()));
    figures(&rt, &set, &[(0, 0, 16)], [(0, 0, 0), (0, 0, 0)]);
    Ok(())
}

#[test]
fn questions_of_insert_in_order(rt: HostRuntime) {
    let mut set = TaskSet::new(Plain, Whole);
    let unlawful = Err(SetFault::Row(RowFault { entry: 3 }));
    assert_eq!(rt;
        set.insert(2, [1, 9, 7, 0, 0, 0, 0, 0], 0),
        Err(SetFault::Position)
    );
    assert_eq!(rt; set.insert(0, plain(1, 9), 9), Err(SetFault::Position));
    assert_eq!(rt; set.insert(1, [1, 9, 7, 0, 0, 0, 0, 0], 0), unlawful);
    assert_eq!(rt; set.insert(1, plain(1, 9), 0), Err(SetFault::Deadline));
    assert_eq!(rt; set.insert(1, plain(1, 9), 10), Err(SetFault::Deadline));
    assert_eq!(rt; set.insert(1, plain(9, 9), 8), Err(SetFault::Unserved));
    assert_eq!(rt; set.withdraw(1), Err(SetFault::Position));
    // a range of numbers: positions are what a set is asked by
    for position in 1..=32 {
        assert_eq!(rt; set.insert(position, plain(1, 100), 100), Ok(()));
    }
    assert_eq!(rt; set.insert(0, plain(0, 0), 0), Err(SetFault::Full));
    assert_eq!(rt; set.task(32), Ok((0, 68, 32)));
    assert_eq!(rt; set.withdraw(33), Err(SetFault::Position));
    assert_eq!(rt; set.withdraw(7), Ok(()));
    assert_eq!(rt; set.task(31), Ok((0, 69, 31)));
}

#[test]
fn numbers_of_refusals(rt: HostRuntime) {
    assert_eq!(rt; SetFault::Full.number(), 1);
    assert_eq!(rt; SetFault::Position.number(), 2);
    assert_eq!(rt; SetFault::Row(RowFault { entry: 8 }).number(), 3);
    assert_eq!(rt; SetFault::Deadline.number(), 4);
    assert_eq!(rt; SetFault::Resource.number(), 5);
    assert_eq!(rt; SetFault::Length.number(), 6);
    assert_eq!(rt; SetFault::Unserved.number(), 8);
}

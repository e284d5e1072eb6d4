//! Whole histories of edits, refusals among them, over several kinds and supplies, and a replay into lent room. Every answer and figure of the histories was reckoned apart from
//! this code, tick by tick from the model, with every fitting table of ceilings tried.
use super::checks;
use ledger::{Edit, Mark, SetFault};
use loads::{Framed, Jittered, LoadKind, Plain, Row, RowFault};
use std::process::Abort;
use std::test::Fail;
use supplies::{Share, Supply, Whole};
use taskset::{TaskSet, replay};

const fn insert(position: u64, row: Row, deadline: u64) -> Edit {
    Edit::Insert {
        position,
        row,
        deadline,
    }
}

const fn withdraw(position: u64) -> Edit {
    Edit::Withdraw { position }
}

const fn section(position: u64, resource: u64, length: u64) -> Edit {
    Edit::Section {
        position,
        resource,
        length,
    }
}

const fn mark(resource: u64, mark: Mark) -> Edit {
    Edit::Mark { resource, mark }
}

/// Makes the edits on a new set, and checks each answer, then the figures of every task and of resources 1, 2 and 16.
fn history<K: LoadKind + Drop, S: Supply + Drop>(
    rt: &impl Abort,
    kind: K,
    supply: S,
    steps: &[(Edit, Result<(), SetFault>)],
    tasks: &[(u64, i64, u64)],
    resources: [(u64, u64, u64); 3],
) {
    let mut set = TaskSet::new(kind, supply);
    for (edit, answer) in steps {
        assert_eq!(rt; set.edit(*edit), *answer);
    }
    checks::tasks(rt, &set, tasks);
    assert_eq!(rt; set.resource(1), Ok(resources[0]));
    assert_eq!(rt; set.resource(2), Ok(resources[1]));
    assert_eq!(rt; set.resource(16), Ok(resources[2]));
}

#[test]
fn plain(rt: HostRuntime) {
    let steps = [
        (insert(1, [3, 31, 0, 0, 0, 0, 0, 0], 30), Ok(())),
        (insert(1, [4, 50, 0, 0, 0, 0, 0, 0], 26), Ok(())),
        (insert(1, [2, 56, 0, 0, 0, 0, 0, 0], 39), Ok(())),
        (section(1, 16, 0), Ok(())),
        (withdraw(0), Err(SetFault::Position)),
        (
            insert(3, [1, 56, 0, 0, 0, 0, 1000001, 0], 11),
            Err(SetFault::Row(RowFault { entry: 7 })),
        ),
        (section(3, 16, 3), Ok(())),
        (section(3, 1, 2), Ok(())),
        (withdraw(4), Err(SetFault::Position)),
        (mark(16, Mark::Lowered), Ok(())),
        (withdraw(0), Err(SetFault::Position)),
        (section(2, 2, 4), Ok(())),
        (
            insert(4, [2, 12, 0, 0, 0, 0, 0, 0], 6),
            Err(SetFault::Unserved),
        ),
        (section(3, 16, 0), Ok(())),
        (section(2, 16, 4), Ok(())),
        (insert(1, [3, 47, 0, 0, 0, 0, 0, 0], 41), Ok(())),
    ];
    history(
        &rt,
        Plain,
        Whole,
        &steps,
        &[(4, 38, 7), (4, 34, 9), (2, 17, 11), (0, 18, 12)],
        [(4, 1, 2), (3, 1, 4), (3, 1, 4)],
    );
}

#[test]
fn plain_on_a_share(rt: HostRuntime) -> Result<(), Fail> {
    let steps = [
        (insert(1, [5, 13, 0, 0, 0, 0, 0, 0], 10), Ok(())),
        (
            insert(2, [6, 12, 0, 0, 0, 0, 0, 0], 10),
            Err(SetFault::Unserved),
        ),
        (insert(2, [2, 46, 0, 0, 0, 0, 0, 0], 40), Ok(())),
        (insert(3, [4, 46, 0, 0, 0, 0, 0, 0], 24), Ok(())),
        (section(3, 17, 0), Err(SetFault::Resource)),
        (
            insert(1, [5, 32, 0, 0, 0, 0, 0, 0], 30),
            Err(SetFault::Unserved),
        ),
        (section(2, 2, 0), Ok(())),
        (
            insert(1, [6, 29, 0, 0, 0, 0, 0, 0], 14),
            Err(SetFault::Unserved),
        ),
        (section(3, 1, 4), Ok(())),
        (
            insert(1, [6, 47, 0, 0, 0, 0, 0, 0], 47),
            Err(SetFault::Unserved),
        ),
        (mark(16, Mark::Kept), Ok(())),
        (
            insert(3, [6, 31, 0, 0, 0, 0, 0, 0], 20),
            Err(SetFault::Unserved),
        ),
        (section(3, 2, 4), Ok(())),
        (
            insert(1, [4, 25, 0, 0, 0, 0, 0, 0], 18),
            Err(SetFault::Unserved),
        ),
        (
            insert(5, [1, 46, 0, 0, 0, 0, 0, 0], 37),
            Err(SetFault::Position),
        ),
        (mark(2, Mark::Lowered), Ok(())),
    ];
    history(
        &rt,
        Plain,
        Share::new(7, 9)?,
        &steps,
        &[(0, 1, 9), (4, 11, 24), (0, 0, 24)],
        [(3, 2, 20), (3, 2, 20), (0, 0, 0)],
    );
    Ok(())
}

#[test]
fn framed(rt: HostRuntime) {
    let steps = [
        (insert(1, [13, 3, 3, 2, 2, 0, 0, 0], 6), Ok(())),
        (insert(2, [25, 1, 1, 0, 0, 0, 0, 0], 12), Ok(())),
        (section(2, 1, 1), Ok(())),
        (insert(1, [36, 1, 3, 0, 0, 0, 0, 0], 35), Ok(())),
        (
            insert(1, [36, 1, 3, 0, 0, 0, 0, 0], 25),
            Err(SetFault::Unserved),
        ),
        (section(4, 1, 3), Err(SetFault::Position)),
        (insert(4, [34, 1, 3, 0, 0, 0, 0, 0], 24), Ok(())),
        (withdraw(5), Err(SetFault::Position)),
        (withdraw(1), Ok(())),
        (section(1, 1, 0), Ok(())),
        (insert(4, [48, 3, 3, 2, 4, 0, 0, 0], 41), Ok(())),
        (section(4, 2, 4), Ok(())),
        (withdraw(0), Err(SetFault::Position)),
        (section(2, 16, 1), Ok(())),
        (withdraw(5), Err(SetFault::Position)),
        (withdraw(0), Err(SetFault::Position)),
    ];
    history(
        &rt,
        Framed,
        Whole,
        &steps,
        &[(1, 3, 4), (4, 8, 8), (4, 15, 11), (0, 20, 11)],
        [(2, 1, 1), (4, 2, 7), (2, 1, 1)],
    );
}

#[test]
fn jittered(rt: HostRuntime) {
    let steps = [
        (
            insert(1, [4, 44, 0, 0, 0, 0, 0, 44], 11),
            Err(SetFault::Row(RowFault { entry: 8 })),
        ),
        (insert(1, [5, 29, 0, 0, 0, 0, 0, 5], 12), Ok(())),
        (insert(1, [1, 42, 0, 0, 0, 0, 0, 3], 28), Ok(())),
        (section(2, 1, 5), Ok(())),
        (insert(3, [1, 41, 0, 0, 0, 0, 0, 5], 23), Ok(())),
        (insert(1, [3, 45, 0, 0, 0, 0, 0, 0], 34), Ok(())),
        (section(3, 2, 2), Ok(())),
        (section(1, 16, 0), Ok(())),
        (section(4, 1, 2), Err(SetFault::Length)),
        (withdraw(1), Ok(())),
        (
            insert(2, [3, 32, 0, 0, 0, 0, 0, 32], 15),
            Err(SetFault::Row(RowFault { entry: 8 })),
        ),
        (insert(1, [4, 15, 0, 0, 0, 0, 0, 0], 8), Ok(())),
        (mark(16, Mark::Lowered), Ok(())),
        (section(1, 1, 4), Err(SetFault::Unserved)),
        (withdraw(5), Err(SetFault::Position)),
        (section(3, 1, 5), Ok(())),
    ];
    history(
        &rt,
        Jittered { below: Plain },
        Whole,
        &steps,
        &[(2, 4, 6), (5, 19, 10), (0, 2, 10), (0, 8, 11)],
        [(3, 2, 9), (3, 1, 2), (0, 0, 0)],
    );
}

#[test]
fn jittered_frames_on_a_share(rt: HostRuntime) -> Result<(), Fail> {
    let steps = [
        (
            insert(1, [42, 2, 3, 1, 0, 0, 0, 42], 12),
            Err(SetFault::Row(RowFault { entry: 8 })),
        ),
        (
            insert(1, [18, 2, 2, 4, 0, 0, 0, 18], 11),
            Err(SetFault::Row(RowFault { entry: 8 })),
        ),
        (insert(1, [17, 1, 3, 0, 0, 0, 0, 5], 7), Ok(())),
        (
            insert(1, [30, 1, 1, 0, 0, 0, 0, 3], 19),
            Err(SetFault::Unserved),
        ),
        (
            insert(1, [13, 1, 2, 0, 0, 0, 0, 5], 5),
            Err(SetFault::Unserved),
        ),
        (
            insert(1, [36, 1, 4, 0, 0, 0, 0, 3], 29),
            Err(SetFault::Unserved),
        ),
        (
            insert(3, [17, 3, 3, 1, 3, 0, 0, 0], 13),
            Err(SetFault::Position),
        ),
        (insert(2, [34, 1, 4, 0, 0, 0, 0, 5], 27), Ok(())),
        (section(2, 1, 4), Ok(())),
        (section(2, 2, 4), Ok(())),
        (
            insert(3, [36, 1, 2, 0, 0, 0, 0, 36], 11),
            Err(SetFault::Row(RowFault { entry: 8 })),
        ),
        (section(2, 16, 1), Ok(())),
        (insert(2, [53, 1, 4, 0, 0, 0, 0, 5], 37), Ok(())),
        (mark(1, Mark::Lowered), Ok(())),
        (
            insert(1, [19, 2, 3, 4, 0, 0, 0, 5], 12),
            Err(SetFault::Unserved),
        ),
        (
            insert(3, [22, 1, 2, 0, 0, 0, 0, 5], 9),
            Err(SetFault::Unserved),
        ),
    ];
    history(
        &rt,
        Jittered { below: Framed },
        Share::new(8, 10)?,
        &steps,
        &[(0, 0, 7), (4, 14, 20), (0, 5, 20)],
        [(3, 2, 11), (3, 2, 11), (3, 2, 8)],
    );
    Ok(())
}

#[test]
fn jittered_twice_on_a_share(rt: HostRuntime) -> Result<(), Fail> {
    let steps = [
        (
            insert(1, [3, 12, 0, 0, 0, 0, 0, 5], 3),
            Err(SetFault::Unserved),
        ),
        (insert(1, [4, 17, 0, 0, 0, 0, 0, 5], 10), Ok(())),
        (insert(2, [3, 39, 0, 0, 0, 0, 0, 0], 19), Ok(())),
        (insert(3, [2, 40, 0, 0, 0, 0, 0, 3], 33), Ok(())),
        (
            insert(5, [6, 33, 0, 0, 0, 0, 0, 5], 26),
            Err(SetFault::Position),
        ),
        (section(4, 16, 0), Err(SetFault::Position)),
        (section(1, 1, 4), Ok(())),
        (section(1, 1, 4), Ok(())),
        (mark(0, Mark::Lowered), Err(SetFault::Resource)),
        (withdraw(0), Err(SetFault::Position)),
        (section(3, 16, 2), Ok(())),
        (
            insert(1, [4, 16, 0, 0, 0, 0, 0, 5], 11),
            Err(SetFault::Unserved),
        ),
        (mark(2, Mark::Lowered), Ok(())),
        (section(1, 2, 4), Ok(())),
        (
            insert(4, [1, 47, 1000001, 0, 0, 0, 0, 3], 12),
            Err(SetFault::Row(RowFault { entry: 3 })),
        ),
        (insert(1, [2, 28, 0, 0, 0, 0, 0, 3], 21), Ok(())),
    ];
    history(
        &rt,
        Jittered {
            below: Jittered { below: Plain },
        },
        Share::new(5, 6)?,
        &steps,
        &[(4, 14, 9), (0, 1, 9), (2, 2, 19), (0, 6, 19)],
        [(2, 1, 6), (2, 1, 6), (4, 3, 11)],
    );
    Ok(())
}

#[test]
fn replayed_into_lent_room(rt: HostRuntime) {
    let edits = [
        insert(1, [2, 10, 0, 0, 0, 0, 0, 0], 5),
        withdraw(2),
        mark(1, Mark::Kept),
    ];
    let mut answers = [Err(SetFault::Full); 4];
    match replay(Plain, Whole, &edits, &mut answers) {
        Some(set) => assert_eq!(rt; set.task(1), Ok((0, 3, 2))),
        None => assert!(rt; false),
    }
    assert_eq!(rt; answers[0], Ok(()));
    assert_eq!(rt; answers[1], Err(SetFault::Position));
    assert_eq!(rt; answers[2], Ok(()));
    assert_eq!(rt; answers[3], Err(SetFault::Full));
    match replay(Plain, Whole, &edits, &mut answers[..2]) {
        Some(_) => assert!(rt; false),
        None => assert_eq!(rt; answers[0], Ok(())),
    }
}

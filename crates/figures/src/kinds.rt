//! Figures of load kinds.
use super::checks::answers;
use loads::{Framed, Jittered, ListedKind, LoadKind, Plain, Row, RowFault};
use std::process::Abort;

/// Checks that the entry at fault is named in each row, and that each stands for no work.
fn faults<K: LoadKind>(rt: &impl Abort, kind: &K, expected: &[(Row, u64)]) {
    for (row, entry) in expected.iter() {
        assert_eq!(rt; kind.lawful(row), Err(RowFault { entry: *entry }));
        assert_eq!(rt; kind.request(row, 50), 0);
        assert_eq!(rt; kind.until(row, 50), 0);
        assert_eq!(rt; kind.longest(row), 0);
        assert_eq!(rt; kind.separation(row), 0);
    }
}

#[test]
fn plain(rt: HostRuntime) {
    let row = [2, 10, 0, 0, 0, 0, 0, 0];
    assert_eq!(rt; Plain.lawful(&row), Ok(()));
    assert_eq!(rt;
        Plain.lawful(&[1_000_000, 1_000_000, 0, 0, 0, 0, 0, 0]),
        Ok(())
    );
    assert_eq!(rt; (Plain.longest(&row), Plain.separation(&row)), (2, 10));
    answers(
        &rt,
        |t| Plain.request(&row, t),
        &[
            (0, 0),
            (1, 2),
            (10, 2),
            (11, 4),
            (21, 6),
            (2_000_000, 400_000),
            (5_000_000, 400_000),
        ],
    );
    answers(
        &rt,
        |t| Plain.until(&row, t),
        &[
            (0, 0),
            (1, 10),
            (11, 20),
            (2_000_000, 2_000_000),
            (5_000_000, 2_000_000),
        ],
    );
    answers(
        &rt,
        |t| Plain.until(&[1, 7, 0, 0, 0, 0, 0, 0], t),
        &[(7, 7), (8, 14), (1_999_999, 2_000_000)],
    );
    faults(
        &rt,
        &Plain,
        &[
            ([0, 10, 0, 0, 0, 0, 0, 0], 1),
            ([1_000_001, 0, 1, 0, 0, 0, 0, 0], 1),
            ([2, 0, 0, 0, 0, 0, 0, 1], 2),
            ([2, 1_000_001, 0, 0, 0, 0, 0, 0], 2),
            ([2, 10, 1, 0, 0, 1, 0, 0], 3),
            ([2, 10, 0, 0, 0, 0, 0, 1], 8),
        ],
    );
}

#[test]
fn framed(rt: HostRuntime) {
    let row = [10, 3, 4, 1, 2, 0, 0, 0];
    assert_eq!(rt; Framed.lawful(&row), Ok(()));
    assert_eq!(rt; (Framed.longest(&row), Framed.separation(&row)), (4, 10));
    answers(
        &rt,
        |t| Framed.request(&row, t),
        &[
            (0, 0),
            (10, 4),
            (11, 6),
            (21, 7),
            (31, 11),
            (2_000_000, 466_668),
        ],
    );
    answers(
        &rt,
        |t| Framed.until(&row, t),
        &[(0, 0), (11, 20), (2_000_000, 2_000_000)],
    );
    faults(
        &rt,
        &Framed,
        &[
            ([0, 3, 4, 1, 2, 0, 0, 0], 1),
            ([10, 0, 4, 1, 2, 0, 0, 0], 2),
            ([10, 6, 4, 1, 2, 0, 0, 1], 2),
            ([10, 18_446_744_073_709_551_615, 0, 0, 0, 0, 0, 0], 2),
            ([10, 3, 4, 0, 2, 0, 0, 0], 4),
            ([10, 3, 4, 1, 2, 1, 0, 0], 6),
            ([10, 5, 4, 1, 2, 1, 1_000_001, 0], 7),
            ([10, 5, 4, 1, 2, 1, 3, 1], 8),
        ],
    );
}

#[test]
fn jittered(rt: HostRuntime) {
    let kind = Jittered { below: Plain };
    let row = [2, 10, 0, 0, 0, 0, 0, 3];
    assert_eq!(rt; kind.lawful(&row), Ok(()));
    assert_eq!(rt; (kind.longest(&row), kind.separation(&row)), (2, 7));
    answers(
        &rt,
        |t| kind.request(&row, t),
        &[(0, 0), (1, 2), (7, 2), (8, 4), (17, 4), (18, 6)],
    );
    answers(
        &rt,
        |t| kind.until(&row, t),
        &[
            (0, 0),
            (1, 7),
            (8, 17),
            (1_999_987, 1_999_987),
            (1_999_988, 2_000_000),
            (3_000_000, 2_000_000),
        ],
    );
    assert_eq!(rt; kind.separation(&[2, 10, 0, 0, 0, 0, 0, 9]), 1);
    faults(
        &rt,
        &kind,
        &[
            ([2, 10, 0, 0, 0, 0, 0, 10], 8),
            ([2, 10, 0, 0, 0, 0, 0, 1_000_001], 8),
            ([0, 10, 0, 0, 0, 0, 0, 50], 1),
        ],
    );
    let pile = Jittered { below: kind };
    answers(&rt, |t| pile.request(&row, t), &[(0, 0), (7, 2), (8, 4)]);
    assert_eq!(rt; pile.separation(&row), 7);
}

#[test]
fn codes(rt: HostRuntime) {
    let pile = Jittered {
        below: Jittered { below: Framed },
    };
    assert_eq!(rt; (Plain.code(), Framed.code()), (1, 2));
    assert_eq!(rt; (Jittered { below: Plain }.code(), pile.code()), (11, 22));
}

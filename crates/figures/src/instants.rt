//! Figures of slack and first instants.
use analysis::Level;
use loads::{Framed, Jittered, LoadKind, Plain, Row};
use std::process::Abort;
use std::test::Fail;
use supplies::{Share, Supply, Whole};

const fn row(job: u64, period: u64, jitter: u64) -> Row {
    [job, period, 0, 0, 0, 0, 0, jitter]
}

/// Checks the slack and the first instant of a task with this longest job and deadline below the rows above it.
fn task<K: LoadKind, S: Supply>(
    rt: &impl Abort,
    kind: &K,
    supply: &S,
    above: &[Row],
    (longest, deadline): (u64, u64),
    (most, first): (i128, Option<u64>),
) {
    let level = Level {
        kind,
        supply,
        above,
    };
    assert_eq!(rt; level.slack(longest, deadline), most);
    assert_eq!(rt; level.first_instant(longest, deadline), first);
}

#[test]
fn on_the_whole_processor(rt: HostRuntime) {
    task(&rt, &Plain, &Whole, &[row(4, 10, 0)], (5, 11), (1, Some(9)));
    let level = Level {
        kind: &Plain,
        supply: &Whole,
        above: &[row(4, 10, 0)],
    };
    assert_eq!(rt; level.requested(11), 8);
    assert_eq!(rt; level.work(5, 11), 13);
    task(&rt, &Plain, &Whole, &[], (2, 5), (3, Some(2)));
    task(
        &rt,
        &Plain,
        &Whole,
        &[row(2, 10, 0), row(3, 15, 0)],
        (5, 30),
        (13, Some(10)),
    );
    task(
        &rt,
        &Plain,
        &Whole,
        &[row(2, 7, 0), row(3, 11, 0), row(1, 5, 0)],
        (4, 40),
        (4, Some(20)),
    );
    task(
        &rt,
        &Plain,
        &Whole,
        &[row(3, 5, 0), row(2, 6, 0)],
        (4, 12),
        (-4, None),
    );
    task(
        &rt,
        &Framed,
        &Whole,
        &[[10, 3, 4, 1, 2, 0, 0, 0], [7, 2, 1, 3, 0, 0, 0, 0]],
        (5, 40),
        (12, Some(18)),
    );
    let late = Jittered { below: Plain };
    task(
        &rt,
        &late,
        &Whole,
        &[row(2, 10, 3), row(3, 15, 4)],
        (5, 30),
        (9, Some(15)),
    );
    task(&rt, &late, &Whole, &[row(4, 10, 9)], (2, 12), (1, Some(10)));
}

#[test]
fn on_a_share(rt: HostRuntime) -> Result<(), Fail> {
    let Ok(share) = Share::new(4, 10) else {
        return Err(Fail::new("4 in 10 is a share"));
    };
    task(&rt, &Plain, &share, &[], (4, 16), (0, Some(16)));
    task(&rt, &Plain, &share, &[], (5, 16), (-1, None));
    task(
        &rt,
        &Plain,
        &share,
        &[row(1, 20, 0)],
        (6, 60),
        (11, Some(26)),
    );
    task(
        &rt,
        &Framed,
        &share,
        &[[25, 2, 2, 1, 0, 0, 0, 0]],
        (3, 50),
        (10, Some(23)),
    );
    Ok(())
}

#[test]
fn beyond_the_limits(rt: HostRuntime) {
    let unlawful = row(0, 10, 0);
    task(&rt, &Plain, &Whole, &[unlawful], (5, 11), (6, Some(5)));
    task(&rt, &Plain, &Whole, &[row(4, 10, 0)], (5, 0), (-8, None));
    task(
        &rt,
        &Plain,
        &Whole,
        &[],
        (5, 18_446_744_073_709_551_615),
        (999_995, Some(5)),
    );
    task(
        &rt,
        &Plain,
        &Whole,
        &[],
        (18_446_744_073_709_551_615, 10),
        (-18_446_744_073_709_551_605, None),
    );
}

//! Figures of supplies.
use super::checks::answers;
use std::test::Fail;
use supplies::{ListedSupply, Share, Supply, SupplyFault, Whole};

#[test]
fn whole(rt: HostRuntime) {
    answers(
        &rt,
        |t| Whole.supplied(t),
        &[
            (0, 0),
            (7, 7),
            (1_000_000, 1_000_000),
            (1_000_001, 1_000_000),
        ],
    );
    answers(
        &rt,
        |t| Whole.when(t),
        &[
            (0, Some(0)),
            (1_000_000, Some(1_000_000)),
            (1_000_001, None),
        ],
    );
    assert_eq!(rt; (Whole.code(), Whole.numbers()), (1, (0, 0)));
}

#[test]
fn share(rt: HostRuntime) -> Result<(), Fail> {
    let Ok(share) = Share::new(4, 10) else {
        return Err(Fail::new("4 in 10 is a share"));
    };
    answers(
        &rt,
        |t| share.supplied(t),
        &[
            (0, 0),
            (12, 0),
            (13, 1),
            (16, 4),
            (22, 4),
            (23, 5),
            (26, 8),
            (1_000_000, 399_996),
            (9_000_000, 399_996),
        ],
    );
    answers(
        &rt,
        |t| share.when(t),
        &[
            (0, Some(0)),
            (1, Some(13)),
            (4, Some(16)),
            (5, Some(23)),
            (399_996, Some(999_996)),
            (399_997, None),
        ],
    );
    assert_eq!(rt; (share.code(), share.numbers()), (2, (4, 10)));
    Ok(())
}

#[test]
fn share_of_all(rt: HostRuntime) -> Result<(), Fail> {
    let Ok(share) = Share::new(5, 5) else {
        return Err(Fail::new("5 in 5 is a share"));
    };
    answers(
        &rt,
        |t| share.supplied(t),
        &[(0, 0), (1, 1), (7, 7), (2_000_000, 1_000_000)],
    );
    answers(&rt, |t| share.when(t), &[(7, Some(7)), (1_000_001, None)]);
    Ok(())
}

#[test]
fn no_share(rt: HostRuntime) -> Result<(), Fail> {
    for (budget, period) in [
        (0, 5),
        (6, 5),
        (1, 1_000_001),
        (1_000_001, 1_000_001),
        (0, 0),
    ]
    .iter()
    {
        match Share::new(*budget, *period) {
            Ok(_) => return Err(Fail::new("this is no share")),
            Err(fault) => assert_eq!(rt; fault.number(), 9),
        }
    }
    assert_eq!(rt; SupplyFault::Share.number(), 9);
    Ok(())
}

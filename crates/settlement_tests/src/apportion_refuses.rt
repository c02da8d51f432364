// When `apportion` refuses, and which places it leaves as they were.
use crate::load::Load;
use apportion::{Unfit, apportion};

const ONE: Load = Load { mwh: 1 };

const FEW: Result<(), Unfit> = Err(Unfit::TooFewPlaces);

const LARGE: Result<(), Unfit> = Err(Unfit::TooLarge);

// a total, the loads, the answer, and what three places hold after it that held 7, 8 and 9 before
const ASKED: [(u64, &[Load], Result<(), Unfit>, [u64; 3]); 11] = [
    // no rows: nothing is written, whatever the total
    (5, &[], Ok(()), [7, 8, 9]),
    (u64::MAX, &[], Ok(()), [7, 8, 9]),
    // the places after the last row are kept
    (5, &[ONE], Ok(()), [5, 8, 9]),
    (5, &[ONE, ONE], Ok(()), [2, 3, 9]),
    // as many places as rows, and one too few
    (5, &[ONE, ONE, ONE], Ok(()), [1, 2, 2]),
    (5, &[ONE, ONE, ONE, ONE], FEW, [7, 8, 9]),
    // both faults: the places are told
    (u64::MAX, &[ONE, ONE, ONE, ONE], FEW, [7, 8, 9]),
    // total times weights 2^64 - 1, 2^64 - 2 and 2^64
    (u64::MAX, &[ONE], Ok(()), [u64::MAX, 8, 9]),
    (
        9_223_372_036_854_775_807,
        &[ONE, ONE],
        Ok(()),
        [4_611_686_018_427_387_903, 4_611_686_018_427_387_904, 9],
    ),
    (9_223_372_036_854_775_808, &[ONE, ONE], LARGE, [7, 8, 9]),
    (u64::MAX, &[ONE, ONE], LARGE, [7, 8, 9]),
];

#[test]
fn refusals_leave_every_place(rt: HostRuntime) {
    for (total, loads, answer, after) in ASKED {
        let mut places = [7, 8, 9];
        assert_eq!(rt;
            apportion(total, loads, &mut places),
            answer,
            "total {total}"
        );
        assert_eq!(rt; places, after, "total {total}");
    }
}

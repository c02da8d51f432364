// The sample hour under the three editions, one after the other.
use crate::sample::{STATED, sample_hour};
use crate::shown::{billed, check_lines};
use editions::before_nprr1149::BeforeNprr1149;
use editions::nprr1149::Nprr1149;
use editions::nprr1196::Nprr1196;
use running::issuing::issue_under;
use running::slots::Slots;
use std::test::Fail;
use terms::refusal::Refusal;

// Each restatement has the difference to what was stated before.
#[test]
fn worked_hour(rt: HostRuntime) -> Result<(), Fail> {
    let mut slots = Slots::<64, 256>::empty();
    let mut book = slots.open(7);
    sample_hour(&mut book)?;
    issue_under(&mut book, &BeforeNprr1149)?;
    check_lines(&book, STATED)?;
    issue_under(&mut book, &Nprr1149)?;
    check_lines(&book, [(1_800, 600), (0, 1_200)])?;
    issue_under(&mut book, &Nprr1196)?;
    check_lines(&book, [(0, 0), (0, 0)])?;
    assert_eq!(rt; billed(&book, 10, 'D')?, (9_500, 3_166));
    assert_eq!(rt; billed(&book, 20, 'D')?, (0, 6_334));
    assert_eq!(rt; billed(&book, 10, 'U')?, (0, 0));
    Ok(())
}

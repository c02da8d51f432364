// An hour in which nobody had load: charges stand, and are credited to nobody.
use crate::sample::sample_hour;
use crate::shown::{billed, check_lines};
use editions::before_nprr1149::BeforeNprr1149;
use running::issuing::issue_under;
use running::slots::Slots;
use std::test::Fail;
use terms::refusal::Refusal;

#[test]
fn no_loads(rt: HostRuntime) -> Result<(), Fail> {
    let mut slots = Slots::<2, 1>::empty();
    let mut book = slots.open(7);
    sample_hour(&mut book)?;
    book.enrol(10, 0)?;
    book.enrol(20, 0)?;
    issue_under(&mut book, &BeforeNprr1149)?;
    check_lines(&book, [(7_700, 0), (0, 0)])?;
    assert_eq!(rt; billed(&book, 10, 'D')?, (7_700, 0));
    assert_eq!(rt; billed(&book, 20, 'D')?, (0, 0));
    Ok(())
}

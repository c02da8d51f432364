// Prices that are corrected after the statement: a restatement has the difference, up or down.
use crate::sample::{CAPACITY, REG_DOWN, STATED, sample_hour};
use crate::shown::{billed, check_lines};
use book::book::Book;
use editions::before_nprr1149::BeforeNprr1149;
use market::prices::BareServicePrices;
use running::issuing::issue_under;
use running::slots::Slots;
use std::test::Fail;
use terms::refusal::Refusal;

#[derive(Clone, Copy)]
struct Corrected {
    sasm: u32,
    lines: [(i64, i64); 2],
    billed: [(u64, u64); 2],
}

const CORRECTED: [Corrected; 3] = [
    Corrected {
        sasm: 2_100,
        lines: [(360, 120), (0, 240)],
        billed: [(8_060, 2_686), (0, 5_374)],
    },
    Corrected {
        sasm: 1_900,
        lines: [(-720, -240), (0, -480)],
        billed: [(7_340, 2_446), (0, 4_894)],
    },
    Corrected {
        sasm: 1_900,
        lines: [(0, 0), (0, 0)],
        billed: [(7_340, 2_446), (0, 4_894)],
    },
];

// Issues the next statement with this price in Reg-Down.
fn restate(book: &mut Book, sasm: u32) -> Result<(), Refusal> {
    book.prices(REG_DOWN, BareServicePrices { sasm, ..CAPACITY })?;
    issue_under(book, &BeforeNprr1149)
}

#[test]
fn corrected_price(rt: HostRuntime) -> Result<(), Fail> {
    let mut slots = Slots::<64, 256>::empty();
    let mut book = slots.open(7);
    sample_hour(&mut book)?;
    issue_under(&mut book, &BeforeNprr1149)?;
    check_lines(&book, STATED)?;
    for corrected in CORRECTED {
        restate(&mut book, corrected.sasm)?;
        check_lines(&book, corrected.lines)?;
        assert_eq!(rt; billed(&book, 10, 'D')?, corrected.billed[0]);
        assert_eq!(rt; billed(&book, 20, 'D')?, corrected.billed[1]);
    }
    Ok(())
}

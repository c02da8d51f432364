// An hour that is restated after a corrected price and after corrected telemetry, worked by hand in docs/WORKED.md.
use crate::printed::add_statement;
use book::book::Book;
use checks::agree;
use editions::nprr1149::Nprr1149;
use feed::feed::feed;
use running::slots::Slots;
use std::test::Fail;

// what is fed before each statement, and how many groups that is
const STAGES: [(&[u32], usize); 3] = [
    (
        &[
            0x1000_003c,
            4, // QSE 60, load 4
            0x1000_003d,
            9, // QSE 61, load 9
            0x2000_003c,
            0,
            0,
            0,
            0,
            0,
            120,
            0,
            0,
            20,
            8,
            0, // QSE 60 in Reg-Up
            0x3000_0021,
            60,
            0,
            70,
            0,
            0,
            0,
            0,
            0,
            0, // resource 33 of QSE 60
            0x5000_0000,
            5000,
            3000,
            250, // prices of Reg-Up
        ],
        5,
    ),
    (&[0x5000_0000, 4100, 3000, 250], 1),
    (&[0x3000_0021, 60, 0, 95, 0, 0, 0, 0, 0, 0], 1),
];

const PRINTED: &[u8] =
    b"book 7\n60 U 21200 6523\n61 U 0 14677\ntotal 21200 21200\nbook 7\n60 U -3780 -1163\n61 U 0 -2617\ntotal -3780 -3780\nbook 7\n60 U -9020 -2776\n61 U 0 -6244\ntotal -9020 -9020\n";

// Feeds each stage and adds its statement to what is printed; answers how many bytes that are.
fn stated(book: &mut Book, out: &mut [u8]) -> Result<usize, Fail> {
    let room = out.len();
    let mut rest = out;
    for (words, groups) in STAGES {
        agree(feed(book, words), Ok(groups), "a feed")?;
        rest = add_statement(book, &Nprr1149, rest)?;
    }
    Ok(room.saturating_sub(rest.len()))
}

#[test]
fn restated(rt: HostRuntime) -> Result<(), Fail> {
    let mut slots = Slots::<64, 256>::empty();
    let mut book = slots.open(7);
    let mut out = [0u8; 1_000];
    let end = stated(&mut book, &mut out)?;
    assert!(rt; end <= 1_000);
    assert_eq!(rt; &out[0..end], PRINTED);
    let (charge, credit) = book.read(60, 'U')?;
    assert_eq!(rt; (charge.value, credit.value), (8_400, 2_584));
    Ok(())
}

// A table of feeds with what each prints: the sample hour, and every fault that a feed to a new book can have.
use crate::printed::printed;
use running::slots::Slots;
use std::test::Fail;

pub(crate) const SAMPLE: [u32; 33] = [
    0x1000_000a,
    1, // QSE 10, load 1
    0x1000_0014,
    2, // QSE 20, load 2
    0x2000_000a,
    1,
    0,
    0,
    0,
    0,
    100,
    0,
    0,
    36,
    10,
    0, // QSE 10 in Reg-Down
    0x3000_0064,
    10,
    0,
    0,
    50,
    0,
    0,
    0,
    0,
    0, // resource 100 of QSE 10
    0x5000_0001,
    1250,
    2000,
    500, // prices of Reg-Down
    0x6000_0000,
    6000,
    3000, // prices of the first interval
];

const NOTHING: &[u8] = b"book 7\ntotal 0 0\nbook 7\ntotal 0 0\nbook 7\ntotal 0 0\n";

const FEEDS: [(&[u32], &[u8]); 36] = [
    (&[], NOTHING),
    (
        &SAMPLE,
        b"book 7\n10 D 7700 2566\n20 D 0 5134\ntotal 7700 7700\nbook 7\n10 D 1800 600\n20 D 0 1200\ntotal 1800 1800\nbook 7\ntotal 0 0\n",
    ),
    // a row is struck, and a price taken back
    (
        &[
            0x1000_000a,
            1,
            0x3000_0064,
            10,
            0,
            0,
            50,
            0,
            0,
            0,
            0,
            0,
            0x4000_0064,
            0x5000_0001,
            9,
            9,
            9,
            0x5000_0001,
            0,
            0,
            0,
        ],
        NOTHING,
    ),
    // heads of kinds that there are not
    (&[0], b"fault 9 1 0\n"),
    (&[0x0fff_ffff], b"fault 9 1 0\n"),
    (&[0x7000_0001], b"fault 9 1 0\n"),
    (&[0x8000_0001], b"fault 9 1 0\n"),
    (&[0xffff_ffff], b"fault 9 1 0\n"),
    (&[0x1000_000a, 1, 0x7000_0001, 1], b"fault 9 1 2\n"),
    // groups cut short, also where a data word has another kind
    (&[0x1000_000a], b"fault 10 2 0\n"),
    (
        &[
            0x1000_000a,
            1,
            0x2000_000a,
            1,
            0,
            0,
            0,
            0,
            100,
            0,
            0,
            36,
            10,
        ],
        b"fault 10 2 2\n",
    ),
    (&[0x3000_0064, 10, 0, 0, 50, 0, 0, 0, 0], b"fault 10 2 0\n"),
    (&[0x5000_0001, 1250, 0x2000_0000], b"fault 10 2 0\n"),
    (&[0x6000_0000, 6000], b"fault 10 2 0\n"),
    // data words of another kind: the first one is named
    (&[0x1000_000a, 0x1000_0001], b"fault 11 2 1\n"),
    (
        &[0x1000_000a, 1, 0x1000_0014, 0xf000_0000],
        b"fault 11 2 3\n",
    ),
    (
        &[0x5000_0001, 1250, 0x2000_0000, 0x3000_0000],
        b"fault 11 2 2\n",
    ),
    (
        &[0x2000_000a, 1, 0, 0, 0, 0, 0, 0, 0, 0, 0, 0x1000_0000],
        b"fault 11 2 11\n",
    ),
    (
        &[0x3000_0064, 10, 0, 0, 50, 0, 0, 0, 0, 0x1000_0000],
        b"fault 11 2 9\n",
    ),
    // numbers outside 1 to 999,999
    (&[0x1000_0000, 1], b"fault 2 3 0\n"),
    (&[0x100f_4240, 20_001], b"fault 2 3 0\n"),
    (
        &[0x2000_0000, 9, 0, 0, 0, 0, 0, 0, 0, 0, 0, 0],
        b"fault 2 3 0\n",
    ),
    (&[0x3000_0064, 0, 3, 0, 50, 0, 0, 0, 0, 0], b"fault 2 3 0\n"),
    (&[0x4fff_ffff], b"fault 2 3 0\n"),
    // figures outside their values
    (&[0x1000_000a, 20_001], b"fault 3 3 0\n"),
    (
        &[0x2000_000a, 5, 0, 0, 0, 0, 0, 0, 0, 0, 0, 0],
        b"fault 3 3 0\n",
    ),
    (
        &[0x2000_000a, 4, 0, 0, 0, 0, 0, 0, 0, 0, 0, 20_001],
        b"fault 3 3 0\n",
    ),
    (
        &[0x3000_0064, 10, 3, 0, 50, 0, 0, 0, 0, 0],
        b"fault 3 3 0\n",
    ),
    (
        &[0x3000_0064, 10, 2, 0, 50, 0, 0, 0, 0, 3001],
        b"fault 3 3 0\n",
    ),
    (&[0x5000_0005, 0, 0, 0], b"fault 3 3 0\n"),
    (&[0x5000_0001, 0, 1_000_001, 0], b"fault 3 3 0\n"),
    (&[0x6000_0004, 0, 0], b"fault 3 3 0\n"),
    (&[0x6000_0003, 0, 500_001], b"fault 3 3 0\n"),
    // QSEs that are not enrolled, and an absent resource
    (
        &[0x1000_000a, 1, 0x2000_000b, 1, 0, 0, 0, 0, 0, 0, 0, 0, 0, 0],
        b"fault 4 3 2\n",
    ),
    (
        &[0x3000_0064, 10, 0, 0, 50, 0, 0, 0, 0, 0],
        b"fault 4 3 0\n",
    ),
    (&[0x1000_000a, 1, 0x4000_0064], b"fault 5 3 2\n"),
];

#[test]
fn feeds(rt: HostRuntime) -> Result<(), Fail> {
    for (words, expected) in FEEDS {
        let mut slots = Slots::<64, 256>::empty();
        let mut book = slots.open(7);
        let mut out = [0u8; 1_000];
        let end = printed(&mut book, words, &mut out)?;
        assert!(rt; end <= 1_000);
        assert_eq!(rt; &out[0..end], expected);
    }
    Ok(())
}

// Lines with the words that they make, lines that make none, and lines with what is wrong with them.
use packing::line::group_of;
use packing::pack::{GroupWords, packed};
use packing::wrong::Wrong;
use std::test::Fail;

const GIVEN: [(&str, &[u32]); 14] = [
    ("enrol 10 1", &[0x1000_000a, 1]),
    ("enrol 0 0", &[0x1000_0000, 0]),
    ("enrol 007 000000000042", &[0x1000_0007, 42]),
    (
        "quantities 20 E 1 2 3 4 5 6 7 8 9 10",
        &[0x2000_0014, 4, 1, 2, 3, 4, 5, 6, 7, 8, 9, 10],
    ),
    (
        "resource 100 10 2 11 12 13 14 15 16 17",
        &[0x3000_0064, 10, 2, 11, 12, 13, 14, 15, 16, 17],
    ),
    ("strike 999999", &[0x400f_423f]),
    ("prices U 1 2 3", &[0x5000_0000, 1, 2, 3]),
    ("prices D 1250 2000 500", &[0x5000_0001, 1250, 2000, 500]),
    ("prices R 1 2 3", &[0x5000_0002, 1, 2, 3]),
    ("prices N 1 2 3", &[0x5000_0003, 1, 2, 3]),
    ("interval 3 6000 3000", &[0x6000_0003, 6000, 3000]),
    // the largest figure, as a head's value and as data
    ("enrol 268435455 268435455", &[0x1fff_ffff, 0x0fff_ffff]),
    // tabs, spaces in front and behind, and a carriage return
    ("\t strike\t\t7 \r", &[0x4000_0007]),
    // a comment after the fields, with or without a space between
    ("enrol 10 1# the first # of two", &[0x1000_000a, 1]),
];

const BLANK: [&str; 6] = ["", " \t", "\r", "# a comment", "  # enrol 10 1", "#"];

const REFUSED: [(&str, Wrong); 24] = [
    ("enroll 10 1", Wrong::UnknownGroup),
    ("Enrol 10 1", Wrong::UnknownGroup),
    ("10 enrol 1", Wrong::UnknownGroup),
    ("issue", Wrong::UnknownGroup),
    ("enrol", Wrong::MissingField),
    ("enrol 10", Wrong::MissingField),
    ("enrol 10 # 1", Wrong::MissingField),
    ("quantities 10", Wrong::MissingField),
    ("quantities 10 D 1 2 3 4 5 6 7 8 9", Wrong::MissingField),
    ("resource 100 10 0 1 2 3 4 5 6", Wrong::MissingField),
    ("prices", Wrong::MissingField),
    ("enrol 10 1 2", Wrong::ExtraField),
    ("strike 1 x", Wrong::ExtraField),
    ("interval 0 6000 3000 0", Wrong::ExtraField),
    ("enrol 10 +1", Wrong::NotANumber),
    ("enrol 10 -1", Wrong::NotANumber),
    ("enrol 10 1.5", Wrong::NotANumber),
    ("enrol 10 1e3", Wrong::NotANumber),
    ("interval x 6000 3000", Wrong::NotANumber),
    ("enrol 10 268435456", Wrong::TooLarge),
    ("strike 4294967296", Wrong::TooLarge),
    ("strike 99999999999999999999999", Wrong::TooLarge),
    ("prices d 1 2 3", Wrong::NotALetter),
    ("quantities 10 DD 1 2 3 4 5 6 7 8 9 10", Wrong::NotALetter),
];

// The words of the group that a line holds.
fn words_of(line: &str) -> Result<GroupWords, Fail> {
    let group = group_of(line).map_err(|wrong| Fail::new(format_args!("{line}: {wrong:?}")))?;
    let Some(group) = group else {
        return Err(Fail::new(format_args!("{line}: no group")));
    };
    Ok(packed(&group))
}

#[test]
fn lines_make_their_words(rt: HostRuntime) -> Result<(), Fail> {
    for (line, words) in GIVEN {
        assert_eq!(rt; words_of(line)?.as_slice(), words, "{line}");
    }
    Ok(())
}

#[test]
fn blank_lines_make_none(rt: HostRuntime) -> Result<(), Fail> {
    for line in BLANK {
        assert!(rt; group_of(line)?.is_none(), "{line}");
    }
    Ok(())
}

#[test]
fn wrong_lines_say_what_is_wrong(rt: HostRuntime) {
    for (line, wrong) in REFUSED {
        assert_eq!(rt; group_of(line).err(), Some(wrong), "{line}");
    }
}

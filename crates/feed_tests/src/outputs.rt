// Where texts go: before any issue, into outputs of every length around the text's own, and a fault's line likewise.
use crate::feeds::SAMPLE;
use book::book::Book;
use checks::agree;
use editions::before_nprr1149::BeforeNprr1149;
use feed::feed::feed;
use running::issuing::issue_under;
use running::slots::Slots;
use statement::fault_line::fault_line;
use statement::length::length;
use statement::statement::text;
use std::test::Fail;
use terms::fault::{Fault, Layer};
use terms::refusal::Refusal;

const STATED: &[u8] = b"book 7\n10 D 7700 2566\n20 D 0 5134\ntotal 7700 7700\n";

const LINE: &[u8] = b"fault 13 2 18446744073709551615\n";

// the fault with the longest line
const FAULT: Fault = Fault {
    refusal: Refusal::OutputTooShort,
    layer: Layer::Groups,
    index: 18_446_744_073_709_551_615,
};

#[test]
fn before_any_issue(rt: HostRuntime) {
    let mut slots = Slots::<64, 256>::empty();
    let mut book = slots.open(7);
    assert_eq!(rt; feed(&mut book, &SAMPLE), Ok(6));
    let mut out = [7u8; 3];
    assert_eq!(rt; text(&book, &mut out), Err(Refusal::NothingIssued));
    assert_eq!(rt; length(&book), Err(Refusal::NothingIssued));
    assert_eq!(rt; out, [7, 7, 7]);
}

// An answer for a text of these bytes, and what the output then holds: the text and the rest as it was, or all as it was.
fn check_written(
    out: &[u8],
    room: usize,
    answer: Result<usize, Refusal>,
    written: &[u8],
) -> Result<(), Fail> {
    let bytes = written.len();
    let fits = bytes <= room;
    let expected = if fits {
        Ok(bytes)
    } else {
        Err(Refusal::OutputTooShort)
    };
    agree(
        answer,
        expected,
        format_args!("room {room} for {bytes} bytes"),
    )?;
    for (place, byte) in out.iter().enumerate() {
        let expected = match written.get(place) {
            Some(expected) if fits => *expected,
            _ => 7,
        };
        agree(
            *byte,
            expected,
            format_args!("room {room} for {bytes} bytes, at {place}"),
        )?;
    }
    Ok(())
}

// The text of the sample's first statement into so many bytes of an output.
fn check_text(book: &Book, room: usize, out: &mut [u8]) -> Result<(), Fail> {
    let answer = text(book, out.get_mut(..room).ok_or("not so much room")?);
    check_written(out, room, answer, STATED)
}

// The longest line of a fault likewise.
fn check_line(room: usize, out: &mut [u8]) -> Result<(), Fail> {
    let answer = fault_line(&FAULT, out.get_mut(..room).ok_or("not so much room")?);
    check_written(out, room, answer, LINE)
}

#[test]
fn every_room(rt: HostRuntime) -> Result<(), Fail> {
    let mut slots = Slots::<64, 256>::empty();
    let mut book = slots.open(7);
    assert_eq!(rt; feed(&mut book, &SAMPLE), Ok(6));
    issue_under(&mut book, &BeforeNprr1149)?;
    for room in 0..60usize {
        check_text(&book, room, &mut [7; 60])?;
        check_line(room, &mut [7; 60])?;
    }
    Ok(())
}

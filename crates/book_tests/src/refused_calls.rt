// Refused calls in the middle of a history: each is told by its refusal, and leaves the book as it was.
ghost use Rattle.std.specs.Iterator.{IsFinite};
ghost use Rattle.book_tests.specs.Open.{Rests};

use crate::drafts::{issue_open, second_draft};
use crate::sample::{STATED, sample_hour};
use crate::settings::{LAWFUL, REFUSED, Setting, set};
use crate::shown::{billed, check_lines, fingerprint};
use book::book::Book;
use checks::agree;
use editions::before_nprr1149::BeforeNprr1149;
use editions::nprr1149::Nprr1149;
use running::issuing::issue_under;
use running::slots::Slots;
use std::test::Fail;
use terms::refusal::Refusal;

// a QSE, a letter and the refusal to read; of two faults the first is told
const UNREAD: [(u32, char, Refusal); 5] = [
    (0, 'D', Refusal::NumberOutOfRange),
    (1_000_000, 'X', Refusal::NumberOutOfRange),
    (10, 'X', Refusal::FigureOutOfRange),
    (30, 'd', Refusal::FigureOutOfRange),
    (30, 'D', Refusal::NotEnrolled),
];

fn check_unread(book: &Book) -> Result<(), Fail> {
    for (qse, letter, refusal) in UNREAD {
        agree(
            billed(book, qse, letter),
            Err(refusal),
            format_args!("QSE {qse}, letter {letter}"),
        )?;
    }
    Ok(())
}

fn check_refused(book: &mut Book) -> Result<(), Fail> {
    let before = fingerprint(book);
    for (setting, refusal) in REFUSED {
        agree(set(book, setting), Err(refusal), "a call")?;
        agree(
            fingerprint(book),
            before,
            format_args!("the accounts after {refusal:?}"),
        )?;
    }
    Ok(())
}

#[test]
fn refused_calls(rt: HostRuntime) -> Result<(), Fail> {
    // as many slots as the sample hour takes
    let mut slots = Slots::<2, 1>::empty();
    let mut book = slots.open(7);
    sample_hour(&mut book)?;
    issue_under(&mut book, &BeforeNprr1149)?;
    check_refused(&mut book)?;
    check_unread(&book)?;
    check_lines(&book, STATED)?;
    assert_eq!(rt; billed(&book, 10, 'D')?, (7_700, 2_566));
    // this edition looks at rows and prices alike: they are as before
    issue_under(&mut book, &Nprr1149)?;
    check_lines(&book, [(1_800, 600), (0, 1_200)])
}

// Whether an open draft is told by each of these calls, before every other fault.
fn all_rest<I: Iterator<Item = Setting> + Drop>(book: &mut Book, settings: I) -> bool
    requires can { I.can_next settings }
    requires ends { IsFinite (I.remaining settings) }
    ensures rests { Rests book.old book.new }
{
    // no fold: what its closure leaves of the book stays an open goal (`returns`)
    let mut rest = true;
    for setting in settings {
        rest &= set(book, setting) == Err(Refusal::DraftOpen);
    }
    rest
}

// Whether every call was refused while the draft was open and left the accounts, and the refusal of a second draft.
fn while_drafted(book: &mut Book) -> Result<(bool, Refusal), Refusal> {
    let draft = book.draft(&BeforeNprr1149)?;
    let before = fingerprint(book);
    let lawful = all_rest(book, LAWFUL.into_iter());
    let faulty = all_rest(book, REFUSED.into_iter().map(|(setting, _)| setting));
    let second = second_draft(book, &BeforeNprr1149);
    let same = fingerprint(book) == before;
    issue_open(book, draft);
    Ok((lawful && faulty && same, second))
}

#[test]
fn refused_while_drafted(rt: HostRuntime) -> Result<(), Fail> {
    let mut slots = Slots::<64, 256>::empty();
    let mut book = slots.open(7);
    sample_hour(&mut book)?;
    let (refused, second) = while_drafted(&mut book)?;
    assert!(rt; refused);
    assert_eq!(rt; second, Refusal::DraftOpen);
    check_lines(&book, STATED)?;
    // the draft is closed, so the same calls are taken
    for setting in LAWFUL {
        set(&mut book, setting)?;
    }
    Ok(())
}

// Drafts in two books: a draft carries its book's number alone.
ghost use Rattle.book.specs.View.{HandsBack};

use crate::drafts::issue_open;
use crate::sample::{STATED, sample_hour};
use crate::shown::{check_lines, fingerprint};
use book::book::Book;
use book::draft::Draft;
use checks::agree;
use editions::before_nprr1149::BeforeNprr1149;
use running::slots::Slots;
use std::test::Fail;
use terms::refusal::Refusal;

// What another book says to an issue or a drop of this book's draft; one that it hands back is issued here.
fn ended_elsewhere<F>(own: &mut Book, end: F) -> Result<Option<Refusal>, Refusal>
where
    F: FnOnce(Draft) -> Result<(), (Refusal, Draft)>,
    requires callable { F.IsAlwaysCallable end }
    requires back { (draft : _) (answer : _) → F.post end draft answer → HandsBack draft answer }
{
    let draft = own.draft(&BeforeNprr1149)?;
    match end(draft) {
        Ok(()) => Ok(None),
        Err((refusal, back)) => {
            issue_open(own, back);
            Ok(Some(refusal))
        }
    }
}

// What another book says to a preview of this book's draft.
fn previewed_elsewhere(
    own: &mut Book,
    other: &Book,
) -> Result<Result<(i64, i64), Refusal>, Refusal> {
    let draft = own.draft(&BeforeNprr1149)?;
    let previewed = other.preview(&draft, 10, 'D');
    issue_open(own, draft);
    Ok(previewed)
}

// The other book refuses the draft and stays as it was; its own book issues it.
fn check_refused(own: &mut Book, other: &mut Book, refusal: Refusal) -> Result<(), Fail> {
    let before = fingerprint(other);
    agree(
        ended_elsewhere(own, |draft| other.issue(draft))?,
        Some(refusal),
        "issued elsewhere",
    )?;
    check_lines(own, STATED)?;
    agree(
        ended_elsewhere(own, |draft| other.drop(draft))?,
        Some(refusal),
        "dropped elsewhere",
    )?;
    check_lines(own, [(0, 0), (0, 0)])?;
    agree(
        previewed_elsewhere(own, other)?,
        Err(refusal),
        "previewed elsewhere",
    )?;
    agree(fingerprint(other), before, "the other book")
}

// Two books of the sample hour with these numbers.
fn check_two_books(own: u32, other: u32, refusal: Refusal) -> Result<(), Fail> {
    let mut slots = Slots::<2, 1>::empty();
    let mut own = slots.open(own);
    sample_hour(&mut own)?;
    let mut slots = Slots::<2, 1>::empty();
    let mut other = slots.open(other);
    sample_hour(&mut other)?;
    check_refused(&mut own, &mut other, refusal)
}

#[test]
fn other_number() -> Result<(), Fail> {
    check_two_books(7, 8, Refusal::OtherBook)
}

// The other book of the same number has no draft open.
#[test]
fn no_draft_open() -> Result<(), Fail> {
    check_two_books(7, 7, Refusal::NoDraft)
}

// Each book issues the other's draft, if it takes it; whether both did.
fn exchanged(one: &mut Book, two: &mut Book) -> Result<bool, Refusal> {
    let first = one.draft(&BeforeNprr1149)?;
    match two.draft(&BeforeNprr1149) {
        Err(refusal) => {
            issue_open(one, first);
            Err(refusal)
        }
        Ok(second) => match one.issue(second) {
            Ok(()) => {
                issue_open(two, first);
                Ok(true)
            }
            Err((_, back)) => {
                issue_open(two, back);
                issue_open(one, first);
                Ok(false)
            }
        },
    }
}

// A draft serves any book of its number that has one open.
#[test]
fn same_number(rt: HostRuntime) -> Result<(), Fail> {
    let mut slots = Slots::<2, 1>::empty();
    let mut one = slots.open(7);
    sample_hour(&mut one)?;
    let mut slots = Slots::<2, 1>::empty();
    let mut two = slots.open(7);
    sample_hour(&mut two)?;
    assert!(rt; exchanged(&mut one, &mut two)?);
    check_lines(&one, STATED)?;
    check_lines(&two, STATED)
}

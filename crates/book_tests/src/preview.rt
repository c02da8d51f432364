// A preview says what the issue then states; a dropped draft states nothing.
use crate::drafts::{drop_open, drop_under, issue_open};
use crate::sample::{STATED, sample_hour};
use crate::shown::{billed, check_lines};
use book::book::Book;
use book::draft::Draft;
use editions::before_nprr1149::BeforeNprr1149;
use running::slots::Slots;
use std::test::Fail;
use terms::refusal::Refusal;

type Previewed = Result<(i64, i64), Refusal>;

// the answers to what is asked wrongly
const REFUSED: [Previewed; 4] = [
    Err(Refusal::NumberOutOfRange),
    Err(Refusal::FigureOutOfRange),
    Err(Refusal::NotEnrolled),
    Err(Refusal::NumberOutOfRange),
];

fn both_qses(book: &Book, draft: &Draft) -> [Previewed; 2] {
    [book.preview(draft, 10, 'D'), book.preview(draft, 20, 'D')]
}

fn asked_wrongly(book: &Book, draft: &Draft) -> [Previewed; 4] {
    [
        book.preview(draft, 0, 'D'),
        book.preview(draft, 10, 'X'),
        book.preview(draft, 30, 'D'),
        // the number is looked at first
        book.preview(draft, 1_000_000, 'X'),
    ]
}

fn issued(book: &mut Book) -> Result<[Previewed; 2], Refusal> {
    let draft = book.draft(&BeforeNprr1149)?;
    let previewed = both_qses(book, &draft);
    issue_open(book, draft);
    Ok(previewed)
}

fn dropped(book: &mut Book) -> Result<([Previewed; 2], [Previewed; 4]), Refusal> {
    let draft = book.draft(&BeforeNprr1149)?;
    let previewed = both_qses(book, &draft);
    let refused = asked_wrongly(book, &draft);
    drop_open(book, draft);
    Ok((previewed, refused))
}

#[test]
fn preview(rt: HostRuntime) -> Result<(), Fail> {
    let mut slots = Slots::<64, 256>::empty();
    let mut book = slots.open(7);
    sample_hour(&mut book)?;
    let previewed = issued(&mut book)?;
    assert_eq!(rt; previewed, [Ok(STATED[0]), Ok(STATED[1])]);
    check_lines(&book, STATED)?;
    let (settled, refused) = dropped(&mut book)?;
    assert_eq!(rt; settled, [Ok((0, 0)), Ok((0, 0))]);
    assert_eq!(rt; refused, REFUSED);
    check_lines(&book, STATED)
}

#[test]
fn dropped_draft(rt: HostRuntime) -> Result<(), Fail> {
    let mut slots = Slots::<64, 256>::empty();
    let mut book = slots.open(7);
    sample_hour(&mut book)?;
    drop_under(&mut book, &BeforeNprr1149)?;
    check_lines(&book, [(0, 0), (0, 0)])?;
    assert_eq!(rt; billed(&book, 10, 'D')?, (0, 0));
    // what was dropped is settled anew
    let previewed = issued(&mut book)?;
    assert_eq!(rt; previewed, [Ok(STATED[0]), Ok(STATED[1])]);
    Ok(())
}

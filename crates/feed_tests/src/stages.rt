// Feeds one after the other: what came before a fault stays in force, and an open draft turns a feed away.
ghost use Rattle.std.specs.Prelude.{IfOk};
ghost use Rattle.feed_tests.specs.Open.{Takes};

use crate::feeds::SAMPLE;
use book::book::Book;
use book::draft::Draft;
use editions::before_nprr1149::BeforeNprr1149;
use editions::edition::Edition;
use feed::feed::feed;
use running::slots::Slots;
use std::test::Fail;
use terms::fault::{Fault, Layer};
use terms::refusal::Refusal;

#[test]
fn earlier_groups_stay(rt: HostRuntime) {
    let mut slots = Slots::<64, 256>::empty();
    let mut book = slots.open(7);
    let fault = Fault {
        refusal: Refusal::UnknownHead,
        layer: Layer::Words,
        index: 4,
    };
    let cut = [0x1000_000a, 1, 0x1000_0014, 2, 0x9000_0000];
    assert_eq!(rt; feed(&mut book, &cut), Err(fault));
    assert_eq!(rt; book.accounts().len(), 2);
    // a known QSE takes no second slot
    assert_eq!(rt; feed(&mut book, &[0x1000_0014, 3]), Ok(1));
    assert_eq!(rt; book.accounts().len(), 2);
    assert_eq!(rt; feed(&mut book, &SAMPLE), Ok(6));
}

// Takes a draft, which this book then takes back.
fn draft_under<E: Edition>(book: &mut Book, edition: &E) -> Result<Draft, Refusal>
    ensures takes { IfOk result (λ d. Takes book.new d) }
{
    book.draft(edition)
}

// Drops a draft that the book takes.
fn drop_open(book: &mut Book, draft: Draft)
    requires takes { Takes book.old draft }
{
    match book.drop(draft) {
        Ok(()) => {}
        Err(_) => unreachable(),
    }
}

// What a feed answers while a draft is open, which is dropped afterwards.
fn fed_while_drafted(book: &mut Book) -> Result<Result<usize, Fault>, Refusal> {
    let draft = draft_under(book, &BeforeNprr1149)?;
    let answer = feed(book, &SAMPLE);
    drop_open(book, draft);
    Ok(answer)
}

#[test]
fn rows_rest_while_drafted(rt: HostRuntime) -> Result<(), Fail> {
    let mut slots = Slots::<64, 256>::empty();
    let mut book = slots.open(7);
    let fault = Fault {
        refusal: Refusal::DraftOpen,
        layer: Layer::Book,
        index: 0,
    };
    assert_eq!(rt; fed_while_drafted(&mut book)?, Err(fault));
    assert_eq!(rt; book.accounts().len(), 0);
    Ok(())
}

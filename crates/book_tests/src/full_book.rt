// A book with every slot taken.
use crate::sample::{CAPACITY, FAILED, REAL_TIME, TELEMETERED};
use crate::shown::{billed, totals};
use book::book::Book;
use checks::{agree, holds};
use editions::before_nprr1149::BeforeNprr1149;
use editions::nprr1196::Nprr1196;
use history::account::Account;
use market::quantities::BareQuantities;
use market::resource::ResourceRow;
use running::issuing::issue_under;
use running::slots::Slots;
use std::test::Fail;
use terms::refusal::Refusal;

const FULL: Result<(), Refusal> = Err(Refusal::NoFreeSlot);

// QSEs 1 to 64, each with load and a failure in one service.
fn enrol_64(book: &mut Book) -> Result<(), Refusal> {
    for i in 0..64 {
        book.enrol(1 + i, i % 7)?;
        let failed = BareQuantities {
            fq: 10 * i,
            ..FAILED
        };
        book.quantities(1 + i, i % 5, failed)?;
    }
    Ok(())
}

// Resources 1 to 256, four of each QSE and of every class.
fn enter_256(book: &mut Book) -> Result<(), Refusal> {
    for i in 0..256 {
        book.enter(1 + i, 1 + i % 64, i % 3, TELEMETERED)?;
    }
    Ok(())
}

fn set_prices(book: &mut Book) -> Result<(), Refusal> {
    for service in 0..5 {
        book.prices(service, CAPACITY)?;
    }
    for interval in 0..4 {
        book.interval(interval, REAL_TIME)?;
    }
    Ok(())
}

// A new row finds no slot; a known one is replaced, and a struck one makes room.
fn no_more_rows(book: &mut Book) -> Result<(), Fail> {
    agree(book.enrol(65, 1), FULL, "QSE 65")?;
    agree(book.enter(257, 1, 0, TELEMETERED), FULL, "resource 257")?;
    book.enrol(64, 9)?;
    book.enter(256, 1, 2, TELEMETERED)?;
    book.strike(100)?;
    book.enter(257, 1, 0, TELEMETERED)?;
    agree(book.enter(100, 1, 0, TELEMETERED), FULL, "resource 100")
}

// Every charge is credited to somebody.
fn check_balance(book: &Book) -> Result<(), Fail> {
    let (charges, credits) = totals(book);
    holds(charges > 0, format_args!("charges of {charges}"))?;
    agree(charges, credits, "charges against credits")
}

#[test]
fn full_book(rt: HostRuntime) -> Result<(), Fail> {
    // lent slots beyond 64 and 256 go unused
    let mut slots = Slots::<70, 260>::empty();
    let mut book = slots.open(7);
    enrol_64(&mut book)?;
    enter_256(&mut book)?;
    set_prices(&mut book)?;
    no_more_rows(&mut book)?;
    assert_eq!(rt; book.accounts().len(), 64);
    issue_under(&mut book, &BeforeNprr1149)?;
    check_balance(&book)?;
    issue_under(&mut book, &Nprr1196)?;
    check_balance(&book)
}

#[test]
fn one_slot(rt: HostRuntime) -> Result<(), Fail> {
    let mut slots = Slots::<1, 1>::empty();
    let mut book = slots.open(7);
    book.enrol(10, 1)?;
    book.enter(100, 10, 0, TELEMETERED)?;
    assert_eq!(rt; book.enrol(20, 1), FULL);
    assert_eq!(rt; book.enter(101, 10, 0, TELEMETERED), FULL);
    book.strike(100)?;
    book.enter(101, 10, 0, TELEMETERED)?;
    assert_eq!(rt; book.strike(100), Err(Refusal::NoSuchResource));
    Ok(())
}

#[test]
fn no_slots(rt: HostRuntime) -> Result<(), Fail> {
    let mut slots = Slots::<0, 0>::empty();
    let mut book = slots.open(7);
    assert_eq!(rt; book.enrol(10, 1), FULL);
    issue_under(&mut book, &BeforeNprr1149)?;
    assert_eq!(rt; book.accounts().len(), 0);
    Ok(())
}

// What lies in the slots when they are lent is no part of the book.
#[test]
fn used_slots(rt: HostRuntime) {
    let mut slots = Slots {
        qses: [Account::new(10, 1); 2],
        resources: [ResourceRow::empty(); 1],
    };
    let mut book = slots.open(7);
    assert_eq!(rt; book.accounts().len(), 0);
    assert_eq!(rt; billed(&book, 10, 'D'), Err(Refusal::NotEnrolled));
    assert_eq!(rt;
        book.enter(100, 10, 0, TELEMETERED),
        Err(Refusal::NotEnrolled)
    );
}

// The longest lines: 64 QSEs of six digits, each charged the most in every service, and all of it taken back.
ghost use Rattle.feed_tests.specs.Greatest.{greatest};

use crate::printed::fingerprint;
use book::book::Book;
use checks::{agree, holds};
use editions::before_nprr1149::BeforeNprr1149;
use editions::edition::Edition;
use market::figures::Figures;
use market::prices::Prices;
use market::quantities::Quantities;
use market::units::{Cents, SignedTenths};
use running::issuing::issue_under;
use running::slots::Slots;
use statement::length::length;
use statement::statement::text;
use std::test::Fail;
use terms::class::Class;
use terms::refusal::Refusal;
use terms::service::Service;

struct Greatest;

impl Edition for Greatest {
    ghost meaning = { λ _. greatest };

    fn counted(&self, _service: Service, _class: Class, _figures: &Figures) -> SignedTenths<3_000> {
        SignedTenths { value: 0 }
    }

    fn charge(
        &self,
        _service: Service,
        _quantities: &Quantities,
        _counted: SignedTenths<768_000>,
        _prices: &Prices,
    ) -> Cents<100_000_000_000> {
        Cents {
            value: 100_000_000_000,
        }
    }
}

fn enrol_all(book: &mut Book) -> Result<(), Refusal> {
    for qse in 999_936..1_000_000u32 {
        book.enrol(qse, 20_000)?;
    }
    Ok(())
}

// The last statement into so many bytes of an output, of which the others are 7.
fn into_room(book: &Book, room: usize, out: &mut [u8]) -> Result<Result<usize, Refusal>, Fail> {
    Ok(text(book, out.get_mut(..room).ok_or("not so much room")?))
}

fn fingerprint_of_first(out: &[u8], count: usize) -> Result<u64, Fail> {
    Ok(fingerprint(out.get(..count).ok_or("not so many bytes")?))
}

// The last statement has this length and fingerprint; a byte less of room is refused, and leaves all as it was.
fn check_text(book: &Book, bytes: usize, print: u64, out: &mut [u8]) -> Result<(), Fail> {
    let most = length(book)?;
    holds(
        bytes <= most,
        format_args!("{bytes} bytes, but at most {most} foretold"),
    )?;
    holds(most <= 12_300, format_args!("{most} bytes foretold"))?;
    agree(
        into_room(book, bytes.saturating_sub(1), out)?,
        Err(Refusal::OutputTooShort),
        format_args!("a byte less of room than {bytes}"),
    )?;
    agree(
        fingerprint(out),
        UNTOUCHED,
        format_args!("the output with too little room for {bytes} bytes"),
    )?;
    agree(into_room(book, bytes, out)?, Ok(bytes), "just as much room")?;
    agree(
        fingerprint_of_first(out, bytes)?,
        print,
        format_args!("the {bytes} bytes of the text"),
    )
}

// The fingerprint of 12,300 bytes 7.
const UNTOUCHED: u64 = 1337472417662314313;

#[test]
fn longest() -> Result<(), Fail> {
    let mut slots = Slots::<64, 256>::empty();
    let mut book = slots.open(4_294_967_295);
    enrol_all(&mut book)?;
    issue_under(&mut book, &Greatest)?;
    check_text(&book, 11252, 11975713403484959175, &mut [7; 12_300])?;
    issue_under(&mut book, &BeforeNprr1149)?;
    check_text(&book, 11894, 2271827892844006265, &mut [7; 12_300])
}

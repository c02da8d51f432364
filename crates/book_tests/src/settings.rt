// The calls that set something, as rows of a table, and those that are refused in the sample hour.
ghost use Rattle.book_tests.specs.Open.{Rests};

use crate::sample::{CAPACITY, FAILED, REAL_TIME, REG_DOWN, TELEMETERED};
use book::book::Book;
use market::figures::BareFigures;
use market::prices::{BareIntervalPrices, BareServicePrices};
use market::quantities::BareQuantities;
use terms::refusal::Refusal;

// Not a table of functions: a pointer to one that takes a `&mut Book` is refused ("the type of the parameter `call` is
// not supported"), since a book holds loans.
#[derive(Clone, Copy)]
pub(crate) enum Setting {
    Enrol(u32, u32),
    Quantities(u32, u32, BareQuantities),
    Enter(u32, u32, u32, BareFigures),
    Strike(u32),
    Prices(u32, BareServicePrices),
    Interval(u32, BareIntervalPrices),
}

const LARGE_FAILURE: BareQuantities = BareQuantities {
    fq: 20_001,
    ..FAILED
};

const LARGE_LOAD: BareFigures = BareFigures {
    npf: 3_001,
    ..TELEMETERED
};

const LARGE_PRICE: BareServicePrices = BareServicePrices {
    dam: 1_000_001,
    ..CAPACITY
};

const LARGE_ADDER: BareIntervalPrices = BareIntervalPrices {
    rtrdp: 500_001,
    ..REAL_TIME
};

// in the sample hour with no slot free, where QSE 30 and resource 101 are unknown; of two faults the first is told
pub(crate) const REFUSED: [(Setting, Refusal); 26] = [
    (Setting::Enrol(0, 1), Refusal::NumberOutOfRange),
    (Setting::Enrol(1_000_000, 1), Refusal::NumberOutOfRange),
    (Setting::Enrol(30, 20_001), Refusal::FigureOutOfRange),
    (Setting::Enrol(10, 20_001), Refusal::FigureOutOfRange),
    (Setting::Enrol(0, 20_001), Refusal::NumberOutOfRange),
    (Setting::Enrol(30, 1), Refusal::NoFreeSlot),
    (Setting::Quantities(0, 5, FAILED), Refusal::NumberOutOfRange),
    (
        Setting::Quantities(10, 5, FAILED),
        Refusal::FigureOutOfRange,
    ),
    (
        Setting::Quantities(10, REG_DOWN, LARGE_FAILURE),
        Refusal::FigureOutOfRange,
    ),
    (
        Setting::Quantities(30, REG_DOWN, LARGE_FAILURE),
        Refusal::FigureOutOfRange,
    ),
    (
        Setting::Quantities(30, REG_DOWN, FAILED),
        Refusal::NotEnrolled,
    ),
    (
        Setting::Enter(0, 10, 0, TELEMETERED),
        Refusal::NumberOutOfRange,
    ),
    (
        Setting::Enter(100, 0, 3, TELEMETERED),
        Refusal::NumberOutOfRange,
    ),
    (
        Setting::Enter(100, 10, 3, TELEMETERED),
        Refusal::FigureOutOfRange,
    ),
    (
        Setting::Enter(100, 10, 0, LARGE_LOAD),
        Refusal::FigureOutOfRange,
    ),
    (
        Setting::Enter(100, 30, 0, LARGE_LOAD),
        Refusal::FigureOutOfRange,
    ),
    (
        Setting::Enter(100, 30, 0, TELEMETERED),
        Refusal::NotEnrolled,
    ),
    (
        Setting::Enter(101, 30, 0, TELEMETERED),
        Refusal::NotEnrolled,
    ),
    (Setting::Enter(101, 10, 0, TELEMETERED), Refusal::NoFreeSlot),
    (Setting::Strike(0), Refusal::NumberOutOfRange),
    (Setting::Strike(101), Refusal::NoSuchResource),
    (Setting::Prices(5, CAPACITY), Refusal::FigureOutOfRange),
    (
        Setting::Prices(REG_DOWN, LARGE_PRICE),
        Refusal::FigureOutOfRange,
    ),
    (Setting::Interval(4, REAL_TIME), Refusal::FigureOutOfRange),
    (Setting::Interval(0, LARGE_ADDER), Refusal::FigureOutOfRange),
    (Setting::Interval(4, LARGE_ADDER), Refusal::FigureOutOfRange),
];

// what the sample hour takes while no draft is open
pub(crate) const LAWFUL: [Setting; 6] = [
    Setting::Enrol(10, 5),
    Setting::Quantities(20, REG_DOWN, FAILED),
    Setting::Enter(101, 20, 1, TELEMETERED),
    Setting::Strike(100),
    Setting::Prices(0, CAPACITY),
    Setting::Interval(3, REAL_TIME),
];

// Makes the call; while a draft is open nothing is set.
pub(crate) fn set(book: &mut Book, setting: Setting) -> Result<(), Refusal>
    ensures rests { Rests book.old book.new }
{
    match setting {
        Setting::Enrol(qse, load) => book.enrol(qse, load),
        Setting::Quantities(qse, service, ten) => book.quantities(qse, service, ten),
        Setting::Enter(resource, qse, class, figures) => book.enter(resource, qse, class, figures),
        Setting::Strike(resource) => book.strike(resource),
        Setting::Prices(service, prices) => book.prices(service, prices),
        Setting::Interval(interval, prices) => book.interval(interval, prices),
    }
}

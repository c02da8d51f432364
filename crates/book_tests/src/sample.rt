// The sample hour: two QSEs, of which one failed in Reg-Down.
use book::book::Book;
use market::figures::BareFigures;
use market::prices::{BareIntervalPrices, BareServicePrices};
use market::quantities::BareQuantities;
use terms::refusal::Refusal;
use terms::service::ByService;

pub(crate) const REG_DOWN: u32 = 1;

pub(crate) const FAILED: BareQuantities = BareQuantities {
    dasa: 0,
    rtsa: 0,
    trs: 0,
    rtpc: 0,
    pc: 100,
    ruc: 0,
    trp: 0,
    fq: 36,
    rfq: 10,
    inf: 0,
};

pub(crate) const TELEMETERED: BareFigures = BareFigures {
    telemetered: ByService {
        up: 0,
        down: 50,
        responsive: 0,
        nonspin: 0,
        ecrs: 0,
    },
    npf: 0,
    lpc: 0,
};

pub(crate) const CAPACITY: BareServicePrices = BareServicePrices {
    dam: 1_250,
    sasm: 2_000,
    rsasm: 500,
};

pub(crate) const REAL_TIME: BareIntervalPrices = BareIntervalPrices {
    rtrsvpor: 6_000,
    rtrdp: 3_000,
};

// what a statement of the sample before NPRR1149 has for each QSE in Reg-Down
pub(crate) const STATED: [(i64, i64); 2] = [(7_700, 2_566), (0, 5_134)];

pub(crate) fn sample_hour(book: &mut Book) -> Result<(), Refusal> {
    book.enrol(10, 1)?;
    book.enrol(20, 2)?;
    book.quantities(10, REG_DOWN, FAILED)?;
    book.enter(100, 10, 0, TELEMETERED)?;
    book.prices(REG_DOWN, CAPACITY)?;
    book.interval(0, REAL_TIME)
}

// Every check takes its greatest lawful figure, and refuses the next one by the right refusal.
use crate::uniform::NO_QUANTITIES;
use market::figures::{BareFigures, Figures};
use market::number::{QseNumber, ResourceNumber};
use market::prices::{BareIntervalPrices, BareServicePrices, IntervalPrices, ServicePrices};
use market::qse::{Qse, QseRow};
use market::quantities::{BareQuantities, Quantities};
use market::resource::{Resource, ResourceRow};
use terms::class::Class;
use terms::interval::Interval;
use terms::refusal::Refusal;
use terms::service::{ByService, Service};

const BAD_NUMBER: Refusal = Refusal::NumberOutOfRange;

const BAD_FIGURE: Refusal = Refusal::FigureOutOfRange;

// a number, and what is taken or the refusal
const NUMBERED: [(u32, Result<u32, Refusal>); 5] = [
    (0, Err(BAD_NUMBER)),
    (1, Ok(1)),
    (999_999, Ok(999_999)),
    (1_000_000, Err(BAD_NUMBER)),
    (u32::MAX, Err(BAD_NUMBER)),
];

#[test]
fn numbers(rt: HostRuntime) {
    assert_eq!(rt; u8::from(BAD_NUMBER), 2);
    assert_eq!(rt; u8::from(BAD_FIGURE), 3);
    for (number, answer) in NUMBERED {
        assert_eq!(rt;
            QseNumber::try_from(number).map(|taken| taken.value),
            answer,
            "QSE {number}"
        );
        assert_eq!(rt;
            ResourceNumber::try_from(number).map(|taken| taken.value),
            answer,
            "resource {number}"
        );
    }
}

const NO_SERVICE: Result<Service, Refusal> = Err(BAD_FIGURE);

const NO_CLASS: Result<Class, Refusal> = Err(BAD_FIGURE);

const NO_INTERVAL: Result<Interval, Refusal> = Err(BAD_FIGURE);

// a number, and the service, class and interval that it stands for
const CODED: [(
    u32,
    Result<Service, Refusal>,
    Result<Class, Refusal>,
    Result<Interval, Refusal>,
); 7] = [
    (
        0,
        Ok(Service::RegUp),
        Ok(Class::Generation),
        Ok(Interval::First),
    ),
    (
        1,
        Ok(Service::RegDown),
        Ok(Class::ControllableLoad),
        Ok(Interval::Second),
    ),
    (
        2,
        Ok(Service::Responsive),
        Ok(Class::OtherLoad),
        Ok(Interval::Third),
    ),
    (3, Ok(Service::NonSpin), NO_CLASS, Ok(Interval::Fourth)),
    (4, Ok(Service::Ecrs), NO_CLASS, NO_INTERVAL),
    (5, NO_SERVICE, NO_CLASS, NO_INTERVAL),
    (u32::MAX, NO_SERVICE, NO_CLASS, NO_INTERVAL),
];

#[test]
fn services_classes_and_intervals(rt: HostRuntime) {
    for (number, service, class, interval) in CODED {
        assert_eq!(rt; Service::try_from(number), service);
        assert_eq!(rt; Class::try_from(number), class);
        assert_eq!(rt; Interval::try_from(number), interval);
    }
}

#[derive(Clone, Copy, Debug)]
enum Quantity {
    Dasa,
    Rtsa,
    Trs,
    Rtpc,
    Pc,
    Ruc,
    Trp,
    Fq,
    Rfq,
    Inf,
}

const QUANTITIES: [Quantity; 10] = [
    Quantity::Dasa,
    Quantity::Rtsa,
    Quantity::Trs,
    Quantity::Rtpc,
    Quantity::Pc,
    Quantity::Ruc,
    Quantity::Trp,
    Quantity::Fq,
    Quantity::Rfq,
    Quantity::Inf,
];

// Where a quantity stands, among bare ones and among those that were taken.
fn quantity_in<T>(ten: &mut Quantities<T>, place: Quantity) -> &mut T {
    match place {
        Quantity::Dasa => &mut ten.dasa,
        Quantity::Rtsa => &mut ten.rtsa,
        Quantity::Trs => &mut ten.trs,
        Quantity::Rtpc => &mut ten.rtpc,
        Quantity::Pc => &mut ten.pc,
        Quantity::Ruc => &mut ten.ruc,
        Quantity::Trp => &mut ten.trp,
        Quantity::Fq => &mut ten.fq,
        Quantity::Rfq => &mut ten.rfq,
        Quantity::Inf => &mut ten.inf,
    }
}

// What the check keeps in the place where it was given, with 0 in the nine others.
fn quantity_taken(place: Quantity, tenths: u32) -> Result<u32, Refusal> {
    let mut bare = NO_QUANTITIES;
    *quantity_in(&mut bare, place) = tenths;
    let mut taken = Quantities::try_from(&bare)?;
    Ok(quantity_in(&mut taken, place).value)
}

#[test]
fn quantities(rt: HostRuntime) {
    for place in QUANTITIES {
        assert_eq!(rt; quantity_taken(place, 20_000), Ok(20_000), "{place:?}");
        assert_eq!(rt; quantity_taken(place, 20_001), Err(BAD_FIGURE), "{place:?}");
    }
}

#[derive(Clone, Copy, Debug)]
enum Figure {
    Telemetered(Service),
    Npf,
    Lpc,
}

const FIGURES: [Figure; 7] = [
    Figure::Telemetered(Service::RegUp),
    Figure::Telemetered(Service::RegDown),
    Figure::Telemetered(Service::Responsive),
    Figure::Telemetered(Service::NonSpin),
    Figure::Telemetered(Service::Ecrs),
    Figure::Npf,
    Figure::Lpc,
];

// All seven 0 but for this one.
fn one_figure(place: Figure, tenths: u32) -> BareFigures {
    let mut figures = BareFigures {
        telemetered: ByService::always(0),
        npf: 0,
        lpc: 0,
    };
    match place {
        Figure::Telemetered(service) => figures.telemetered.set(service, tenths),
        Figure::Npf => figures.npf = tenths,
        Figure::Lpc => figures.lpc = tenths,
    }
    figures
}

// One function for setting and reading, as for the quantities, would be no plainer: it would name all five services,
// which `set` and `of` spare it.
fn figure_taken(place: Figure, tenths: u32) -> Result<u32, Refusal> {
    let taken = Figures::try_from(&one_figure(place, tenths))?;
    Ok(match place {
        Figure::Telemetered(service) => taken.telemetered.of(service).value,
        Figure::Npf => taken.npf.value,
        Figure::Lpc => taken.lpc.value,
    })
}

#[test]
fn figures_of_a_resource(rt: HostRuntime) {
    for place in FIGURES {
        assert_eq!(rt; figure_taken(place, 3_000), Ok(3_000), "{place:?}");
        assert_eq!(rt; figure_taken(place, 3_001), Err(BAD_FIGURE), "{place:?}");
    }
}

// DAM, SASM and RSASM price, and what is taken
const CAPACITY: [([u32; 3], Result<[u32; 3], Refusal>); 4] = [
    ([1_000_000; 3], Ok([1_000_000; 3])),
    ([1_000_001, 0, 0], Err(BAD_FIGURE)),
    ([0, 1_000_001, 0], Err(BAD_FIGURE)),
    ([0, 0, 1_000_001], Err(BAD_FIGURE)),
];

// RTRSVPOR and RTRDP, and what is taken
const REAL_TIME: [([u32; 2], Result<[u32; 2], Refusal>); 3] = [
    ([500_000; 2], Ok([500_000; 2])),
    ([500_001, 0], Err(BAD_FIGURE)),
    ([0, 500_001], Err(BAD_FIGURE)),
];

#[test]
fn prices(rt: HostRuntime) {
    for ([dam, sasm, rsasm], answer) in CAPACITY {
        let taken = ServicePrices::try_from(&BareServicePrices { dam, sasm, rsasm });
        assert_eq!(rt;
            taken.map(|taken| [taken.dam.value, taken.sasm.value, taken.rsasm.value]),
            answer
        );
    }
    for ([rtrsvpor, rtrdp], answer) in REAL_TIME {
        let taken = IntervalPrices::try_from(&BareIntervalPrices { rtrsvpor, rtrdp });
        assert_eq!(rt;
            taken.map(|taken| [taken.rtrsvpor.value, taken.rtrdp.value]),
            answer
        );
    }
}

// number, load and the FQ of one service; the refusal, where the row is not taken
const ENROLLED: [(u32, u32, u32, Option<Refusal>); 8] = [
    (1, 20_000, 20_000, None),
    (999_999, 20_000, 20_000, None),
    (0, 0, 0, Some(BAD_NUMBER)),
    (1_000_000, 0, 0, Some(BAD_NUMBER)),
    (1, 20_001, 0, Some(BAD_FIGURE)),
    (1, 0, 20_001, Some(BAD_FIGURE)),
    // both faults: the number is told
    (0, 20_001, 0, Some(BAD_NUMBER)),
    (1_000_000, 0, 20_001, Some(BAD_NUMBER)),
];

#[test]
fn rows_of_qses(rt: HostRuntime) {
    for (number, load, fq, refusal) in ENROLLED {
        for service in Service::ALL {
            let mut quantities = ByService::always(NO_QUANTITIES);
            let failed = BareQuantities {
                fq,
                ..NO_QUANTITIES
            };
            quantities.set(service, failed);
            let row = QseRow {
                number,
                load,
                quantities,
            };
            assert_eq!(rt;
                Qse::try_from(&row).err(),
                refusal,
                "QSE {number}, {service:?}"
            );
        }
    }
}

// number, QSE and one figure; the refusal, where the row is not taken
const LISTED: [(u32, u32, u32, Option<Refusal>); 9] = [
    (1, 999_999, 3_000, None),
    (999_999, 1, 3_000, None),
    (0, 1, 0, Some(BAD_NUMBER)),
    (1_000_000, 1, 0, Some(BAD_NUMBER)),
    (1, 0, 0, Some(BAD_NUMBER)),
    (1, 1_000_000, 0, Some(BAD_NUMBER)),
    (1, 1, 3_001, Some(BAD_FIGURE)),
    // both faults: the number is told
    (0, 1, 3_001, Some(BAD_NUMBER)),
    (1, 1_000_000, 3_001, Some(BAD_NUMBER)),
];

#[test]
fn rows_of_resources(rt: HostRuntime) {
    for (number, qse, figure, refusal) in LISTED {
        for place in FIGURES {
            let row = ResourceRow {
                number,
                qse,
                class: Class::OtherLoad,
                figures: one_figure(place, figure),
            };
            assert_eq!(rt;
                Resource::try_from(&row).err(),
                refusal,
                "resource {number}, {place:?}"
            );
        }
    }
}

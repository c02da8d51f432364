// The twelve figures that were worked by hand, asked of the code.
use crate::load::Load;
use crate::uniform::{NO_QUANTITIES, counted_sum};
use apportion::apportion;
use checks::agree;
use editions::before_nprr1149::BeforeNprr1149;
use editions::edition::Edition;
use editions::nprr1149::Nprr1149;
use editions::nprr1196::Nprr1196;
use market::figures::{BareFigures, Figures};
use market::prices::{
    BareIntervalPrices, BareServicePrices, IntervalPrices, Prices, ServicePrices,
};
use market::quantities::{BareQuantities, Quantities};
use std::test::Fail;
use terms::class::Class;
use terms::interval::Interval;
use terms::refusal::Refusal;
use terms::service::{ByService, Service};

#[derive(Clone, Copy)]
struct Charged {
    quantities: BareQuantities,
    counted: i32,
    capacity: BareServicePrices,
    // of one interval; those of the others are 0
    real_time: BareIntervalPrices,
    cents: u64,
}

const SAMPLE: Charged = Charged {
    quantities: BareQuantities {
        pc: 100,
        fq: 36,
        rfq: 10,
        ..NO_QUANTITIES
    },
    counted: 50,
    capacity: BareServicePrices {
        dam: 1_250,
        sasm: 2_000,
        rsasm: 500,
    },
    real_time: BareIntervalPrices {
        rtrsvpor: 6_000,
        rtrdp: 3_000,
    },
    cents: 7_700,
};

// At one cent per MW each tenth of a MW is a tenth of a cent: the halves go up.
const TENTHS_OF_A_CENT: Charged = Charged {
    quantities: BareQuantities {
        fq: 4,
        ..NO_QUANTITIES
    },
    counted: 0,
    capacity: BareServicePrices {
        dam: 1,
        sasm: 0,
        rsasm: 0,
    },
    real_time: BareIntervalPrices {
        rtrsvpor: 0,
        rtrdp: 0,
    },
    cents: 0,
    ..SAMPLE
};

// before NPRR1149
const BEFORE: [Charged; 3] = [
    SAMPLE,
    TENTHS_OF_A_CENT,
    Charged {
        quantities: BareQuantities {
            fq: 5,
            ..NO_QUANTITIES
        },
        cents: 1,
        ..TENTHS_OF_A_CENT
    },
];

// under NPRR1149
const SINCE: [Charged; 2] = [
    Charged {
        cents: 9_500,
        ..SAMPLE
    },
    Charged {
        counted: 60,
        cents: 8_600,
        ..SAMPLE
    },
];

fn prices(charged: &Charged, service: Service, interval: Interval) -> Result<Prices, Refusal> {
    let mut prices = Prices::none();
    prices
        .services
        .set(service, ServicePrices::try_from(&charged.capacity)?);
    prices
        .intervals
        .set(interval, IntervalPrices::try_from(&charged.real_time)?);
    Ok(prices)
}

// The charge is the same in whichever service and interval the figures stand.
fn check_charges<E: Edition>(edition: &E, hours: &[Charged]) -> Result<(), Fail> {
    for hour in hours {
        let quantities = Quantities::try_from(&hour.quantities)?;
        let counted = counted_sum(hour.counted)?;
        for service in Service::ALL {
            for interval in Interval::ALL {
                let prices = prices(hour, service, interval)?;
                agree(
                    edition.charge(service, &quantities, counted, &prices).value,
                    hour.cents,
                    format_args!("the charge in {service:?}, {interval:?}"),
                )?;
            }
        }
    }
    Ok(())
}

#[test]
fn charges() -> Result<(), Fail> {
    check_charges(&BeforeNprr1149, &BEFORE)?;
    check_charges(&Nprr1149, &SINCE)
}

#[derive(Clone, Copy)]
struct Counted {
    service: Service,
    class: Class,
    telemetered: u32,
    npf: u32,
    lpc: u32,
    tenths: i32,
}

const LOAD: Counted = Counted {
    service: Service::Responsive,
    class: Class::OtherLoad,
    telemetered: 50,
    npf: 80,
    lpc: 45,
    tenths: 35,
};

const COUNTED: [Counted; 4] = [
    LOAD,
    Counted {
        npf: 40,
        tenths: -5,
        ..LOAD
    },
    Counted {
        class: Class::ControllableLoad,
        tenths: 50,
        ..LOAD
    },
    Counted {
        service: Service::RegUp,
        tenths: 50,
        ..LOAD
    },
];

#[test]
fn counted_of_a_resource(rt: HostRuntime) -> Result<(), Fail> {
    for counted in COUNTED {
        let mut telemetered = ByService::always(0);
        telemetered.set(counted.service, counted.telemetered);
        let figures = Figures::try_from(&BareFigures {
            telemetered,
            npf: counted.npf,
            lpc: counted.lpc,
        })?;
        assert_eq!(rt;
            Nprr1196
                .counted(counted.service, counted.class, &figures)
                .value,
            counted.tenths
        );
    }
    Ok(())
}

#[derive(Clone, Copy)]
struct Credited {
    total: u64,
    loads: &'static [Load],
    // three places that hold 9 before
    credits: [u64; 3],
}

const CREDITED: [Credited; 3] = [
    Credited {
        total: 7_700,
        loads: &[Load { mwh: 1 }, Load { mwh: 2 }],
        credits: [2_566, 5_134, 9],
    },
    Credited {
        total: 1,
        loads: &[Load { mwh: 1 }, Load { mwh: 1 }, Load { mwh: 1 }],
        credits: [0, 0, 1],
    },
    Credited {
        total: 5,
        loads: &[Load { mwh: 0 }, Load { mwh: 0 }],
        credits: [0, 0, 9],
    },
];

#[test]
fn credits(rt: HostRuntime) -> Result<(), Fail> {
    for credited in CREDITED {
        let mut credits = [9; 3];
        apportion(credited.total, credited.loads, &mut credits)?;
        assert_eq!(rt; credits, credited.credits);
    }
    Ok(())
}

// Every figure at its limit, under each edition and in each service.
use crate::load::Load;
use crate::uniform::counted_sum;
use apportion::{apportion, whole};
use charges::shortfall::{position, shortfall};
use editions::before_nprr1149::BeforeNprr1149;
use editions::edition::Edition;
use editions::nprr1149::Nprr1149;
use editions::nprr1196::Nprr1196;
use market::figures::{BareFigures, Figures};
use market::prices::{
    BareIntervalPrices, BareServicePrices, IntervalPrices, Prices, ServicePrices,
};
use market::quantities::{BareQuantities, Quantities};
use std::test::Fail;
use terms::class::Class;
use terms::interval::ByInterval;
use terms::refusal::Refusal;
use terms::service::{ByService, Service};

// A tenth failed is then 4,000,000 / 40 = 100,000 cents, by MCPC and intervals alike, and one reduced 1,000,000 / 10.
fn greatest_prices() -> Result<Prices, Refusal> {
    let capacity = ServicePrices::try_from(&BareServicePrices {
        dam: 1_000_000,
        sasm: 1_000_000,
        rsasm: 1_000_000,
    })?;
    let real_time = IntervalPrices::try_from(&BareIntervalPrices {
        rtrsvpor: 500_000,
        rtrdp: 500_000,
    })?;
    Ok(Prices {
        services: ByService::always(capacity),
        intervals: ByInterval::always(real_time),
    })
}

#[derive(Clone, Copy)]
struct Charged {
    // each of DASA, RTSA, TRS, RTPC, PC and RUC
    supplied: u32,
    // each of TRP and INF
    relieved: u32,
    // each of FQ and RFQ
    failed: u32,
    counted: i32,
    position: i32,
    short: u32,
    // cents before NPRR1149, and from it on
    before: u64,
    since: u64,
}

const CHARGED: [Charged; 6] = [
    // Position 120,000 − 80,000, less −768,000: with FQ 828,000 tenths failed, and 20,000 were reduced.
    Charged {
        supplied: 20_000,
        relieved: 20_000,
        failed: 20_000,
        counted: -768_000,
        position: 40_000,
        short: 808_000,
        before: 4_000_000_000,
        since: 84_800_000_000,
    },
    // Position 120,000 − 40,000, less −768,000: with FQ 868,000 tenths failed, and 20,000 were reduced.
    Charged {
        supplied: 20_000,
        relieved: 0,
        failed: 20_000,
        counted: -768_000,
        position: 80_000,
        short: 848_000,
        before: 4_000_000_000,
        since: 88_800_000_000,
    },
    // The greatest position and the greatest shortfall: 888,000 tenths failed, and none were reduced.
    Charged {
        supplied: 20_000,
        relieved: 0,
        failed: 0,
        counted: -768_000,
        position: 120_000,
        short: 888_000,
        before: 0,
        since: 88_800_000_000,
    },
    // The least position, 0 − 80,000, less −768,000: with FQ 708,000 tenths failed, and 20,000 were reduced.
    Charged {
        supplied: 0,
        relieved: 20_000,
        failed: 20_000,
        counted: -768_000,
        position: -80_000,
        short: 688_000,
        before: 4_000_000_000,
        since: 72_800_000_000,
    },
    // A surplus of 688,000 is not set against FQ: 20,000 tenths failed, and 20,000 were reduced.
    Charged {
        supplied: 20_000,
        relieved: 0,
        failed: 20_000,
        counted: 768_000,
        position: 80_000,
        short: 0,
        before: 4_000_000_000,
        since: 4_000_000_000,
    },
    // Nor is the greatest surplus, 848,000.
    Charged {
        supplied: 0,
        relieved: 20_000,
        failed: 20_000,
        counted: 768_000,
        position: -80_000,
        short: 0,
        before: 4_000_000_000,
        since: 4_000_000_000,
    },
];

fn quantities(charged: &Charged) -> Result<Quantities, Refusal> {
    Quantities::try_from(&BareQuantities {
        dasa: charged.supplied,
        rtsa: charged.supplied,
        trs: charged.supplied,
        rtpc: charged.supplied,
        pc: charged.supplied,
        ruc: charged.supplied,
        trp: charged.relieved,
        fq: charged.failed,
        rfq: charged.failed,
        inf: charged.relieved,
    })
}

#[test]
fn charges(rt: HostRuntime) -> Result<(), Fail> {
    let prices = greatest_prices()?;
    for charged in CHARGED {
        let quantities = quantities(&charged)?;
        let counted = counted_sum(charged.counted)?;
        assert_eq!(rt; position(&quantities).value, charged.position);
        assert_eq!(rt; shortfall(&quantities, counted).value, charged.short);
        for service in Service::ALL {
            assert_eq!(rt;
                BeforeNprr1149
                    .charge(service, &quantities, counted, &prices)
                    .value,
                charged.before
            );
            assert_eq!(rt;
                Nprr1149
                    .charge(service, &quantities, counted, &prices)
                    .value,
                charged.since
            );
            assert_eq!(rt;
                Nprr1196
                    .charge(service, &quantities, counted, &prices)
                    .value,
                charged.since
            );
        }
    }
    Ok(())
}

// service, telemetered, NPF and LPC; the tenths that count under NPRR1196 of a load that is not controllable
const COUNTED: [(Service, u32, u32, u32, i32); 8] = [
    (Service::RegUp, 3_000, 0, 3_000, 3_000),
    (Service::RegDown, 3_000, 0, 3_000, 3_000),
    (Service::Responsive, 3_000, 0, 3_000, -3_000),
    (Service::NonSpin, 3_000, 0, 3_000, -3_000),
    (Service::Ecrs, 3_000, 0, 3_000, -3_000),
    (Service::Responsive, 3_000, 3_000, 0, 3_000),
    (Service::NonSpin, 3_000, 3_000, 3_000, 0),
    (Service::Ecrs, 0, 3_000, 0, 0),
];

// What 256 resources with these figures count together: the most that an edition is told.
fn counted_by_256<E: Edition>(
    edition: &E,
    service: Service,
    class: Class,
    figures: &Figures,
) -> i32 {
    (0..256u32).fold(0i32, |sum, _| {
        sum.wrapping_add(edition.counted(service, class, figures).value)
    })
}

#[test]
fn counted_sums(rt: HostRuntime) -> Result<(), Fail> {
    for (service, told, npf, lpc, tenths) in COUNTED {
        let figures = Figures::try_from(&BareFigures {
            telemetered: ByService::always(told),
            npf,
            lpc,
        })?;
        let all = if told == 0 { 0 } else { 768_000 };
        let load = Class::OtherLoad;
        assert_eq!(rt; counted_by_256(&BeforeNprr1149, service, load, &figures), 0);
        assert_eq!(rt; counted_by_256(&Nprr1149, service, load, &figures), all);
        assert_eq!(rt;
            counted_by_256(&Nprr1196, service, Class::Generation, &figures),
            all
        );
        assert_eq!(rt;
            counted_by_256(&Nprr1196, service, Class::ControllableLoad, &figures),
            all
        );
        let sum = counted_by_256(&Nprr1196, service, load, &figures);
        assert_eq!(rt; sum, tenths.wrapping_mul(256), "{service:?}");
        assert_eq!(rt; counted_sum(sum)?.value, sum);
    }
    Ok(())
}

// a total, and the credit of each of 64 QSEs
const CREDITED: [(u64, u64); 2] = [
    // 64 charges of the most that an edition may answer: T × L = 8,192,000,000,000,000,000
    (6_400_000_000_000, 100_000_000_000),
    // 64 of the greatest charge above
    (5_683_200_000_000, 88_800_000_000),
];

#[test]
fn credits_of_64_qses(rt: HostRuntime) -> Result<(), Fail> {
    let loads = [Load { mwh: 20_000 }; 64];
    assert_eq!(rt; whole(&loads), Some(1_280_000));
    for (total, credit) in CREDITED {
        let mut shares = [0u64; 64];
        apportion(total, &loads, &mut shares)?;
        assert_eq!(rt; shares, [credit; 64]);
    }
    Ok(())
}

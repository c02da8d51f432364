// The prices of the hour: for each service three of capacity, for each 15-minute interval two of Real-Time.
ghost use Rattle.std.specs.Prelude.{◌≡◌};
ghost use Rattle.market.specs.Answers.{plainly, if_within};
ghost use Rattle.market.specs.Bare.{bare_service_prices, bare_interval_prices, bare_prices, no_prices};
ghost use Rattle.market.specs.Limits.{service_prices_within, interval_prices_within};

use crate::units::{CentsPerMw, CentsPerMwh};
use terms::interval::ByInterval;
use terms::refusal::Refusal;
use terms::service::ByService;

// The prices of a service: cents per MW within their limits, unless another type is named.
#[derive(Clone, Copy)]
pub struct ServicePrices<T = CentsPerMw<1_000_000>> {
    pub dam: T,
    pub sasm: T,
    pub rsasm: T,
}

// The prices of an interval: cents per MWh within their limits, unless another type is named.
#[derive(Clone, Copy)]
pub struct IntervalPrices<T = CentsPerMwh<500_000>> {
    // Real-Time Reserve Price for On-Line Reserves
    pub rtrsvpor: T,
    // Real-Time On-Line Reliability Deployment Price
    pub rtrdp: T,
}

// All prices of the hour.
#[derive(Clone, Copy)]
pub struct Prices<S = ServicePrices, I = IntervalPrices> {
    pub services: ByService<S>,
    pub intervals: ByInterval<I>,
}

// The prices of a service as they are given.
pub type BareServicePrices = ServicePrices<u32>;

// The prices of an interval as they are given.
pub type BareIntervalPrices = IntervalPrices<u32>;

// All prices of the hour as they are given.
pub type BarePrices = Prices<BareServicePrices, BareIntervalPrices>;

// These prices, each at most 1,000,000 cents per MW.
impl TryFrom<&BareServicePrices> for ServicePrices {
    type Error = Refusal;

    ghost try_from_gives = { λ bare answer. plainly bare_service_prices answer ≡ if_within (service_prices_within bare.now) bare.now };

    fn try_from(bare: &BareServicePrices) -> Result<ServicePrices, Refusal> {
        Ok(ServicePrices {
            dam: CentsPerMw::try_from(bare.dam)?,
            sasm: CentsPerMw::try_from(bare.sasm)?,
            rsasm: CentsPerMw::try_from(bare.rsasm)?,
        })
    }
}

// These prices, each at most 500,000 cents per MWh.
impl TryFrom<&BareIntervalPrices> for IntervalPrices {
    type Error = Refusal;

    ghost try_from_gives = { λ bare answer. plainly bare_interval_prices answer ≡ if_within (interval_prices_within bare.now) bare.now };

    fn try_from(bare: &BareIntervalPrices) -> Result<IntervalPrices, Refusal> {
        Ok(IntervalPrices {
            rtrsvpor: CentsPerMwh::try_from(bare.rtrsvpor)?,
            rtrdp: CentsPerMwh::try_from(bare.rtrdp)?,
        })
    }
}

impl Prices {
    // An hour with every price 0. No `Default`, which is not derived over ghost fields.
    pub fn none() -> Prices
        ensures answer { bare_prices result ≡ no_prices }
    {
        let zero = CentsPerMw { value: 0 };
        let service = ServicePrices {
            dam: zero,
            sasm: zero,
            rsasm: zero,
        };
        let interval = IntervalPrices {
            rtrsvpor: CentsPerMwh { value: 0 },
            rtrdp: CentsPerMwh { value: 0 },
        };
        Prices {
            services: ByService::always(service),
            intervals: ByInterval::always(interval),
        }
    }
}

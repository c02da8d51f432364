// The tests of the calls that set prices.
// Not one function generic in the place and its prices: its contract would speak of the ghost members of four conversions in
// place of the market's definitions, and be no plainer.
ghost use Rattle.std.specs.Prelude.{◌≡◌, not, ◌&&◌, is_ok, None, Ok};
ghost use Rattle.terms.specs.declared.refusal.Refusal.TheVariants.{DraftOpen, FigureOutOfRange};
ghost use Rattle.market.specs.Bare.{bare_service_prices, bare_interval_prices};
ghost use Rattle.terms.specs.Intervals.{interval_of};
ghost use Rattle.market.specs.Limits.{service_prices_within, interval_prices_within};
ghost use Rattle.terms.specs.Services.{service_of};
ghost use Rattle.history.specs.Called.{Tested};
ghost use Rattle.history.specs.Calls.{unless};

use market::prices::{BareIntervalPrices, BareServicePrices, IntervalPrices, ServicePrices};
use terms::interval::Interval;
use terms::refusal::Refusal;
use terms::service::Service;

// The tests of a call that sets the prices of a service, in their order.
pub fn tested_prices(
    drafted: bool,
    service: u32,
    bare: &BareServicePrices,
) -> Result<(Service, ServicePrices), Refusal>
    ensures tested { Tested (unless (not drafted) DraftOpen (unless (is_ok (service_of service) && service_prices_within bare.now) FigureOutOfRange None)) (λ x. (service_of service ≡ Ok x.0) × (bare_service_prices x.1 ≡ bare.now)) result }
{
    if drafted {
        return Err(Refusal::DraftOpen);
    }
    let service = Service::try_from(service)?;
    let prices = ServicePrices::try_from(bare)?;
    Ok((service, prices))
}

// The tests of a call that sets the prices of an interval, in their order.
pub fn tested_interval(
    drafted: bool,
    interval: u32,
    bare: &BareIntervalPrices,
) -> Result<(Interval, IntervalPrices), Refusal>
    ensures tested { Tested (unless (not drafted) DraftOpen (unless (is_ok (interval_of interval) && interval_prices_within bare.now) FigureOutOfRange None)) (λ x. (interval_of interval ≡ Ok x.0) × (bare_interval_prices x.1 ≡ bare.now)) result }
{
    if drafted {
        return Err(Refusal::DraftOpen);
    }
    let interval = Interval::try_from(interval)?;
    let prices = IntervalPrices::try_from(bare)?;
    Ok((interval, prices))
}

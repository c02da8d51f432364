// The calls that set an hour's prices.
ghost use Rattle.history.specs.Called.{Called};
ghost use Rattle.history.specs.Calls.{prices as prices_call, interval as interval_call};
ghost use Rattle.book.specs.View.{view, said};

use crate::book::Book;
use admission::settings::{tested_interval, tested_prices};
use market::prices::{BareIntervalPrices, BareServicePrices};
use terms::refusal::Refusal;

impl Book<'_> {
    // Sets the three prices of a service, given by its number: calls take raw figures and check them.
    pub fn prices(&mut self, service: u32, bare: BareServicePrices) -> Result<(), Refusal>
        ensures called { Called (view self.old) (prices_call service bare) (said result) (view self.new) }
    {
        let (service, prices) = tested_prices(self.drafted, service, &bare)?;
        self.prices.services.set(service, prices);
        Ok(())
    }

    // Sets the two Real-Time prices of an interval, given by its number: calls take raw figures and check them.
    pub fn interval(&mut self, interval: u32, bare: BareIntervalPrices) -> Result<(), Refusal>
        ensures called { Called (view self.old) (interval_call interval bare) (said result) (view self.new) }
    {
        let (interval, prices) = tested_interval(self.drafted, interval, &bare)?;
        self.prices.intervals.set(interval, prices);
        Ok(())
    }
}

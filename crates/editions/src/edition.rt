// The two questions that every edition answers.
ghost use Rattle.std.specs.Prelude.{◌≡◌};
ghost use Rattle.editions.specs.Meaning.{Meaning};
ghost use Rattle.market.specs.Bare.{bare_figures, bare_quantities, bare_prices};

use market::figures::Figures;
use market::prices::Prices;
use market::quantities::Quantities;
use market::units::{Cents, SignedTenths};
use terms::class::Class;
use terms::service::Service;

pub trait Edition {
    // what the edition means: a function for each question
    ghost meaning: { Self → Meaning };

    // The tenths of a MW that count as telemetered for a service, by a resource of this class and with these figures.
    fn counted(&self, service: Service, class: Class, figures: &Figures) -> SignedTenths<3_000>
        ensures answer { result.value ≡ (meaning self.now).counted service class (bare_figures figures.now) };

    // The cents charged to a QSE with these quantities, whose resources' counted tenths add up to `counted`.
    fn charge(
        &self,
        service: Service,
        quantities: &Quantities,
        counted: SignedTenths<768_000>,
        prices: &Prices,
    ) -> Cents<100_000_000_000>
        ensures answer { result.value ≡ (meaning self.now).charge service (bare_quantities quantities.now) counted.value (bare_prices prices.now) };
}

// What a resource's telemetry is worth.
ghost use Rattle.std.specs.Prelude.{◌≡◌};
ghost use Rattle.charges.specs.Editions.{telemetered as telemetered_of, curtailable as curtailable_of};
ghost use Rattle.market.specs.Bare.{bare_figures};

use market::figures::Figures;
use market::units::SignedTenths;
use terms::service::Service;

// The responsibility that the resource telemetered for this service.
pub fn telemetered(service: Service, figures: &Figures) -> SignedTenths<3_000>
    ensures answer { result.value ≡ telemetered_of service (bare_figures figures.now) }
{
    SignedTenths {
        value: figures.telemetered.of(service).value as i32,
    }
}

// That, or what the load could shed where it is less: NPF − LPC, which may be negative.
pub fn curtailable(service: Service, figures: &Figures) -> SignedTenths<3_000>
    ensures answer { result.value ≡ curtailable_of service (bare_figures figures.now) }
{
    let told = telemetered(service, figures);
    let shed = figures.npf.value as i32 - figures.lpc.value as i32;
    SignedTenths {
        value: shed.min(told.value),
    }
}

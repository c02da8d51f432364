// The service that is asked for by its letter.
ghost use Rattle.std.specs.Prelude.{◌≡◌, if◌then◌else◌, Err};
ghost use Rattle.terms.specs.declared.refusal.Refusal.TheVariants.{NumberOutOfRange};
ghost use Rattle.market.specs.Limits.{numbered};
ghost use Rattle.terms.specs.Services.{service_of_letter};

use market::number::QseNumber;
use terms::refusal::Refusal;
use terms::service::Service;

// The service that is asked for: the number of the QSE is looked at first.
pub fn asked_service(qse: u32, letter: char) -> Result<Service, Refusal>
    ensures answer { result ≡ (if numbered qse then service_of_letter letter else Err NumberOutOfRange) }
{
    QseNumber::try_from(qse)?;
    Service::try_from(letter)
}

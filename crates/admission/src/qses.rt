// The tests of the calls that enrol a QSE and set its quantities, and the account after an enrolment.
ghost use Rattle.std.specs.Prelude.{◌≡◌, true, not, ◌&&◌, is_ok, None, Ok};
ghost use Rattle.terms.specs.declared.refusal.Refusal.TheVariants.{DraftOpen, NumberOutOfRange, FigureOutOfRange};
ghost use Rattle.market.specs.Limits.{numbered, load_within, quantities_within};
ghost use Rattle.terms.specs.Services.{service_of};
ghost use Rattle.history.specs.Called.{Tested};
ghost use Rattle.history.specs.Calls.{unless, with_load, enrolled as enrolled_account};

use history::account::Account;
use market::number::QseNumber;
use market::quantities::{BareQuantities, Quantities};
use market::units::Mwh;
use terms::refusal::Refusal;
use terms::service::Service;

// The tests of an enrolment that need no account, in their order.
pub fn tested_enrol(drafted: bool, qse: u32, load: u32) -> Result<(), Refusal>
    ensures tested { Tested (unless (not drafted) DraftOpen (unless (numbered qse) NumberOutOfRange (unless (load_within load) FigureOutOfRange None))) (λ _. (numbered qse ≡ true) × (load_within load ≡ true)) result }
{
    if drafted {
        return Err(Refusal::DraftOpen);
    }
    QseNumber::try_from(qse)?;
    Mwh::<20_000>::try_from(load)?;
    Ok(())
}

// The tests of a call that sets quantities, in their order, up to the account's.
pub fn tested_quantities(
    drafted: bool,
    qse: u32,
    service: u32,
    bare: &BareQuantities,
) -> Result<Service, Refusal>
    ensures tested { Tested (unless (not drafted) DraftOpen (unless (numbered qse) NumberOutOfRange (unless (is_ok (service_of service) && quantities_within bare.now) FigureOutOfRange None))) (λ v. (service_of service ≡ Ok v) × (quantities_within bare.now ≡ true)) result }
{
    if drafted {
        return Err(Refusal::DraftOpen);
    }
    QseNumber::try_from(qse)?;
    let service = Service::try_from(service)?;
    Quantities::try_from(bare)?;
    Ok(service)
}

// The account with another load.
pub fn with_load(mut account: Account, load: u32) -> Account
    ensures answer { result ≡ with_load load account }
{
    account.row.load = load;
    account
}

// The account after an enrolment: a known QSE keeps its own.
pub fn enrolled(held: Option<Account>, qse: u32, load: u32) -> Account
    ensures answer { result ≡ enrolled_account qse load held }
{
    match held {
        Some(account) => with_load(account, load),
        None => Account::new(qse, load),
    }
}

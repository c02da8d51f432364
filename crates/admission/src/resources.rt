// The tests of the calls that enter a resource and strike it out.
ghost use Rattle.std.specs.Prelude.{◌≡◌, true, not, ◌&&◌, is_ok, None, Ok};
ghost use Rattle.terms.specs.declared.refusal.Refusal.TheVariants.{DraftOpen, NumberOutOfRange, FigureOutOfRange};
ghost use Rattle.terms.specs.Classes.{class_of};
ghost use Rattle.market.specs.Limits.{numbered, figures_within};
ghost use Rattle.history.specs.Called.{Tested};
ghost use Rattle.history.specs.Calls.{unless};

use market::figures::{BareFigures, Figures};
use market::number::{QseNumber, ResourceNumber};
use terms::class::Class;
use terms::refusal::Refusal;

// The tests of an entry that need no look at the tables, in their order.
pub fn tested_enter(
    drafted: bool,
    resource: u32,
    qse: u32,
    class: u32,
    figures: &BareFigures,
) -> Result<Class, Refusal>
    ensures tested { Tested (unless (not drafted) DraftOpen (unless (numbered resource && numbered qse) NumberOutOfRange (unless (is_ok (class_of class) && figures_within figures.now) FigureOutOfRange None))) (λ k. class_of class ≡ Ok k) result }
{
    if drafted {
        return Err(Refusal::DraftOpen);
    }
    ResourceNumber::try_from(resource)?;
    QseNumber::try_from(qse)?;
    let class = Class::try_from(class)?;
    Figures::try_from(figures)?;
    Ok(class)
}

// The tests of a strike that need no look at the table, in their order.
pub fn tested_strike(drafted: bool, resource: u32) -> Result<(), Refusal>
    ensures tested { Tested (unless (not drafted) DraftOpen (unless (numbered resource) NumberOutOfRange None)) (λ _. numbered resource ≡ true) result }
{
    if drafted {
        return Err(Refusal::DraftOpen);
    }
    ResourceNumber::try_from(resource)?;
    Ok(())
}

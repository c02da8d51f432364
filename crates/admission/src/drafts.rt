// The tests of the calls that take a draft.
ghost use Rattle.std.specs.Prelude.{None, ◌==◌};
ghost use Rattle.terms.specs.declared.refusal.Refusal.TheVariants.{OtherBook, NoDraft};
ghost use Rattle.history.specs.Called.{Tested};
ghost use Rattle.history.specs.Calls.{unless};

use terms::refusal::Refusal;

// The tests of a call that takes a draft, in their order.
pub fn tested_draft(carried: u32, number: u32, drafted: bool) -> Result<(), Refusal>
    ensures tested { Tested (unless (carried == number) OtherBook (unless drafted NoDraft None)) (λ _. Unit {0}) result }
{
    if carried != number {
        return Err(Refusal::OtherBook);
    }
    if !drafted {
        return Err(Refusal::NoDraft);
    }
    Ok(())
}

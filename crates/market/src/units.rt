// The units of the hour, each with its limit in the type: a number beyond it cannot exist.
// Each unit is a type of its own, with its `TryFrom`. One type generic in the unit would be no plainer: beside a ghost
// field `Clone` is not derived for a type parameter ("derive-over-ghost-field"), and each literal would name a marker.
ghost use Rattle.std.specs.Prelude.{◌≡◌, ◌≤◌, pos, neg_ℤ, ◌≤ℤ◌, nat_le};
ghost use Rattle.market.specs.Answers.{plainly, if_within};

use terms::refusal::Refusal;

// Tenths of a MW.
#[derive(Clone, Copy)]
pub struct Tenths<const MAX: u32> {
    pub value: u32,
    ghost within: { value ≤ MAX },
}

impl<const MAX: u32> TryFrom<u32> for Tenths<MAX> {
    type Error = Refusal;

    ghost try_from_gives = { λ value answer. plainly (λ x. x.value) answer ≡ if_within (nat_le value MAX) value };

    fn try_from(value: u32) -> Result<Tenths<MAX>, Refusal> {
        if value <= MAX {
            Ok(Tenths { value })
        } else {
            Err(Refusal::FigureOutOfRange)
        }
    }
}

// Tenths of a MW that may lie below zero.
#[derive(Clone, Copy)]
pub struct SignedTenths<const MAX: u32> {
    pub value: i32,
    ghost above: { neg_ℤ (pos MAX) ≤ℤ value },
    ghost below: { value ≤ℤ pos MAX },
}

// Cents per MW for the hour.
#[derive(Clone, Copy)]
pub struct CentsPerMw<const MAX: u32> {
    pub value: u32,
    ghost within: { value ≤ MAX },
}

impl<const MAX: u32> TryFrom<u32> for CentsPerMw<MAX> {
    type Error = Refusal;

    ghost try_from_gives = { λ value answer. plainly (λ x. x.value) answer ≡ if_within (nat_le value MAX) value };

    fn try_from(value: u32) -> Result<CentsPerMw<MAX>, Refusal> {
        if value <= MAX {
            Ok(CentsPerMw { value })
        } else {
            Err(Refusal::FigureOutOfRange)
        }
    }
}

// Cents per MWh.
#[derive(Clone, Copy)]
pub struct CentsPerMwh<const MAX: u32> {
    pub value: u32,
    ghost within: { value ≤ MAX },
}

impl<const MAX: u32> TryFrom<u32> for CentsPerMwh<MAX> {
    type Error = Refusal;

    ghost try_from_gives = { λ value answer. plainly (λ x. x.value) answer ≡ if_within (nat_le value MAX) value };

    fn try_from(value: u32) -> Result<CentsPerMwh<MAX>, Refusal> {
        if value <= MAX {
            Ok(CentsPerMwh { value })
        } else {
            Err(Refusal::FigureOutOfRange)
        }
    }
}

// Quarters of a cent per MW for the hour: what four 15-minute prices in cents per MWh add up to.
#[derive(Clone, Copy)]
pub struct QuarterCentsPerMw<const MAX: u32> {
    pub value: u32,
    ghost within: { value ≤ MAX },
}

// Whole MWh.
#[derive(Clone, Copy)]
pub struct Mwh<const MAX: u32> {
    pub value: u32,
    ghost within: { value ≤ MAX },
}

impl<const MAX: u32> TryFrom<u32> for Mwh<MAX> {
    type Error = Refusal;

    ghost try_from_gives = { λ value answer. plainly (λ x. x.value) answer ≡ if_within (nat_le value MAX) value };

    fn try_from(value: u32) -> Result<Mwh<MAX>, Refusal> {
        if value <= MAX {
            Ok(Mwh { value })
        } else {
            Err(Refusal::FigureOutOfRange)
        }
    }
}

// Cents.
#[derive(Clone, Copy)]
pub struct Cents<const MAX: u64> {
    pub value: u64,
    ghost within: { value ≤ MAX },
}

// Cents that may lie below zero.
#[derive(Clone, Copy)]
pub struct SignedCents<const MAX: u64> {
    pub value: i64,
    ghost above: { neg_ℤ (pos MAX) ≤ℤ value },
    ghost below: { value ≤ℤ pos MAX },
}

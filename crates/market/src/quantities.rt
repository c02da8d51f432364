// The ten quantities of a QSE in one service.
ghost use Rattle.std.specs.Prelude.{◌≡◌};
ghost use Rattle.market.specs.Answers.{plainly, if_within};
ghost use Rattle.market.specs.Bare.{bare_quantities};
ghost use Rattle.market.specs.Limits.{quantities_within};

use crate::units::Tenths;
use terms::refusal::Refusal;

// The ten in the order in which they are given: tenths of a MW within their limits, unless another type is named.
#[derive(Clone, Copy, Default)]
pub struct Quantities<T = Tenths<20_000>> {
    // self-arranged in the Day-Ahead
    pub dasa: T,
    // self-arranged in SASMs
    pub rtsa: T,
    // trade sales
    pub trs: T,
    // procured in SASMs and RSASMs
    pub rtpc: T,
    // procured in the DAM
    pub pc: T,
    // RUC-committed
    pub ruc: T,
    // trade purchases
    pub trp: T,
    // failed
    pub fq: T,
    // reconfiguration reductions
    pub rfq: T,
    // infeasible
    pub inf: T,
}

// The ten as they are given.
pub type BareQuantities = Quantities<u32>;

// The ten of these figures, each at most 20,000.
impl TryFrom<&BareQuantities> for Quantities {
    type Error = Refusal;

    ghost try_from_gives = { λ bare answer. plainly bare_quantities answer ≡ if_within (quantities_within bare.now) bare.now };

    #[tactic(auto, unfolding(crate::specs::Limits::quantities_within))]
    fn try_from(bare: &BareQuantities) -> Result<Quantities, Refusal> {
        Ok(Quantities {
            dasa: Tenths::try_from(bare.dasa)?,
            rtsa: Tenths::try_from(bare.rtsa)?,
            trs: Tenths::try_from(bare.trs)?,
            rtpc: Tenths::try_from(bare.rtpc)?,
            pc: Tenths::try_from(bare.pc)?,
            ruc: Tenths::try_from(bare.ruc)?,
            trp: Tenths::try_from(bare.trp)?,
            fq: Tenths::try_from(bare.fq)?,
            rfq: Tenths::try_from(bare.rfq)?,
            inf: Tenths::try_from(bare.inf)?,
        })
    }
}

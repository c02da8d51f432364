// The figures of a resource: what it telemetered for each service, and the power of its load.
ghost use Rattle.std.specs.Prelude.{◌≡◌};
ghost use Rattle.market.specs.Answers.{plainly, if_within};
ghost use Rattle.market.specs.Bare.{bare_figures};
ghost use Rattle.market.specs.Limits.{figures_within};

use crate::units::Tenths;
use terms::refusal::Refusal;
use terms::service::ByService;

// Tenths of a MW within their limits, unless another type is named.
#[derive(Clone, Copy, Default)]
pub struct Figures<T = Tenths<3_000>> {
    // telemetered responsibility for each service
    pub telemetered: ByService<T>,
    // net power consumption
    pub npf: T,
    // low power consumption
    pub lpc: T,
}

// The figures as they are given.
pub type BareFigures = Figures<u32>;

// These figures, each at most 3,000 tenths of a MW.
impl TryFrom<&BareFigures> for Figures {
    type Error = Refusal;

    ghost try_from_gives = { λ bare answer. plainly bare_figures answer ≡ if_within (figures_within bare.now) bare.now };

    fn try_from(bare: &BareFigures) -> Result<Figures, Refusal> {
        let told = bare.telemetered;
        Ok(Figures {
            telemetered: ByService {
                up: Tenths::try_from(told.up)?,
                down: Tenths::try_from(told.down)?,
                responsive: Tenths::try_from(told.responsive)?,
                nonspin: Tenths::try_from(told.nonspin)?,
                ecrs: Tenths::try_from(told.ecrs)?,
            },
            npf: Tenths::try_from(bare.npf)?,
            lpc: Tenths::try_from(bare.lpc)?,
        })
    }
}

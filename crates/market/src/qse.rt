// A Qualified Scheduling Entity (QSE) in the hour: its load and its quantities.
ghost use Rattle.std.specs.Prelude.{◌≡◌};
ghost use Rattle.market.specs.Answers.{plainly};
ghost use Rattle.market.specs.Bare.{qse_row};
ghost use Rattle.market.specs.Limits.{qse_of};

use crate::number::QseNumber;
use crate::quantities::{BareQuantities, Quantities};
use crate::units::Mwh;
use terms::refusal::Refusal;
use terms::service::ByService;

// The row of a QSE as bare figures: what lies in a lent slot.
// One type generic in its parts would be no plainer: three parameters, each for a single field.
#[derive(Clone, Copy)]
pub struct QseRow {
    pub number: u32,
    pub load: u32,
    pub quantities: ByService<BareQuantities>,
}

// The QSE with every figure within its limits.
#[derive(Clone, Copy)]
pub struct Qse {
    pub number: QseNumber,
    pub load: Mwh<20_000>,
    pub quantities: ByService<Quantities>,
}

// The QSE of this row: its number is looked at first, then its load and quantities.
impl TryFrom<&QseRow> for Qse {
    type Error = Refusal;

    ghost try_from_gives = { λ row answer. plainly qse_row answer ≡ qse_of row.now };

    fn try_from(row: &QseRow) -> Result<Qse, Refusal> {
        let number = QseNumber::try_from(row.number)?;
        let load = Mwh::try_from(row.load)?;
        let up = Quantities::try_from(&row.quantities.up)?;
        let down = Quantities::try_from(&row.quantities.down)?;
        let responsive = Quantities::try_from(&row.quantities.responsive)?;
        let nonspin = Quantities::try_from(&row.quantities.nonspin)?;
        let ecrs = Quantities::try_from(&row.quantities.ecrs)?;
        Ok(Qse {
            number,
            load,
            quantities: ByService {
                up,
                down,
                responsive,
                nonspin,
                ecrs,
            },
        })
    }
}

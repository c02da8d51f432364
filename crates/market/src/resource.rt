// A resource in the hour: its QSE, its class and its figures.
ghost use Rattle.std.specs.Prelude.{◌≡◌};
ghost use Rattle.market.specs.Answers.{plainly};
ghost use Rattle.market.specs.Bare.{resource_row, empty_row};
ghost use Rattle.market.specs.Limits.{resource_of, resource_sound};

use crate::figures::{BareFigures, Figures};
use crate::number::{QseNumber, ResourceNumber};
use table::Numbered;
use terms::class::Class;
use terms::refusal::Refusal;
use terms::service::ByService;

// The row of a resource as bare figures: what lies in a lent slot.
// One type generic in its parts would be no plainer: three parameters, each for a single field.
#[derive(Clone, Copy)]
pub struct ResourceRow {
    pub number: u32,
    pub qse: u32,
    pub class: Class,
    pub figures: BareFigures,
}

// The resource with every figure within its limits.
#[derive(Clone, Copy)]
pub struct Resource {
    pub number: ResourceNumber,
    pub qse: QseNumber,
    pub class: Class,
    pub figures: Figures,
}

impl ResourceRow {
    // What a lent slot may hold before it is used.
    pub fn empty() -> ResourceRow
        ensures answer { result ≡ empty_row }
    {
        ResourceRow {
            number: 0,
            qse: 0,
            class: Class::Generation,
            figures: BareFigures::default(),
        }
    }
}

// Rows of resources are kept by number.
impl Numbered for ResourceRow {
    ghost number = { λ r. r.number };

    ghost sound = { λ r. resource_sound r };

    fn key(&self) -> u32 {
        self.number
    }
}

// The resource of this row: both numbers are looked at first, then its figures.
impl TryFrom<&ResourceRow> for Resource {
    type Error = Refusal;

    ghost try_from_gives = { λ row answer. plainly resource_row answer ≡ resource_of row.now };

    fn try_from(row: &ResourceRow) -> Result<Resource, Refusal> {
        let number = ResourceNumber::try_from(row.number)?;
        let qse = QseNumber::try_from(row.qse)?;
        let figures = Figures::try_from(&row.figures)?;
        Ok(Resource {
            number,
            qse,
            class: row.class,
            figures,
        })
    }
}

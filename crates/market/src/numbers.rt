// The checks that make a number of a QSE or a resource.
ghost use Rattle.std.specs.Prelude.{◌≡◌};
ghost use Rattle.market.specs.Answers.{plainly};
ghost use Rattle.market.specs.Limits.{numbered, number_of};

use crate::number::{QseNumber, ResourceNumber};
use terms::refusal::Refusal;

// Whether a number may stand for a QSE or a resource: it lies in 1 to 999,999.
fn is_lawful(value: u32) -> bool
    ensures answer { result ≡ numbered value }
{
    1 <= value && value <= 999_999
}

// This number, where it may stand for a QSE.
impl TryFrom<u32> for QseNumber {
    type Error = Refusal;

    ghost try_from_gives = { λ value answer. plainly (λ n. n.value) answer ≡ number_of value };

    fn try_from(value: u32) -> Result<QseNumber, Refusal> {
        if is_lawful(value) {
            Ok(QseNumber { value })
        } else {
            Err(Refusal::NumberOutOfRange)
        }
    }
}

// This number, where it may stand for a resource.
impl TryFrom<u32> for ResourceNumber {
    type Error = Refusal;

    ghost try_from_gives = { λ value answer. plainly (λ n. n.value) answer ≡ number_of value };

    fn try_from(value: u32) -> Result<ResourceNumber, Refusal> {
        if is_lawful(value) {
            Ok(ResourceNumber { value })
        } else {
            Err(Refusal::NumberOutOfRange)
        }
    }
}

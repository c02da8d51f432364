// The class of a resource.
ghost use Rattle.std.specs.Prelude.{◌≡◌};
ghost use Rattle.terms.specs.Classes.{class_of};

use crate::refusal::Refusal;

#[derive(Clone, Copy, PartialEq, Eq, Debug)]
pub enum Class {
    Generation,
    ControllableLoad,
    OtherLoad,
}

// The class of a number from 0 to 2.
impl TryFrom<u32> for Class {
    type Error = Refusal;

    ghost try_from_gives = { λ number answer. answer ≡ class_of number };

    fn try_from(number: u32) -> Result<Class, Refusal> {
        match number {
            0 => Ok(Class::Generation),
            1 => Ok(Class::ControllableLoad),
            2 => Ok(Class::OtherLoad),
            _ => Err(Refusal::FigureOutOfRange),
        }
    }
}

// Heads of groups: what a group's first word calls for.
ghost use Rattle.std.specs.Prelude.{◌≡◌};
ghost use Rattle.feed.specs.Groups.{needed as needed_by};
ghost use Rattle.feed.specs.Heads.{kind_number, kind_numbered, head_of};

use crate::words::{kind_of, value_of};
use terms::refusal::Refusal;

// What a group does: enrols a QSE, sets its quantities in a service, enters a resource, strikes one, sets the prices of a
// service, or those of an interval.
#[derive(Clone, Copy, PartialEq, Eq, Debug)]
pub enum Kind {
    Enrol = 1,
    Quantities = 2,
    Resource = 3,
    Strike = 4,
    Prices = 5,
    Interval = 6,
}

impl Kind {
    // How many data words follow a head of this kind.
    pub fn needed(self) -> usize
        ensures answer { result ≡ needed_by (kind_number self) }
    {
        match self {
            Kind::Enrol => 1,
            Kind::Quantities => 11,
            Kind::Resource => 9,
            Kind::Strike => 0,
            Kind::Prices => 3,
            Kind::Interval => 2,
        }
    }
}

impl TryFrom<u32> for Kind {
    type Error = Refusal;

    ghost try_from_gives = { λ number r. r ≡ kind_numbered number };

    fn try_from(number: u32) -> Result<Kind, Refusal> {
        match number {
            1 => Ok(Kind::Enrol),
            2 => Ok(Kind::Quantities),
            3 => Ok(Kind::Resource),
            4 => Ok(Kind::Strike),
            5 => Ok(Kind::Prices),
            6 => Ok(Kind::Interval),
            _ => Err(Refusal::UnknownHead),
        }
    }
}

impl From<Kind> for u32 {
    ghost from_gives = { λ kind number. number ≡ kind_number kind };

    fn from(kind: Kind) -> u32 {
        kind as u32
    }
}

// The first word of a group: its kind, and the number that it is about.
#[derive(Clone, Copy)]
pub(crate) struct Head {
    pub(crate) kind: Kind,
    pub(crate) value: u32,
}

impl TryFrom<u32> for Head {
    type Error = Refusal;

    ghost try_from_gives = { λ word r. r ≡ head_of word };

    fn try_from(word: u32) -> Result<Head, Refusal> {
        let kind = Kind::try_from(kind_of(word))?;
        Ok(Head {
            kind,
            value: value_of(word),
        })
    }
}

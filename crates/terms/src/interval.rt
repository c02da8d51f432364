// The four 15-minute intervals of the hour, and one of T for each of them.
ghost use Rattle.std.specs.Prelude.{◌≡◌};
ghost use Rattle.terms.specs.Intervals.{interval_of, every_interval, with_interval};

use crate::refusal::Refusal;

#[derive(Clone, Copy, PartialEq, Eq, Debug)]
pub enum Interval {
    First,
    Second,
    Third,
    Fourth,
}

// Beside `ByService`, since one type for both would keep its places by index and not by name.
#[derive(Clone, Copy)]
pub struct ByInterval<T> {
    pub first: T,
    pub second: T,
    pub third: T,
    pub fourth: T,
}

impl Interval {
    // All four in the order of their numbers.
    pub const ALL: [Interval; 4] = [
        Interval::First,
        Interval::Second,
        Interval::Third,
        Interval::Fourth,
    ];
}

// The interval of a number from 0 to 3.
impl TryFrom<u32> for Interval {
    type Error = Refusal;

    ghost try_from_gives = { λ number answer. answer ≡ interval_of number };

    fn try_from(number: u32) -> Result<Interval, Refusal> {
        match number {
            0 => Ok(Interval::First),
            1 => Ok(Interval::Second),
            2 => Ok(Interval::Third),
            3 => Ok(Interval::Fourth),
            _ => Err(Refusal::FigureOutOfRange),
        }
    }
}

impl<T: Copy> ByInterval<T> {
    // The same for every interval.
    pub fn always(value: T) -> ByInterval<T>
        ensures answer { result ≡ every_interval value }
    {
        ByInterval {
            first: value,
            second: value,
            third: value,
            fourth: value,
        }
    }

    // Gives this interval another value; the three others keep theirs.
    pub fn set(&mut self, interval: Interval, value: T)
        ensures after { self.new ≡ with_interval interval value self.old }
    {
        match interval {
            Interval::First => self.first = value,
            Interval::Second => self.second = value,
            Interval::Third => self.third = value,
            Interval::Fourth => self.fourth = value,
        }
    }
}

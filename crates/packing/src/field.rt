// The fields of a line: figures and services.
ghost use Rattle.std.specs.Prelude.{◌≡◌};
ghost use Rattle.packing.specs.Fields.{is_numeral, figure_within, figure_of, service_of_field, valued};

use crate::figure::Figure;
use crate::wrong::Wrong;
use std::str::FromStr;
use terms::service::Service;

// Whether a field is written in digits alone.
fn is_numeral(field: &str) -> bool
    ensures answer { result ≡ is_numeral field.now }
{
    // a loop, since with `all` the goal `returns-then-not-is_empty` stays open
    for byte in field.as_bytes() {
        if !byte.is_ascii_digit() {
            return false;
        }
    }
    !field.is_empty()
}

// This number as a figure, where 28 bits hold it.
impl TryFrom<u32> for Figure {
    type Error = Wrong;

    ghost try_from_gives = { λ value answer. valued answer ≡ figure_within value };

    fn try_from(value: u32) -> Result<Figure, Wrong> {
        if value < 1 << 28 {
            Ok(Figure { value })
        } else {
            Err(Wrong::TooLarge)
        }
    }
}

// The figure that a field writes.
impl FromStr for Figure {
    type Err = Wrong;

    ghost from_str_gives = { λ field answer. valued answer ≡ figure_of field };

    fn from_str(field: &str) -> Result<Figure, Wrong> {
        if !is_numeral(field) {
            return Err(Wrong::NotANumber);
        }
        match field.parse::<u32>() {
            Ok(value) => Figure::try_from(value),
            Err(_) => Err(Wrong::TooLarge),
        }
    }
}

// The service whose letter a field is. A function and no `FromStr`, since neither the trait nor the type is this crate's.
pub fn service(field: &str) -> Result<Service, Wrong>
    ensures answer { result ≡ service_of_field field.now }
{
    match field.as_bytes() {
        [letter] => Service::try_from(char::from(*letter)).map_err(|_| Wrong::NotALetter),
        _ => Err(Wrong::NotALetter),
    }
}

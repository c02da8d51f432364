// What can be wrong with a line.
use thiserror::Error;

// Why a line cannot be read.
#[derive(Clone, Copy, PartialEq, Eq, Debug, Error)]
pub enum Wrong {
    // the first field names no group
    #[error("no group has this name")]
    UnknownGroup,
    // fewer fields than the group has
    #[error("too few fields")]
    MissingField,
    // more fields than the group has
    #[error("too many fields")]
    ExtraField,
    // a field that is not digits alone where a figure stands
    #[error("a figure is written in digits alone")]
    NotANumber,
    // a figure of more than 28 bits
    #[error("a figure is at most 268435455")]
    TooLarge,
    // a field that is no service's letter where one stands
    #[error("a service is U, D, R, N or E")]
    NotALetter,
}

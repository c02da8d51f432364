use thiserror::Error;

// Why nothing was apportioned.
#[derive(Clone, Copy, PartialEq, Eq, Debug, Error)]
pub enum Unfit {
    // There are more rows than places.
    #[error("more rows than places")]
    TooFewPlaces,
    // The weights add up to 2^64 or more, or the total times their sum does.
    #[error("the weights, or the total times the weights, add up to 2^64 or more")]
    TooLarge,
}

// Why the program ends with status 1.
use std::io;
use terms::refusal::Refusal;
use thiserror::Error;

#[derive(Debug, Drop, Error)]
pub(crate) enum Failure {
    // the input could not be read, or the output not written
    #[error(transparent)]
    Io(#[from] io::Error),
    #[error("a statement could not be issued or written: {0:?}")]
    Refused(#[from] Refusal),
}

// Why the stored jobs cannot be read.
use std::alloc::AllocError;
use thiserror::Error;

#[derive(Clone, Copy, PartialEq, Eq, Debug, Error)]
pub(crate) enum Misread {
    #[error("a line of the stored jobs has no tab")]
    NoTab,
    #[error("a stored job is not written in pairs of hexadecimal digits")]
    NotHex,
    #[error("there is no memory left")]
    NoMemory(#[from(alloc)] AllocError),
}

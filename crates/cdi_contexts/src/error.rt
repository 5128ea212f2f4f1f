//! Why a request does not begin or end.
use thiserror::Error;

/// Why a request does not begin or end.
#[derive(Clone, Copy, Debug, PartialEq, Eq, Error)]
pub enum RequestError {
    #[error("a request is active already")]
    Active,
    #[error("no request is active")]
    Inactive,
}

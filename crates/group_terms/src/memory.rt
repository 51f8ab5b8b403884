//! The error of a call that is out of memory.
use std::alloc::{AllocError, AllocFailed};
use thiserror::Error;

/// Out of memory for what a call makes or grows.
#[derive(Clone, Copy, Debug, PartialEq, Eq, Error)]
#[error("memory is short")]
pub struct NoMemory;

impl From<AllocError> for NoMemory {
    fn from(_error: AllocError) -> Self {
        NoMemory
    }
}

impl<T: Drop> From<AllocFailed<T>> for NoMemory {
    fn from(_error: AllocFailed<T>) -> Self {
        NoMemory
    }
}

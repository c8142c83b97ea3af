//! The one fault of a source, a sink or a console.

use thiserror::Error;

/// A call on an object that was handed in failed, and the object has counted it.
#[derive(Clone, Copy, Debug, PartialEq, Eq, Error)]
#[error("the object that was handed in failed")]
pub struct Failed;

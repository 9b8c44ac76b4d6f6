// The phase of a session's writer.
use crate::held::Held;
use paged::{Append, Recovering};

/// A session's writer, or none, in the phase that it is in.
#[derive(Drop)]
pub(crate) enum WriterPhase<B, H> {
    /// The writer's recovery hasn't ended.
    Recovery(Held<B, H, Recovering>),
    /// The recovery has ended: the writer appends.
    Appending(Held<B, H, Append>),
}

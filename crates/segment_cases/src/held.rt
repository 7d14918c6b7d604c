//! What later lines are about.

use schema::Schema;
use std::alloc::Global;

/// The last schema, and the bytes of the segment that was written or opened last.
#[derive(Drop)]
pub(crate) struct Held {
    pub(crate) alloc: Global,
    pub(crate) schema: Schema,
    pub(crate) bytes: Vec<u8>,
}

impl Held {
    /// No field, and no segment.
    pub(crate) fn empty(alloc: Global) -> Held {
        Held {
            alloc,
            schema: Schema::builder(alloc).build(),
            bytes: Vec::new(alloc),
        }
    }
}

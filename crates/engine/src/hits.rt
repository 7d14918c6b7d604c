//! Documents that were found, with what is stored of them by the names of their fields.

ghost use Rattle.std.specs.Prelude.{◌≡◌, IfOk, map};
ghost use Rattle.engine.specs.Hits.{hit_of};
ghost use Rattle.index_state.specs.Hits.{shown_hit};

use common::Score;
use document::NamedDocument;
use index_state::StoredHit;
use schema::Schema;
use std::alloc::{AllocError, Global};

/// A document that was found.
#[derive(Drop)]
pub struct Hit {
    /// How well it matches.
    pub score: Score,
    /// What is stored of it.
    pub doc: NamedDocument,
}

/// Copies what `found` holds, by the names of the schema's fields.
pub(crate) fn named_hits(
    alloc: Global,
    schema: &Schema,
    found: &[StoredHit],
) -> Result<Vec<Hit>, AllocError>
    ensures { IfOk result (λ hits. map hit_of hits.items ≡ map (shown_hit schema.now) found.now) }
{
    let mut hits = Vec::with_capacity(alloc, found.len())?;
    for hit in found {
        let doc = hit.doc.to_named_doc(alloc, schema)?;
        hits.push(Hit {
            score: hit.score,
            doc,
        })?;
    }
    Ok(hits)
}

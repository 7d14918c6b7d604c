//! What the skip entries of a term's postings promise.

ghost use Rattle.std.specs.Prelude.{◌/◌, ◌≡◌, List, Some, length, map, slice_get, take, zip, ℕ};
ghost use Rattle.definitions.specs.Analyzers.{Analyzer};
ghost use Rattle.definitions.specs.Blocks.{block_len, blocks, bound_of};
ghost use Rattle.definitions.specs.Postings.{postings};
ghost use Rattle.definitions.specs.Schema.{IndexRecordOption, Schema};
ghost use Rattle.definitions.specs.Scoring.{length_id};
ghost use Rattle.definitions.specs.Terms.{field_of};
ghost use Rattle.definitions.specs.Values.{Document};
ghost use Rattle.layouts.specs.TermPostings.{bound_in, id_of, skip_entries, skip_entry};

/// States that the skip entry of a full block has the bound that no score of the block exceeds.
pub fn entries_tell_the_bounds_of_blocks()
    ensures { (option : IndexRecordOption) (ids : List ℕ) (next : ℕ) (docs counts : List ℕ) → length docs ≡ 128
        → length counts ≡ 128 → bound_in (skip_entry option ids next docs counts)
        ≡ bound_of (zip (map (id_of ids) docs) counts) }
{}

/// States that the skip entries of a term's postings in documents have the bounds of the term's full blocks, where
/// the ids are the length ids of these documents.
pub fn entries_tell_the_bounds_of_documents()
    ensures { (schema : Schema) (analyze : Analyzer) (option : IndexRecordOption) (ids : List ℕ) (t : List ℕ)
        (docs : List Document)
        → ((index : ℕ) (doc : Document) → slice_get docs index ≡ Some doc
        → id_of ids index ≡ length_id schema analyze (field_of t) doc)
        → map bound_in (skip_entries option ids (length (postings schema analyze t docs) / block_len) 0
        (map (λ p. p.doc) (postings schema analyze t docs)) (map (λ p. p.count) (postings schema analyze t docs)))
        ≡ map bound_of (take (length (postings schema analyze t docs) / block_len) (blocks schema analyze t docs)) }
{}

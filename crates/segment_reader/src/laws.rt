//! Laws of the terms of fields.

ghost use Rattle.std.specs.Prelude.{◌≡◌, List, ℕ};
ghost use Rattle.definitions.specs.Postings.{Posting, postings};
ghost use Rattle.definitions.specs.Analyzers.{Analyzer};
ghost use Rattle.definitions.specs.Schema.{Schema};
ghost use Rattle.definitions.specs.Values.{Document};
ghost use Rattle.segment_reader.specs.Readers.{postings_held};
ghost use Rattle.layouts.specs.InvertedIndexes.{AreGiven, AreIndexed, IndexedField};

/// States that fields with given postings have these for every term, and none for a term that has none.
pub fn given_postings_are_held()
    ensures { (given : List ℕ → List Posting) (schema : Schema) (fields : List IndexedField) (t : List ℕ)
        → AreGiven given schema fields → postings_held schema fields t ≡ given t }
{}

/// States that fields that documents were indexed into have for every term the documents that hold it, with its counts
/// and positions in them.
pub fn indexed_postings_are_held()
    ensures { (schema : Schema) (analyze : Analyzer) (docs : List Document) (fields : List IndexedField) (t : List ℕ)
        → AreIndexed schema analyze docs fields → postings_held schema fields t ≡ postings schema analyze t docs }
{}

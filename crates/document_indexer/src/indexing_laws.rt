//! Laws of the terms of an index of documents.

ghost use Rattle.std.specs.Prelude.{◌≡◌, List, ℕ};
ghost use Rattle.definitions.specs.Analyzers.{Analyzer};
ghost use Rattle.definitions.specs.Postings.{postings};
ghost use Rattle.definitions.specs.Schema.{Schema};
ghost use Rattle.definitions.specs.Values.{Document};
ghost use Rattle.layouts.specs.InvertedIndexes.{AreGiven, AreIndexed, IndexedField, option_of_term};
ghost use Rattle.postings_writer.specs.Occurrences.{Occurrence, postings_in};
ghost use Rattle.document_indexer.specs.Indexed.{AreOccurrences};

/// States that what is recorded of a term gives its postings in the documents.
pub fn documents_give_postings()
    ensures { (schema : Schema) (analyze : Analyzer) (docs : List Document) (os : List Occurrence)
        → AreOccurrences schema analyze docs os → (t : List ℕ)
        → postings_in (option_of_term schema t) t os ≡ postings schema analyze t docs }
{}

/// States that fields that have what is recorded are those of the documents.
pub fn documents_give_fields()
    ensures { (schema : Schema) (analyze : Analyzer) (docs : List Document) (os : List Occurrence)
        (fields : List IndexedField) → AreOccurrences schema analyze docs os
        → AreGiven (λ t. postings_in (option_of_term schema t) t os) schema fields
        → AreIndexed schema analyze docs fields }
{}

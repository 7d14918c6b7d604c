//! Laws of merging: what the living documents of several segments have is told by what each segment has.

ghost use Rattle.std.specs.Prelude.{◌≡◌, List, map, ℕ};
ghost use Rattle.definitions.specs.Alive.{Segment, live};
ghost use Rattle.definitions.specs.Analyzers.{Analyzer};
ghost use Rattle.definitions.specs.KeptLengths.{length_ids};
ghost use Rattle.definitions.specs.Merging.{documents_in, flags_of, merged_postings, merged_rows};
ghost use Rattle.definitions.specs.Postings.{postings};
ghost use Rattle.definitions.specs.Schema.{Schema};

/// The postings of the living documents are those of each segment, without the dead, by new numbers.
pub fn postings_are_merged()
    ensures { (schema : Schema) (analyze : Analyzer) (t : List ℕ) (segments : List Segment)
        → postings schema analyze t (live segments)
        ≡ merged_postings 0 (map (λ rows. (flags_of rows, postings schema analyze t (documents_in rows))) segments) }
{}

/// The lengths of the living documents are those of each segment, without the dead.
pub fn lengths_are_merged()
    ensures { (schema : Schema) (analyze : Analyzer) (field : ℕ) (segments : List Segment)
        → length_ids schema analyze (live segments) field
        ≡ merged_rows (map (λ rows. (flags_of rows, length_ids schema analyze (documents_in rows) field)) segments) }
{}

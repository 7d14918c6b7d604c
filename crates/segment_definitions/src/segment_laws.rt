//! Laws of segments and of the bodies that list them.

ghost use Rattle.std.specs.Prelude.{[], ◌<◌, ◌^◌, ◌∷◌, ◌≡◌, Bool, List, length, map, replicate, true, ℕ};
ghost use Rattle.std.specs.List.{AllByRecursion, items_where_true};
ghost use Rattle.definitions.specs.Alive.{Segment, live};
ghost use Rattle.definitions.specs.Analyzers.{Analyzer, IsAnalyzer};
ghost use Rattle.definitions.specs.Merging.{documents_in, flags_of, merged_rows};
ghost use Rattle.definitions.specs.Schema.{Schema};
ghost use Rattle.definitions.specs.Settings.{Settings};
ghost use Rattle.definitions.specs.Values.{Document};
ghost use Rattle.layouts.specs.InvertedIndexes.{AreIndexed, IndexedField, IsField};
ghost use Rattle.layouts.specs.RecordFiles.{AreTaken, IsDamaged};
ghost use Rattle.segment_definitions.specs.Keys.{AreKeyed};
ghost use Rattle.segment_definitions.specs.ListBodies.{Fits, Makes, Member, Part, segments_body};
ghost use Rattle.segment_definitions.specs.IndexFiles.{AreBodies, AreMade, IsRecordFile, TakesSegments};
ghost use Rattle.segment_definitions.specs.Segments.{IsSegment, IsSegmentOf, IsTaken};
ghost use Rattle.segment_definitions.specs.Slots.{slots};

/// States that a segment of documents is a segment, of as many documents.
pub fn a_segment_of_documents_is_a_segment()
    ensures { (schema : Schema) (analyze : Analyzer) (docs : List Document) (bytes : List ℕ)
        → IsSegmentOf schema analyze docs bytes → IsSegment schema (length docs) bytes }
{}

/// States that the terms of documents that an add accepts have the value bytes of their fields, as long as tokens are
/// texts.
pub fn terms_of_documents_are_keyed()
    ensures { (schema : Schema) (analyze : Analyzer) → IsAnalyzer analyze
        → (docs : List Document) → AllByRecursion (IsTaken schema) docs
        → (num_docs : ℕ) (norms : List (ℕ × List ℕ)) (fields : List IndexedField)
        → AllByRecursion (IsField schema num_docs norms) fields → AreIndexed schema analyze docs fields
        → AreKeyed schema fields }
{}

/// States that a body determines the parts that it encodes.
pub fn a_body_tells_its_parts()
    ensures { (parts others : List Part) (sets more : List (List Bool)) → AllByRecursion Fits parts
        → AllByRecursion Fits others → length parts < 2 ^ 32 → length others < 2 ^ 32
        → segments_body parts sets ≡ segments_body others more → parts ≡ others }
{}

/// States that a body makes one list from the list before, and bodies in sequence make one list each.
pub fn a_body_makes_one_list()
    ensures body { (schema : Schema) (before after others : List Member) (body : List ℕ)
        → Makes (IsSegment schema) before after body → Makes (IsSegment schema) before others body → after ≡ others }
    ensures bodies { (schema : Schema) (before : List Member) (bodies : List (List ℕ))
        (lists others : List (List Member)) → AreMade (IsSegment schema) before bodies lists
        → AreMade (IsSegment schema) before bodies others → lists ≡ others }
{}

/// States that each body of an index's file is accepted after those before it, so that such a file isn't damaged, and
/// that damage is at one gate.
pub fn a_file_of_segments_is_not_damaged()
    ensures taken { (first : List ℕ) (bodies : List (List ℕ)) → AreBodies (first ∷ bodies)
        → AreTaken TakesSegments [] (first ∷ bodies) }
    ensures undamaged { (schema : Schema) (settings : Settings) (analyze : Analyzer) (bytes : List ℕ)
        (lists : List (List (List Document))) (offset : ℕ) → IsRecordFile schema settings analyze bytes lists
        → ¬ IsDamaged TakesSegments bytes offset }
    ensures one_offset { (bytes : List ℕ) (first second : ℕ) → IsDamaged TakesSegments bytes first
        → IsDamaged TakesSegments bytes second → first ≡ second }
{}

/// The slots of the living documents are those of each segment, without the dead; and all of them where none is dead.
pub fn slots_are_merged()
    ensures living { (schema : Schema) (segments : List Segment)
        → slots schema (live segments)
        ≡ merged_rows (map (λ rows. (flags_of rows, slots schema (documents_in rows))) segments) }
    ensures all { (kept : List (List ℕ)) → items_where_true (replicate (length kept) true) kept ≡ kept }
{}

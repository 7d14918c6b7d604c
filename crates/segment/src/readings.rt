//! The law that a segment has one reading.

ghost use Rattle.std.specs.Prelude.{length, ◌<◌, ◌^◌, ◌≡◌, List, ℕ};
ghost use Rattle.definitions.specs.Analyzers.{Analyzer};
ghost use Rattle.definitions.specs.KeptLengths.{norms_of};
ghost use Rattle.definitions.specs.NumberCodes.{AreBytes};
ghost use Rattle.definitions.specs.Postings.{postings};
ghost use Rattle.definitions.specs.Schema.{Schema};
ghost use Rattle.definitions.specs.Values.{Document};
ghost use Rattle.segment_definitions.specs.Segments.{IsSegmentOf};
ghost use Rattle.segment_definitions.specs.Slots.{slots};

/// States that two lists of documents encoded by the same segment differ in nothing that a search sees, whatever
/// analyzers made their tokens: their number, lengths, postings of every term, and slots are equal.
pub fn a_segment_has_one_reading()
    ensures { (schema : Schema) (analyze other : Analyzer) (docs others : List Document) (bytes : List ℕ)
        → AreBytes bytes → length bytes < 2 ^ 63 → length schema < 2 ^ 32
        → IsSegmentOf schema analyze docs bytes
        → IsSegmentOf schema other others bytes
        → (length docs ≡ length others) × (norms_of schema analyze docs ≡ norms_of schema other others)
        × ((t : List ℕ) → postings schema analyze t docs ≡ postings schema other t others)
        × (slots schema docs ≡ slots schema others) }
{}

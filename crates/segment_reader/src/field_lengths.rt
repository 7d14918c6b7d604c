//! The lengths of a field's documents, whether the field keeps them or not.

ghost use Rattle.std.specs.Prelude.{◌≡◌, List, length, ℕ};
ghost use Rattle.definitions.specs.Analyzers.{Analyzer};
ghost use Rattle.definitions.specs.Schema.{Schema};
ghost use Rattle.definitions.specs.Scoring.{length_id};
ghost use Rattle.definitions.specs.Values.{Document};
ghost use Rattle.layouts.specs.InvertedIndexes.{field_ids};
ghost use Rattle.layouts.specs.TermPostings.{id_of};
ghost use Rattle.segment_reader.specs.SegmentReaders.{StandsFor, lengths_of, max_doc_of};
ghost use Rattle.segment_reader.specs.LengthIds.{AreIds};

use crate::segment_reader::SegmentReader;
use codes::FieldNormReader;
use terms::Field;

/// Returns the length ids of `field`; if the field keeps none, that of length 1 for each document.
pub fn lengths_of_field<'a>(reader: &SegmentReader<'a>, field: Field) -> FieldNormReader<'a>
    ensures each { length result ≡ max_doc_of reader.now }
    ensures kept { (doc : ℕ) → id_of result doc ≡ id_of (field_ids (lengths_of reader.now) field) doc }
    ensures ids { (schema : Schema) (analyze : Analyzer) (docs : List Document)
        → StandsFor schema analyze docs reader.now
        → AreIds (length_id schema analyze field) docs result }
{
    match reader.fieldnorms_readers().get_field(field.field_id()) {
        Some(ids) => ids,
        None => FieldNormReader::constant(reader.max_doc(), 1),
    }
}

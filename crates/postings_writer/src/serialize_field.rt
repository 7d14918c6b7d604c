//! The writing of the terms of a field.

ghost use Rattle.std.specs.Prelude.{[], ◌≡◌, ◌⊎◌, ◌∷◌, IfErr, IfOk, List, OnOk, bytes_eq, map, true, ℕ};
ghost use Rattle.std.specs.List.{AllByRecursion};
ghost use Rattle.std.specs.Map.{lookup};
ghost use Rattle.codes.specs.UnpackedBlocks.{listed};
ghost use Rattle.definitions.specs.Schema.{is_indexed};
ghost use Rattle.definitions.specs.declared.fault.Fault.TheVariants as faults;
ghost use Rattle.layouts.specs.InvertedIndexes.{IndexedField, IndexedTerm};
ghost use Rattle.options.specs.RecordOption.{record_option_of};
ghost use Rattle.postings_writer.specs.Fields.{HasRecorders, option_of_key};
ghost use Rattle.postings_writer.specs.Limits.{IsFieldRefusal};
ghost use Rattle.postings_writer.specs.Occurrences.{postings_at};
ghost use Rattle.postings_writer.specs.Sections.{AnyTermPasses, AreAdded, AreFieldsAdded, IsFieldOf};
ghost use Rattle.postings_writer.specs.Serializing.{CanWrite, postings_from};
ghost use Rattle.postings_writer.specs.declared.recorder.Recorder as recorders;
ghost use Rattle.terms.specs.Kinds.{kind_of};

use crate::field_postings::FieldPostings;
use crate::recorder::Recorder;
use crate::serialize_term::serialize_term;
use crate::{FieldSerializer, InvertedIndexSerializer};
use codes::FieldNormReader;
use definitions::Fault;
use options::IndexRecordOption;
use schema::FieldEntry;
use std::alloc::Global;
use terms::Type;

/// Returns what an indexed field records of its terms; of a JSON field, of those of texts.
pub fn index_record_option(entry: &FieldEntry) -> IndexRecordOption
    requires { is_indexed entry.now ≡ true }
    ensures { record_option_of result ≡ entry.now.record_option }
{
    entry
        .field_type()
        .get_index_record_option()
        .unwrap_or(IndexRecordOption::Basic)
}

/// Writes `terms` of a field of type `kind`, one after another.
fn serialize_terms<'a>(
    alloc: Global,
    kind: Type,
    terms: &[(&[u8], &Recorder)],
    serializer: &mut FieldSerializer<'a>,
) -> Result<(), Fault>
    requires nothing { serializer.old.positions.1 ≡ [] }
    requires can { AllByRecursion (λ t. CanWrite 0 serializer.old.writing.norms (postings_from t.1.now 0)) terms.now }
    ensures ok { OnOk result ((ts : List IndexedTerm)
        × AreAdded (kind_of kind) serializer.old serializer.new (map (λ t. (t.0.now, t.1.now)) terms.now) ts) }
    ensures err { IfErr result (λ fault. (fault ≡ faults.OutOfMemory)
        ⊎ ((fault ≡ faults.Limit)
        × AnyTermPasses (kind_of kind) serializer.old (map (λ t. (t.0.now, t.1.now)) terms.now))) }
{
    let mut occurrences = Vec::new(alloc);
    let mut deltas = Vec::new(alloc);
    for (key, recorder) in terms {
        serialize_term(
            key,
            kind.is_text_value(key),
            recorder,
            &mut occurrences,
            &mut deltas,
            serializer,
        )?;
    }
    Ok(())
}

impl FieldPostings {
    /// Writes the field after those before: its terms in the order of their value bytes.
    pub(crate) fn serialize<'a>(
        &self,
        alloc: Global,
        field: u32,
        entry: &FieldEntry,
        fieldnorm_reader: Option<FieldNormReader<'a>>,
        serializer: InvertedIndexSerializer,
    ) -> Result<InvertedIndexSerializer, Fault>
        requires indexed { is_indexed entry.now ≡ true }
        requires can { (key : List ℕ) (recorder : recorders.Recorder) → lookup (bytes_eq key) self.now ≡ Some recorder
            → CanWrite 0 fieldnorm_reader (postings_from recorder 0) }
        ensures ok { (occurrences : List ℕ → List (ℕ × ℕ)) → HasRecorders entry.now occurrences self.now
            → IfOk result (λ sections. (f : IndexedField) × (f.field ≡ field)
            × IsFieldOf entry.now (listed fieldnorm_reader.entry) occurrences f
            × AreFieldsAdded serializer sections (f ∷ [])) }
        ensures err { (occurrences : List ℕ → List (ℕ × ℕ)) → HasRecorders entry.now occurrences self.now
            → IfErr result (λ fault. IsFieldRefusal fault (option_of_key entry.now) (listed fieldnorm_reader.entry)
            (λ key. postings_at (option_of_key entry.now key) (occurrences key))) }
    {
        let short = self.short_terms(alloc)?;
        let terms = self.sorted_terms(alloc, &short)?;
        let option = index_record_option(entry);
        let mut field_serializer = serializer.new_field(alloc, field, option, fieldnorm_reader);
        serialize_terms(alloc, entry.value_type(), &terms, &mut field_serializer)?;
        Ok(field_serializer.close()?)
    }
}

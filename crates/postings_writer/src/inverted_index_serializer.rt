//! The sections of terms, postings and positions, written field by field.

ghost use Rattle.std.specs.Prelude.{[], ◌≡◌, ◌∷◌, IfOk};
ghost use Rattle.options.specs.RecordOption.{record_option_of};
ghost use Rattle.postings_writer.specs.FieldWriting.{field_begun};

use crate::field_serializer::FieldSerializer;
use crate::postings_serializer::PostingsSerializer;
use crate::term_dictionary_builder::TermDictionaryBuilder;
use codes::{FieldNormReader, PositionSerializer};
use options::IndexRecordOption;
use std::alloc::{AllocError, Global};
use std::marker::Model;

/// Terms, postings and positions of the fields that were written.
#[derive(Drop)]
pub struct InvertedIndexSerializer {
    pub(crate) terms: TermDictionaryBuilder,
    pub(crate) postings: Vec<u8>,
    pub(crate) positions_serializer: PositionSerializer,
}

impl Model for InvertedIndexSerializer {
    ghost use Rattle.std.specs.Prelude.{[], ◌≡◌};
    ghost use Rattle.layouts.specs.InvertedIndexes.{Sections};

    ghost Value = { Sections };

    ghost view = { λ s. record { terms = s.terms.closed; postings = s.postings.items; positions = s.positions_serializer.0 } };

    ghost invariant = { λ s. (s.terms.entries ≡ []) × (s.terms.num_terms ≡ 0) × (s.terms.last ≡ []) × (s.positions_serializer.1 ≡ []) };
}

impl InvertedIndexSerializer {
    /// Returns a serializer without fields; the section of terms begins with its kind.
    pub fn open(alloc: Global) -> Result<InvertedIndexSerializer, AllocError>
        ensures { IfOk result (λ sections. sections ≡ record { terms = 1 ∷ []; postings = []; positions = [] }) }
    {
        let mut terms = Vec::new(alloc);
        terms.push(1)?;
        Ok(InvertedIndexSerializer {
            terms: TermDictionaryBuilder::create(alloc, terms),
            postings: Vec::new(alloc),
            positions_serializer: PositionSerializer::new(alloc, Vec::new(alloc)),
        })
    }

    /// Begins `field`, which records `mode`; `fieldnorm_reader` has its lengths, if it keeps any.
    pub fn new_field<'a>(
        self,
        alloc: Global,
        field: u32,
        mode: IndexRecordOption,
        fieldnorm_reader: Option<FieldNormReader<'a>>,
    ) -> FieldSerializer<'a>
        ensures { result ≡ field_begun self field (record_option_of mode) fieldnorm_reader.entry }
    {
        FieldSerializer {
            terms: self.terms,
            postings_serializer: PostingsSerializer::new(alloc, mode, fieldnorm_reader),
            postings: self.postings,
            positions_serializer: self.positions_serializer,
            key: Vec::new(alloc),
            doc_freq: 0,
            total_term_freq: 0,
            field,
            num_tokens: 0,
        }
    }

    /// Returns the bytes of terms, postings and positions.
    pub fn close(self) -> (Vec<u8>, Vec<u8>, Vec<u8>)
        ensures terms { result.0.items ≡ self.terms }
        ensures postings { result.1.items ≡ self.postings }
        ensures positions { result.2.items ≡ self.positions }
    {
        let terms = self.terms.finish();
        let positions = self.positions_serializer.close();
        (terms, self.postings, positions)
    }
}

//! The postings of terms, with their positions.

ghost use Rattle.std.specs.Prelude.{[], ◌≡◌, IfNone, IfOk, IfSome, List, map};
ghost use Rattle.std.specs.List.{AllByRecursion};
ghost use Rattle.docsets.specs.Entries.{from};
ghost use Rattle.definitions.specs.Analyzers.{Analyzer};
ghost use Rattle.definitions.specs.Postings.{postings};
ghost use Rattle.definitions.specs.Schema.{Schema};
ghost use Rattle.definitions.specs.Values.{Document};
ghost use Rattle.leaf_weights.specs.ReadTerms.{HasMissing, placed_entries, placed_left, with_positions};
ghost use Rattle.segment_postings.specs.Cursors.{entries_left};
ghost use Rattle.segment_reader.specs.SegmentReaders.{StandsFor, max_doc_of};

use options::IndexRecordOption;
use segment_postings::SegmentPostings;
use segment_reader::SegmentReader;
use std::alloc::{AllocError, Global};
use terms::Term;

/// Reads the postings of `term`, with positions; `None` if no document holds it.
pub(crate) fn read_term<'a>(reader: &SegmentReader<'a>, term: &Term) -> Option<SegmentPostings<'a>>
    ensures some { (schema : Schema) (analyze : Analyzer) (docs : List Document)
        → StandsFor schema analyze docs reader.now
        → IfSome result (λ found. entries_left found ≡ with_positions (postings schema analyze term.now docs)) }
    ensures none { (schema : Schema) (analyze : Analyzer) (docs : List Document)
        → StandsFor schema analyze docs reader.now
        → IfNone result (postings schema analyze term.now docs ≡ []) }
    ensures within { IfSome result (λ found. from (max_doc_of reader.now) (entries_left found) ≡ []) }
{
    let index = reader.inverted_index();
    let _max_doc = reader.max_doc();
    index.read_postings(term, IndexRecordOption::WithFreqsAndPositions)
}

/// Reads the postings of `terms`, each with the offset of its term; `None` if one of them is in no document.
pub(crate) fn read_terms<'a>(
    alloc: Global,
    reader: &SegmentReader<'a>,
    terms: &[(usize, Term)],
) -> Result<Option<Vec<(usize, SegmentPostings<'a>)>>, AllocError>
    ensures some { (schema : Schema) (analyze : Analyzer) (docs : List Document)
        → StandsFor schema analyze docs reader.now
        → IfOk result (λ found. IfSome found (λ read. placed_left read.items
        ≡ placed_entries (λ t. postings schema analyze t docs) terms.now)) }
    ensures none { (schema : Schema) (analyze : Analyzer) (docs : List Document)
        → StandsFor schema analyze docs reader.now
        → IfOk result (λ found. IfNone found (HasMissing (λ t. postings schema analyze t docs) terms.now)) }
    ensures offsets { IfOk result (λ found. IfSome found (λ read. map (λ t. t.0) read.items
        ≡ map (λ t. t.0) terms.now)) }
    ensures within { IfOk result (λ found. IfSome found (λ read. AllByRecursion
        (λ t. from (max_doc_of reader.now) (entries_left t.1) ≡ []) read.items)) }
{
    let mut read = Vec::with_capacity(alloc, terms.len())?;
    for (offset, term) in terms {
        let Some(found) = read_term(reader, term) else {
            return Ok(None);
        };
        read.push((*offset, found))?;
    }
    Ok(Some(read))
}

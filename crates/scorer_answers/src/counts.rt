//! Counts of the living documents that match.

ghost use Rattle.std.specs.Prelude.{[], ◌≡◌, ◌≤◌, IfNone, IfSome, List, None, Some, length, ℕ};
ghost use Rattle.docsets.specs.Entries.{from};
ghost use Rattle.definitions.specs.Alive.{Segment};
ghost use Rattle.definitions.specs.Analyzers.{Analyzer};
ghost use Rattle.definitions.specs.Answers.{living_count};
ghost use Rattle.definitions.specs.Query as definitions;
ghost use Rattle.definitions.specs.Query.{Query, all};
ghost use Rattle.definitions.specs.Refusing.{tree_fault};
ghost use Rattle.definitions.specs.Schema.{IndexRecordOption as Asked, Schema};
ghost use Rattle.scorer_answers.specs.Matching.{Matches};
ghost use Rattle.scorer_answers.specs.Rows.{HasRows};
ghost use Rattle.segment_reader.specs.SegmentReaders.{alive_in, max_doc_of, num_alive};

use common::AliveBitSet;
use docsets::DocSet;
use options::IndexRecordOption;
use segment_reader::SegmentReader;
use terms::Term;

/// Returns the alive flags of the segment, if it has dead documents.
fn alive_bitset<'a>(reader: &SegmentReader<'a>) -> Option<&'a AliveBitSet>
    ensures some { IfSome result (λ alive. alive_in reader.now ≡ Some alive.now) }
    ensures each { IfSome result (λ alive. length alive.now ≡ max_doc_of reader.now) }
    ensures none { IfNone result (max_doc_of reader.now ≤ num_alive reader.now) }
{
    if reader.has_deletes() {
        return reader.alive_bitset();
    }
    None
}

/// Counts the remaining documents that are alive. The cursor is then exhausted.
pub fn count<D: DocSet>(docset: &mut D, reader: &SegmentReader<'_>) -> u32
    requires within { from (max_doc_of reader.now) (D.entries docset.old) ≡ [] }
    ensures count { (schema : Schema) (analyze : Analyzer) (weight : List ℕ → ℕ) (b : ℕ) (q : Query) (rows : Segment)
        → HasRows schema analyze rows reader.now
        → tree_fault schema weight b q ≡ None
        → Matches weight b q reader.now (D.entries docset.old)
        → result ≡ living_count schema analyze q rows }
    ensures done { D.entries docset.new ≡ [] }
{
    match alive_bitset(reader) {
        Some(alive) => docset.count(alive),
        None => docset.count_including_deleted(),
    }
}

/// Counts the documents that are alive: each matches the query of all documents.
pub fn count_all(reader: &SegmentReader<'_>) -> u32
    ensures { (schema : Schema) (analyze : Analyzer) (rows : Segment)
        → HasRows schema analyze rows reader.now
        → result ≡ living_count schema analyze all rows }
{
    reader.num_docs()
}

/// Counts the living documents that hold `term`. If all are alive, their number is read beside the term, and nothing is
/// decoded.
pub fn count_term(term: &Term, reader: &SegmentReader<'_>) -> u32
    ensures { (schema : Schema) (analyze : Analyzer) (option : Asked) (rows : Segment)
        → HasRows schema analyze rows reader.now
        → result ≡ living_count schema analyze (definitions.term term.now option) rows }
{
    let index = reader.inverted_index();
    let Some(alive) = alive_bitset(reader) else {
        return index.doc_freq(term);
    };
    match index.read_postings(term, IndexRecordOption::Basic) {
        Some(mut postings) => postings.count(alive),
        None => 0,
    }
}

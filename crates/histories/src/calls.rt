//! The calls of an index. Each function makes the call of its name, and states that the call is a step of a history, or
//! begins one.

ghost use Rattle.std.specs.Prelude.{[], IfOk, IsTrue, List, map};
ghost use Rattle.definitions.specs.Calls as calls;
ghost use Rattle.definitions.specs.Schema.{Schema as Fields};
ghost use Rattle.definitions.specs.Settings.{Settings as Numbers};
ghost use Rattle.definitions.specs.Step.{configuration_of};
ghost use Rattle.definitions.specs.Values.{Document};
ghost use Rattle.engine.specs.Files.{IsFileOf};
ghost use Rattle.engine.specs.Hits.{hit_of};
ghost use Rattle.engine.specs.Indexes.{ImagesLeave};
ghost use Rattle.histories.specs.Calls.{IsCalled, IsOpening, done, hits, number, outcome_of};
ghost use Rattle.histories.specs.Leading.{Begins};
ghost use Rattle.index_file.specs.Kept.{LeavesNow};
ghost use Rattle.query_trees.specs.Queries.{query_of};
ghost use Rattle.segment_definitions.specs.IndexFiles.{LeavesGroups};
ghost use Rattle.serde_json.specs.View.{view};

use common::{Analyzer, Device};
use definitions::Fault;
use document::CompactDoc;
use engine::{Hit, Index, Refused};
use query_trees::AnyQuery;
use schema::Schema;
use serde_json::Value as Json;
use settings::Settings;
use std::alloc::Global;
use std::ops::Range;
use terms::Term;

/// Adds a document.
pub fn add_document<D: Device + Drop, A: Analyzer + Drop>(
    index: &mut Index<D, A>,
    doc: &CompactDoc,
) -> Result<(), Fault>
    ensures { IsCalled A.analyze index.old index.new (calls.add_document doc.now)
        (outcome_of (λ _. done) result) }
{
    index.add_document(doc)
}

/// Adds the document in a JSON text.
pub fn add_json<D: Device + Drop, A: Analyzer + Drop>(
    index: &mut Index<D, A>,
    text: &str,
) -> Result<(), Fault>
    ensures { IsCalled A.analyze index.old index.new (calls.add_json text.now)
        (outcome_of (λ _. done) result) }
{
    index.add_json(text)
}

/// Adds the document in a JSON value.
pub fn add_value<D: Device + Drop, A: Analyzer + Drop>(
    index: &mut Index<D, A>,
    value: &Json,
) -> Result<(), Fault>
    ensures { IsCalled A.analyze index.old index.new (calls.add_value (view value.now))
        (outcome_of (λ _. done) result) }
{
    index.add_value(value)
}

/// Deletes the documents with a term.
pub fn delete_term<D: Device + Drop, A: Analyzer + Drop>(
    index: &mut Index<D, A>,
    term: &Term,
) -> Result<(), Fault>
    ensures { IsCalled A.analyze index.old index.new (calls.delete_term term.now)
        (outcome_of (λ _. done) result) }
{
    index.delete_term(term)
}

/// Commits what is pending.
pub fn commit<D: Device + Drop, A: Analyzer + Drop>(index: &mut Index<D, A>) -> Result<(), Fault>
    ensures { IsCalled A.analyze index.old index.new calls.commit_pending
        (outcome_of (λ _. done) result) }
{
    index.commit()
}

/// Merges the committed segments of a range.
pub fn merge<D: Device + Drop, A: Analyzer + Drop>(
    index: &mut Index<D, A>,
    range: Range<usize>,
) -> Result<(), Fault>
    ensures { IsCalled A.analyze index.old index.new (calls.merge_range range.start range.end)
        (outcome_of (λ _. done) result) }
{
    index.merge(range)
}

/// Searches for the best `k`.
pub fn search<D: Device + Drop, A: Analyzer + Drop>(
    index: &mut Index<D, A>,
    query: &AnyQuery,
    k: usize,
) -> Result<Vec<Hit>, Fault>
    ensures { IsCalled A.analyze index.old index.new (calls.search_best (query_of query.now) k)
        (outcome_of (λ found. hits (map hit_of found.items)) result) }
{
    index.search(query, k)
}

/// Counts the documents that match.
pub fn count<D: Device + Drop, A: Analyzer + Drop>(
    index: &Index<D, A>,
    query: &AnyQuery,
) -> Result<u64, Fault>
    ensures { IsCalled A.analyze index.now index.now (calls.count_all (query_of query.now)) (outcome_of number result) }
{
    index.count(query)
}

/// Creates an index without documents on a device that holds no byte: a history begins with it.
pub fn create<D: Device + Drop, A: Analyzer + Drop>(
    alloc: Global,
    device: D,
    analyzer: A,
    schema: Schema,
    settings: Settings,
) -> Result<Index<D, A>, Refused<D, A>>
    ensures begins { IsTrue (D.honest device) → IfOk result (λ index.
        Begins D.Device A.Analyzer index (configuration_of schema (A.analyze analyzer) settings) []) }
    ensures lists { IsTrue (D.honest device) → IfOk result (λ index. ImagesLeave A.analyze index []) }
{
    Index::create(alloc, device, analyzer, schema, settings)
}

/// Opens the index of the file on a device. A history begins with it, too, where the file is of groups.
pub fn open<D: Device + Drop, A: Analyzer + Drop>(
    alloc: Global,
    device: D,
    analyzer: A,
) -> Result<Index<D, A>, Refused<D, A>>
    ensures opening { IsOpening A.analyze (A.analyze analyzer) device result }
    ensures begins { (schema : Fields) (settings : Numbers) (groups : List (List Document)) → IsTrue (D.honest device)
        → IsFileOf schema settings (A.analyze analyzer) groups (D.content device) → IfOk result (λ index.
        Begins D.Device A.Analyzer index (configuration_of schema (A.analyze analyzer) settings) groups) }
    ensures lists { (schema : Fields) (settings : Numbers) (groups : List (List Document)) → IsTrue (D.honest device)
        → LeavesNow D.content D.unsynced device
        (λ image. LeavesGroups schema settings (A.analyze analyzer) image groups)
        → IfOk result (λ index. ImagesLeave A.analyze index groups) }
{
    Index::open(alloc, device, analyzer)
}

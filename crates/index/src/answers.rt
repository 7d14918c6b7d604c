//! The replies to requests to the session's index.

ghost use Rattle.std.specs.Prelude.{◌≡◌, ◌≢◌, ◌≤◌, ◌⊎◌, Err, IfErr, IfOk, IsErrOf, IsTrue, List, None, OnErr, OnOk, Some, false, map, true};
ghost use Rattle.std.specs.Cow.{cow_str_bytes};
ghost use Rattle.definitions.specs.Calls as calls;
ghost use Rattle.definitions.specs.Disk.{HasCause};
ghost use Rattle.definitions.specs.FaultNames.{reply_text};
ghost use Rattle.definitions.specs.Replies.{count_reply, hits_reply};
ghost use Rattle.definitions.specs.Requests as requests;
ghost use Rattle.definitions.specs.Scanning as scanning;
ghost use Rattle.definitions.specs.Step as steps;
ghost use Rattle.definitions.specs.declared.fault.Fault.TheVariants as faults;
ghost use Rattle.index.specs.AskedRequests.{index_request_of};
ghost use Rattle.index.specs.Asking.{AsksIndex};
ghost use Rattle.index.specs.Outcomes.{Ends, IndexComesTo, saying, saying_done};
ghost use Rattle.index.specs.Replying.{Answers, GoesOn, IndexMeets, IsFailed, IsUnwritten, OnlyStops, TakesChange, change_text};
ghost use Rattle.engine.specs.Indexes.{IndexStands, IsInFile, IsShadow, KeepsFile, KeepsMaking, device_of, schema_of};
ghost use Rattle.engine.specs.HandedOn.{scored, shown_hit};
ghost use Rattle.definitions.specs.Replying.{stops};
ghost use Rattle.reply_texts.specs.ToldHits.{told};
ghost use Rattle.serde_json.specs.View.{view};

use crate::requests::IndexRequest;
use common::{Analyzer, Device};
use definitions::Fault;
use engine::{Index, StoredHit};
use query_checks::read_query;
use reply_texts::{count_text, hits_text};
use serde_json::Value as Json;
use settings::read_term;
use std::borrow::CowStr;

/// The reply to a request that changed something.
const OK_REPLY: &str = "{\"ok\":true}";

/// Answers `request` to `index`.
pub(crate) fn answer<D: Device + Drop, A: Analyzer + Drop>(
    index: &mut Index<D, A>,
    request: IndexRequest<'_>,
) -> Result<CowStr<'static>, Fault>
    ensures answered { (c : calls.Configuration) (x : calls.Index) → IndexStands A.analyze index.old c x
        → Answers A.analyze index.new c x (index_request_of request.entry) result }
    ensures made { KeepsMaking index.old index.new }
    ensures kept { (c : calls.Configuration) (x : calls.Index) → IndexStands A.analyze index.old c x
        → OnOk result ((x.status ≡ calls.ready) ⊎ KeepsFile index.old index.new) }
    ensures rests { (c : calls.Configuration) (x : calls.Index) → IndexStands A.analyze index.old c x
        → IsInFile index.old x
        → OnOk result (IsInFile index.new ((steps.index_step c x (index_request_of request.entry)).1)) }
    ensures err { IfErr result (λ fault. IsTrue (stops fault)) }
    ensures honest { D.honest (device_of index.new) ≡ D.honest (device_of index.old) }
    ensures left { (c : calls.Configuration) (x : calls.Index) → IndexStands A.analyze index.old c x
        → IfErr result (λ fault. fault ≢ faults.Device
        → OnlyStops A.analyze index.old index.new c x (index_request_of request.entry) fault) }
    ensures later { D.failed (device_of index.old) ≤ D.failed (device_of index.new) }
    ensures failures { (c : calls.Configuration) (x : calls.Index) → IndexStands A.analyze index.old c x
        → HasCause (D.failed (device_of index.old)) (D.failed (device_of index.new)) result }
    ensures limit { (c : calls.Configuration) (x : calls.Index) → IndexStands A.analyze index.old c x
        → IsErrOf result faults.Limit → IndexMeets A.analyze index.old c x (Some (index_request_of request.entry)) }
    ensures file { IsUnwritten (Some (index_request_of request.entry)) result → KeepsFile index.old index.new }
    ensures asks { AsksIndex A.analyze index.old index.new (index_request_of request.entry) }
    ensures closed { (c : calls.Configuration) (x : calls.Index) → IndexStands A.analyze index.old c x
        → x.status ≡ calls.closed → ¬ IsErrOf result faults.Limit }
    ensures failed { (c : calls.Configuration) (x : calls.Index) → IndexStands A.analyze index.old c x
        → IsErrOf result faults.Device
        → IsFailed A.analyze index.old index.new c x (index_request_of request.entry) }
    ensures comes { IndexComesTo A.analyze index.old index.new (index_request_of request.entry) result }
{
    match request {
        IndexRequest::Add(doc) => answer_change(index.add_value(doc)),
        IndexRequest::Delete(term) => answer_change(delete(index, term)),
        IndexRequest::Merge(from, to) => answer_change(index.merge(from..to)),
        IndexRequest::Commit => answer_change(index.commit()),
        IndexRequest::Search(query, k) => search(index, query, k),
        IndexRequest::Count(query) => count(index, query),
    }
}

/// Deletes the documents with a term that is decoded from JSON.
fn delete<D: Device + Drop, A: Analyzer + Drop>(
    index: &mut Index<D, A>,
    term: &Json,
) -> Result<(), Fault>
    ensures ok { (c : calls.Configuration) (x : calls.Index) → IndexStands A.analyze index.old c x
        → OnOk result (TakesChange A.analyze index.new c x (requests.delete_docs (view term.now))) }
    ensures err { (c : calls.Configuration) (x : calls.Index) → IndexStands A.analyze index.old c x
        → IfErr result (λ fault. fault ≢ faults.OutOfMemory
        → steps.index_step c x (requests.delete_docs (view term.now)) ≡ steps.refusing fault x) }
    ensures left { (c : calls.Configuration) (x : calls.Index) → IndexStands A.analyze index.old c x
        → OnErr result (IndexStands A.analyze index.new c x) }
    ensures goes_on { (c : calls.Configuration) (x : calls.Index) → IndexStands A.analyze index.old c x
        → IfErr result (λ fault. fault ≢ faults.OutOfMemory → stops fault ≡ false) }
    ensures made { KeepsMaking index.old index.new }
    ensures file { KeepsFile index.old index.new }
    ensures ends { (c : calls.Configuration) (x : calls.Index) → IsShadow A.analyze index.old c x
        → Ends A.analyze index.old index.new c x (requests.delete_docs (view term.now)) (saying_done result) }
{
    index.check_writer()?;
    let term = read_term(index.alloc(), index.schema(), term)?;
    index.delete_term(&term)
}

/// Answers a search.
fn search<D: Device + Drop, A: Analyzer + Drop>(
    index: &mut Index<D, A>,
    query: &Json,
    k: u64,
) -> Result<CowStr<'static>, Fault>
    ensures answered { (c : calls.Configuration) (x : calls.Index) → IndexStands A.analyze index.old c x
        → Answers A.analyze index.new c x (requests.search_docs (view query.now) k) result }
    ensures err { (c : calls.Configuration) (x : calls.Index) → IndexStands A.analyze index.old c x
        → IfErr result (λ fault. fault ≡ faults.OutOfMemory) }
    ensures stops { IfErr result (λ fault. IsTrue (stops fault)) }
    ensures left { (c : calls.Configuration) (x : calls.Index) → IndexStands A.analyze index.old c x
        → IndexStands A.analyze index.new c x }
    ensures made { KeepsMaking index.old index.new }
    ensures file { KeepsFile index.old index.new }
    ensures comes { IndexComesTo A.analyze index.old index.new (requests.search_docs (view query.now) k) result }
{
    match find(index, query, k) {
        Ok((hits, _)) => Ok(CowStr::Owned(hits_text(index.alloc(), index.schema(), &hits)?)),
        Err(fault) => refusal(fault),
    }
}

/// Answers a count.
fn count<D: Device + Drop, A: Analyzer + Drop>(
    index: &Index<D, A>,
    query: &Json,
) -> Result<CowStr<'static>, Fault>
    ensures answered { (c : calls.Configuration) (x : calls.Index) → IndexStands A.analyze index.now c x
        → Answers A.analyze index.now c x (requests.count_docs (view query.now)) result }
    ensures err { (c : calls.Configuration) (x : calls.Index) → IndexStands A.analyze index.now c x
        → IfErr result (λ fault. fault ≡ faults.OutOfMemory) }
    ensures stops { IfErr result (λ fault. IsTrue (stops fault)) }
    ensures comes { IndexComesTo A.analyze index.now index.now (requests.count_docs (view query.now)) result }
{
    match find_count(index, query) {
        Ok(count) => Ok(CowStr::Owned(count_text(index.alloc(), count)?)),
        Err(fault) => refusal(fault),
    }
}

/// Returns the best `k` hits of a query that is decoded from JSON, and how many blocks were decoded for them.
fn find<D: Device + Drop, A: Analyzer + Drop>(
    index: &mut Index<D, A>,
    query: &Json,
    k: u64,
) -> Result<(Vec<StoredHit>, u64), Fault>
    ensures ok { (c : calls.Configuration) (x : calls.Index) → IndexStands A.analyze index.old c x
        → IfOk result (λ found. (hs : List scanning.Hit)
        × (map (shown_hit (schema_of index.old)) found.0.items ≡ map scored hs)
        × (steps.index_step c x (requests.search_docs (view query.now) k) ≡ (hits_reply hs, x))) }
    ensures err { (c : calls.Configuration) (x : calls.Index) → IndexStands A.analyze index.old c x
        → IfErr result (λ fault. fault ≢ faults.OutOfMemory
        → steps.index_step c x (requests.search_docs (view query.now) k) ≡ steps.refusing fault x) }
    ensures own { (c : calls.Configuration) (x : calls.Index) → IndexStands A.analyze index.old c x
        → IfErr result (λ fault. fault ≡ faults.OutOfMemory → calls.status_fault x.status true ≡ None) }
    ensures goes_on { (c : calls.Configuration) (x : calls.Index) → IndexStands A.analyze index.old c x
        → IfErr result (λ fault. fault ≢ faults.OutOfMemory → stops fault ≡ false) }
    ensures left { (c : calls.Configuration) (x : calls.Index) → IndexStands A.analyze index.old c x
        → IndexStands A.analyze index.new c x }
    ensures made { KeepsMaking index.old index.new }
    ensures file { KeepsFile index.old index.new }
    ensures ends { (c : calls.Configuration) (x : calls.Index) → IsShadow A.analyze index.old c x
        → Ends A.analyze index.old index.new c x (requests.search_docs (view query.now) k)
        (saying result (λ found. hits_reply (map told (map (shown_hit (schema_of index.old)) found.0.items)))) }
{
    index.check_open()?;
    let query = read_query(index.alloc(), index.schema(), query)?;
    index.search_stored(&query, k as usize)
}

/// Counts the documents that match a query that is decoded from JSON.
fn find_count<D: Device + Drop, A: Analyzer + Drop>(
    index: &Index<D, A>,
    query: &Json,
) -> Result<u64, Fault>
    ensures ok { (c : calls.Configuration) (x : calls.Index) → IndexStands A.analyze index.now c x
        → IfOk result (λ count.
        steps.index_step c x (requests.count_docs (view query.now)) ≡ (count_reply count, x)) }
    ensures err { (c : calls.Configuration) (x : calls.Index) → IndexStands A.analyze index.now c x
        → IfErr result (λ fault. fault ≢ faults.OutOfMemory
        → steps.index_step c x (requests.count_docs (view query.now)) ≡ steps.refusing fault x) }
    ensures own { (c : calls.Configuration) (x : calls.Index) → IndexStands A.analyze index.now c x
        → IfErr result (λ fault. fault ≡ faults.OutOfMemory → calls.status_fault x.status true ≡ None) }
    ensures goes_on { (c : calls.Configuration) (x : calls.Index) → IndexStands A.analyze index.now c x
        → IfErr result (λ fault. fault ≢ faults.OutOfMemory → stops fault ≡ false) }
    ensures ends { (c : calls.Configuration) (x : calls.Index) → IsShadow A.analyze index.now c x
        → Ends A.analyze index.now index.now c x (requests.count_docs (view query.now)) (saying result count_reply) }
{
    index.check_open()?;
    let query = read_query(index.alloc(), index.schema(), query)?;
    index.count(&query)
}

/// Encodes the reply to a call that changes something.
pub(crate) fn answer_change(change: Result<(), Fault>) -> Result<CowStr<'static>, Fault>
    ensures text { IfOk result (λ text. cow_str_bytes text ≡ change_text change) }
    ensures on { OnOk result (GoesOn change) }
    ensures err { IfErr result (λ fault. IsTrue (stops fault)) }
    ensures same { IfErr result (λ fault. change ≡ Err fault) }
{
    match change {
        Ok(()) => Ok(CowStr::Borrowed(OK_REPLY)),
        Err(fault) => refusal(fault),
    }
}

/// Returns the reply that reports `fault`. One that stops the run is an error here, and reported by the run.
pub(crate) fn refusal(fault: Fault) -> Result<CowStr<'static>, Fault>
    ensures text { IfOk result (λ text. cow_str_bytes text ≡ reply_text fault) }
    ensures on { OnOk result (stops fault ≡ false) }
    ensures err { IfErr result (λ e. IsTrue (stops e)) }
    ensures same { IfErr result (λ e. e ≡ fault) }
{
    match fault {
        Fault::OutOfMemory | Fault::Limit | Fault::Device => Err(fault),
        fault => Ok(CowStr::Borrowed(fault.reply())),
    }
}

//! Additions of documents to an index.

ghost use Rattle.std.specs.Prelude.{[], ◌++◌, ◌<◌, ◌∷◌, ◌≡◌, ◌≢◌, ◌⊎◌, IfErr, IfOk, None, Ok, OnErr, OnOk, Some};
ghost use Rattle.definitions.specs.Calls as calls;
ghost use Rattle.definitions.specs.Reading.{read_data, read_json};
ghost use Rattle.definitions.specs.Values.{Document};
ghost use Rattle.definitions.specs.declared.fault.Fault.TheVariants as faults;
ghost use Rattle.document_indexer.specs.Indexed.{IsWithinLimits};
ghost use Rattle.index_state.specs.Pending.{open_docs};
ghost use Rattle.engine.specs.Indexes.{AddPasses, HasLongSlot, IndexStands, IsSame, IsShadow, IsStopped, KeepsFile, KeepsMaking, WaitsMore, schema_of, state_of};
ghost use Rattle.serde_json.specs.Read.{read};
ghost use Rattle.serde_json.specs.View.{view};

use crate::index::Index;
use crate::json_texts::parse_json;
use common::{Analyzer, Device};
use definitions::Fault;
use document::CompactDoc;
use serde_json::Value as Json;
use std::alloc::Global;

impl<D: Device + Drop, A: Analyzer + Drop> Index<D, A> {
    /// Adds `doc`, and indexes it; a search sees it after the next commit. A document of an unknown field is
    /// `UnknownField`, and one with a value that can't be indexed `NotIndexable`; one whose stored values are too long
    /// beside a block is `Limit`, and changes nothing. Any other limit closes the writer, as does out of memory while
    /// `doc` is indexed.
    pub fn add_document(&mut self, doc: &CompactDoc) -> Result<(), Fault>
        ensures left { (c : calls.Configuration) (x : calls.Index) → IndexStands A.analyze self.old c x
            → (y : calls.Index) × calls.Leaves c x (calls.add_document doc.now) result y
            × IndexStands A.analyze self.new c y }
        ensures exact { (c : calls.Configuration) (x : calls.Index) → IndexStands A.analyze self.old c x
            → IfErr result (λ fault. fault ≢ faults.OutOfMemory → fault ≢ faults.Limit
            → calls.call_fault c x (calls.add_document doc.now) ≡ Some fault) }
        ensures limit { (c : calls.Configuration) (x : calls.Index) → IndexStands A.analyze self.old c x
            → IfErr result (λ fault. fault ≡ faults.Limit → AddPasses c x.state self.old doc.now) }
        ensures within { (c : calls.Configuration) (x : calls.Index) → IndexStands A.analyze self.old c x
            → OnOk result (IsWithinLimits c.schema c.analyze (open_docs c.docs_per_segment x.state.pending) doc.now) }
        ensures short { OnOk result (¬ HasLongSlot self.old doc.now) }
        ensures long { (c : calls.Configuration) (x : calls.Index) → IndexStands A.analyze self.old c x
            → HasLongSlot self.old doc.now → OnErr result (IndexStands A.analyze self.new c x) }
        ensures closed { IfErr result (λ fault. fault ≡ faults.Limit
            → ¬ HasLongSlot self.old doc.now → state_of self.new ≡ calls.writer_closed) }
        ensures made { KeepsMaking self.old self.new }
        ensures file { KeepsFile self.old self.new }

        // Of any index, whatever documents its segments are of.
        ensures refused { (c : calls.Configuration) (x : calls.Index) → IsShadow A.analyze self.old c x
            → IfErr result (λ fault. fault ≢ faults.OutOfMemory → fault ≢ faults.Limit
            → calls.call_fault c x (calls.add_document doc.now) ≡ Some fault) }
        ensures admitted { (c : calls.Configuration) (x : calls.Index) → IsShadow A.analyze self.old c x
            → OnOk result (calls.call_fault c x (calls.add_document doc.now) ≡ None) }
        ensures same { IfErr result (λ fault. fault ≢ faults.OutOfMemory → fault ≢ faults.Limit
            → IsSame self.old self.new) }
        ensures stopped { OnErr result (IsSame self.old self.new ⊎ IsStopped calls.writer_closed self.old self.new) }
        ensures ready { OnOk result (state_of self.new ≡ calls.ready) }
        ensures same_beside { HasLongSlot self.old doc.now → OnErr result (IsSame self.old self.new) }
        ensures waits { OnOk result (WaitsMore A.analyze doc.now self.old self.new) }
    {
        self.index_state.add_document(doc)
    }

    /// Adds the document in the JSON `text`, like `add_document`. A text that isn't a JSON object is `NotAnObject`; a
    /// value that its field doesn't accept is refused as its type says.
    pub fn add_json(&mut self, text: &str) -> Result<(), Fault>
        ensures left { (c : calls.Configuration) (x : calls.Index) → IndexStands A.analyze self.old c x
            → (y : calls.Index) × calls.Leaves c x (calls.add_json text.now) result y
            × IndexStands A.analyze self.new c y }
        ensures exact { (c : calls.Configuration) (x : calls.Index) → IndexStands A.analyze self.old c x
            → IfErr result (λ fault. fault ≢ faults.OutOfMemory → fault ≢ faults.Limit
            → calls.call_fault c x (calls.add_json text.now) ≡ Some fault) }
        ensures limit { (c : calls.Configuration) (x : calls.Index) → IndexStands A.analyze self.old c x
            → IfErr result (λ fault. fault ≡ faults.Limit
            → (doc : Document) × (read_json c.schema text.now ≡ Ok doc)
            × AddPasses c x.state self.old doc) }
        ensures short { (c : calls.Configuration) (x : calls.Index) (doc : Document)
            → IndexStands A.analyze self.old c x → read_json c.schema text.now ≡ Ok doc
            → OnOk result (¬ HasLongSlot self.old doc) }
        ensures long { (c : calls.Configuration) (x : calls.Index) (doc : Document)
            → IndexStands A.analyze self.old c x → read_json c.schema text.now ≡ Ok doc → HasLongSlot self.old doc
            → OnErr result (IndexStands A.analyze self.new c x) }
        ensures within { (c : calls.Configuration) (x : calls.Index) (doc : Document)
            → IndexStands A.analyze self.old c x → read_json c.schema text.now ≡ Ok doc
            → OnOk result (IsWithinLimits c.schema c.analyze (open_docs c.docs_per_segment x.state.pending) doc) }
        ensures closed { (c : calls.Configuration) (x : calls.Index) (doc : Document)
            → IndexStands A.analyze self.old c x → read_json c.schema text.now ≡ Ok doc
            → IfErr result (λ fault. fault ≡ faults.Limit
            → ¬ HasLongSlot self.old doc → state_of self.new ≡ calls.writer_closed) }
        ensures made { KeepsMaking self.old self.new }
        ensures file { KeepsFile self.old self.new }

        // Of any index, whatever documents its segments are of.
        ensures refused { (c : calls.Configuration) (x : calls.Index) → IsShadow A.analyze self.old c x
            → IfErr result (λ fault. fault ≢ faults.OutOfMemory → fault ≢ faults.Limit
            → calls.call_fault c x (calls.add_json text.now) ≡ Some fault) }
        ensures admitted { (c : calls.Configuration) (x : calls.Index) → IsShadow A.analyze self.old c x
            → OnOk result (calls.call_fault c x (calls.add_json text.now) ≡ None) }
        ensures same { IfErr result (λ fault. fault ≢ faults.OutOfMemory → fault ≢ faults.Limit
            → IsSame self.old self.new) }
        ensures stopped { OnErr result (IsSame self.old self.new ⊎ IsStopped calls.writer_closed self.old self.new) }
        ensures ready { OnOk result (state_of self.new ≡ calls.ready) }
        ensures same_beside { (doc : Document) → read_json (schema_of self.old) text.now ≡ Ok doc
            → HasLongSlot self.old doc → OnErr result (IsSame self.old self.new) }
        ensures waits { (doc : Document) → read_json (schema_of self.old) text.now ≡ Ok doc
            → OnOk result (WaitsMore A.analyze doc self.old self.new) }
    {
        self.index_state.check_writer()?;
        let json = read_json(self.alloc(), text)?;
        self.add_value(&json)
    }

    /// Adds the document in the JSON value `value`, like `add_json`.
    pub fn add_value(&mut self, value: &Json) -> Result<(), Fault>
        ensures left { (c : calls.Configuration) (x : calls.Index) → IndexStands A.analyze self.old c x
            → (y : calls.Index) × calls.Leaves c x (calls.add_value (view value.now)) result y
            × IndexStands A.analyze self.new c y }
        ensures exact { (c : calls.Configuration) (x : calls.Index) → IndexStands A.analyze self.old c x
            → IfErr result (λ fault. fault ≢ faults.OutOfMemory → fault ≢ faults.Limit
            → calls.call_fault c x (calls.add_value (view value.now)) ≡ Some fault) }
        ensures limit { (c : calls.Configuration) (x : calls.Index) → IndexStands A.analyze self.old c x
            → IfErr result (λ fault. fault ≡ faults.Limit
            → (doc : Document) × (read_data c.schema (view value.now) ≡ Ok doc)
            × AddPasses c x.state self.old doc) }
        ensures short { (c : calls.Configuration) (x : calls.Index) (doc : Document)
            → IndexStands A.analyze self.old c x → read_data c.schema (view value.now) ≡ Ok doc
            → OnOk result (¬ HasLongSlot self.old doc) }
        ensures long { (c : calls.Configuration) (x : calls.Index) (doc : Document)
            → IndexStands A.analyze self.old c x → read_data c.schema (view value.now) ≡ Ok doc
            → HasLongSlot self.old doc
            → OnErr result (IndexStands A.analyze self.new c x) }
        ensures within { (c : calls.Configuration) (x : calls.Index) (doc : Document)
            → IndexStands A.analyze self.old c x → read_data c.schema (view value.now) ≡ Ok doc
            → OnOk result (IsWithinLimits c.schema c.analyze (open_docs c.docs_per_segment x.state.pending) doc) }
        ensures closed { (c : calls.Configuration) (x : calls.Index) (doc : Document)
            → IndexStands A.analyze self.old c x → read_data c.schema (view value.now) ≡ Ok doc
            → IfErr result (λ fault. fault ≡ faults.Limit
            → ¬ HasLongSlot self.old doc → state_of self.new ≡ calls.writer_closed) }
        ensures made { KeepsMaking self.old self.new }
        ensures file { KeepsFile self.old self.new }

        // Of any index, whatever documents its segments are of.
        ensures refused { (c : calls.Configuration) (x : calls.Index) → IsShadow A.analyze self.old c x
            → IfErr result (λ fault. fault ≢ faults.OutOfMemory → fault ≢ faults.Limit
            → calls.call_fault c x (calls.add_value (view value.now)) ≡ Some fault) }
        ensures admitted { (c : calls.Configuration) (x : calls.Index) → IsShadow A.analyze self.old c x
            → OnOk result (calls.call_fault c x (calls.add_value (view value.now)) ≡ None) }
        ensures same { IfErr result (λ fault. fault ≢ faults.OutOfMemory → fault ≢ faults.Limit
            → IsSame self.old self.new) }
        ensures stopped { OnErr result (IsSame self.old self.new ⊎ IsStopped calls.writer_closed self.old self.new) }
        ensures ready { OnOk result (state_of self.new ≡ calls.ready) }
        ensures same_beside { (doc : Document) → read_data (schema_of self.old) (view value.now) ≡ Ok doc
            → HasLongSlot self.old doc → OnErr result (IsSame self.old self.new) }
        ensures waits { (doc : Document) → read_data (schema_of self.old) (view value.now) ≡ Ok doc
            → OnOk result (WaitsMore A.analyze doc self.old self.new) }
    {
        self.index_state.check_writer()?;
        let doc = CompactDoc::from_json_object(self.alloc(), self.schema(), value)?;
        self.index_state.add_document(&doc)
    }
}

/// Parses a JSON text.
fn read_json(alloc: Global, text: &str) -> Result<Json, Fault>
    ensures ok { IfOk result (λ json. read text.now ≡ Some (view json)) }
    ensures err { IfErr result (λ fault. fault ≢ faults.OutOfMemory
        → (fault ≡ faults.NotAnObject) × (read text.now ≡ None)) }
{
    match parse_json(alloc, text)? {
        Some(json) => Ok(json),
        None => Err(Fault::NotAnObject),
    }
}

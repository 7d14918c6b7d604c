//! The segments of an index, and what is pending until a commit.

ghost use Rattle.std.specs.Prelude.{[], ◌++◌, ◌<◌, ◌^◌, ◌∷◌, ◌≡◌, ◌≢◌, ◌≤◌, ◌⊎◌, Err, IfErr, IfOk, List, None, OnErr, OnOk, Some, false, length, map, true, ℕ};
ghost use Rattle.std.specs.List.{AllByRecursion, AllByRecursion-prop, AllZip};
ghost use Rattle.std.specs.Result.{result_err};
ghost use Rattle.definitions.specs.Alive.{live_groups};
ghost use Rattle.definitions.specs.Calls as calls;
ghost use Rattle.definitions.specs.Query.{term};
ghost use Rattle.definitions.specs.Refusing.{refusal};
ghost use Rattle.definitions.specs.Scanning as scanning;
ghost use Rattle.definitions.specs.Schema.{IndexRecordOption as Asked};
ghost use Rattle.definitions.specs.Settings.{similarity_of};
ghost use Rattle.definitions.specs.State as states;
ghost use Rattle.definitions.specs.Step.{configuration_of, fresh_index, reopened};
ghost use Rattle.definitions.specs.Values.{Document};
ghost use Rattle.definitions.specs.declared.fault.Fault.TheVariants as faults;
ghost use Rattle.document_indexer.specs.Indexed.{IsWithinLimits};
ghost use Rattle.query_trees.specs.Queries.{query_of};
ghost use Rattle.index_file.specs.Frames.{frame_bytes};
ghost use Rattle.segment.specs.Opened.{IsOpened, StandsFor};
ghost use Rattle.index_state.specs.DecodedBlocks.{AreDecoded};
ghost use Rattle.index_state.specs.Flags.{AreFlagged, flagged_each, members};
ghost use Rattle.index_state.specs.FlagsLaws.{AreFlagged-prop};
ghost use Rattle.index_state.specs.Limits.{TermsPass};
ghost use Rattle.index_state.specs.Pending.{HoldsSome, open_docs};
ghost use Rattle.index_state.specs.Statuses.{status_of};
ghost use Rattle.index_file.specs.Lists.{IsListed, member_of};
ghost use Rattle.segment_definitions.specs.ListBodies.{Makes};
ghost use Rattle.segment_definitions.specs.IndexFiles.{IsGroup};
ghost use Rattle.segment_definitions.specs.Segments.{IsSegment};
ghost use Rattle.segment_search.specs.Counted.{IsTermQuery};
ghost use Rattle.segment_search.specs.Hits.{scored, shown_hit};

use crate::add_checks::{check_document, check_slot};
use crate::commit_record::commit_record;
use crate::deletions::{Deletion, check_deletion, copied};
use crate::living_counts::count_alive;
use crate::parts::parted;
use crate::pending_segments::PendingSegments;
use crate::prepared::Prepared;
use crate::status::Status;
use common::{AliveBitSet, Analyzer};
use definitions::Fault;
use document::CompactDoc;
use index_file::Member;
use query_trees::AnyQuery;
use schema::Schema;
use segment::Segment;
use segment_search::{StoredHit, count, search_counted};
use settings::Settings;
use std::alloc::Global;
use std::mem;
use terms::Term;

/// The most segments that an index commits.
const MAX_SEGMENTS: usize = 4294967295;

/// The segments of an index: those that are committed, which searches see, each with which of its documents are alive;
/// and what is pending until a commit, segments and deletions. A document is indexed when it is added.
#[derive(Drop)]
pub struct IndexState<A: Analyzer> {
    pub(crate) alloc: Global,
    pub(crate) analyzer: A,
    pub(crate) schema: Schema,
    pub(crate) settings: Settings,
    // The committed ones, and after them those of a commit that is prepared.
    pub(crate) segments: Vec<Segment>,
    // One for each committed segment.
    pub(crate) alive: Vec<AliveBitSet>,
    pub(crate) pending: PendingSegments,
    pub(crate) deletions: Vec<Deletion>,
    pub(crate) status: Status,
    ghost opened: { ∥ AllByRecursion (IsOpened schema) segments.items ∥₁ },
    ghost flagged: { AreFlagged segments.items alive.items } by { AreFlagged-prop segments.items alive.items },
    ghost held: { ∥ (status_of status ≡ calls.ready
        → HoldsSome schema (A.analyze analyzer) settings.block_size pending) ∥₁ },
    ghost few: { length alive.items < 2 ^ 32 },
}

impl<A: Analyzer + Drop> IndexState<A> {
    ghost use Rattle.index_state.specs.Commits.{AreSets, IsPrepared, frame_in, members_with, sets_in};
    ghost use Rattle.index_state.specs.Records.{IsCommitBody, RecordsSegments};
    ghost use Rattle.index_state.specs.Standing.{AddPasses, AreHitsOf, DeletesMore, HasLongSlot, IsIdle, IsMadeAlike, IsSame, IsShadow, IsStopped, Stands, WaitsMore, alive_of, alloc_of, analyzer_of, committed_of, living_in, members_of, schema_of, settings_of, state_of};

    /// Returns an index without documents.
    pub fn new(alloc: Global, analyzer: A, schema: Schema, settings: Settings) -> IndexState<A>
        ensures stands { Stands A.analyze result (configuration_of schema (A.analyze analyzer) settings) fresh_index }
        ensures made { (schema_of result ≡ schema) × (settings_of result ≡ settings) × (analyzer_of result ≡ analyzer) }
        ensures none { members_of result ≡ [] }
        ensures idle { IsIdle result }
    {
        let segments = Vec::new(alloc);
        let alive = Vec::new(alloc);
        IndexState::of_parts(alloc, analyzer, schema, settings, segments, alive)
    }

    /// Returns an index of `segments`, each with the set of its alive documents in `alive`; nothing is pending.
    pub fn of_parts(
        alloc: Global,
        analyzer: A,
        schema: Schema,
        settings: Settings,
        segments: Vec<Segment>,
        alive: Vec<AliveBitSet>,
    ) -> IndexState<A>
        requires opened { AllByRecursion (IsOpened schema) segments.items }
        requires flagged { AreFlagged segments.items alive.items }
        requires each { length alive.items ≡ length segments.items }
        requires few { length alive.items < 2 ^ 32 }
        ensures stands { (groups : List (List Document))
            → AllZip (IsGroup schema (A.analyze analyzer)) (members segments.items alive.items) groups
            → Stands A.analyze result (configuration_of schema (A.analyze analyzer) settings) (reopened groups) }
        ensures made { (schema_of result ≡ schema) × (settings_of result ≡ settings) × (analyzer_of result ≡ analyzer) }
        ensures members { members_of result ≡ members segments.items alive.items }
        ensures idle { IsIdle result }
    {
        let _docs_per_segment = settings.docs_per_segment();
        let pending = PendingSegments::new(alloc);
        let deletions = Vec::new(alloc);
        IndexState {
            alloc,
            analyzer,
            schema,
            settings,
            segments,
            alive,
            pending,
            deletions,
            status: Status::Ready,
        }
    }

    /// Returns an index of the `members` that a file lists, in which nothing is pending; hands `analyzer` back if out
    /// of memory.
    pub fn of_members(
        alloc: Global,
        analyzer: A,
        schema: Schema,
        settings: Settings,
        members: Vec<Member>,
    ) -> Result<IndexState<A>, A>
        requires listed { AllByRecursion (IsListed schema) members.items }
        requires few { length members.items < 2 ^ 32 }
        ensures stands { (groups : List (List Document))
            → AllZip (IsGroup schema (A.analyze analyzer)) (map member_of members.items) groups
            → IfOk result (λ index. Stands A.analyze index (configuration_of schema (A.analyze analyzer) settings)
            (reopened groups)) }
        ensures made { IfOk result (λ index. (schema_of index ≡ schema) × (settings_of index ≡ settings)
            × (analyzer_of index ≡ analyzer)) }
        ensures members { IfOk result (λ index. members_of index ≡ map member_of members.items) }
        ensures idle { IfOk result IsIdle }
        ensures err { IfErr result (λ handed. handed ≡ analyzer) }
    {
        match parted(alloc, members) {
            Ok((segments, alive)) => Ok(IndexState::of_parts(
                alloc, analyzer, schema, settings, segments, alive,
            )),
            Err(_) => Err(analyzer),
        }
    }

    /// Returns the analyzer; what is pending is dropped.
    pub fn into_analyzer(self) -> A
        ensures { result ≡ analyzer_of self }
    {
        let IndexState { analyzer, .. } = self;
        analyzer
    }

    /// Returns the schema.
    pub fn schema(&self) -> &Schema
        ensures { result.now ≡ schema_of self.now }
    {
        &self.schema
    }

    /// Returns the settings.
    pub fn settings(&self) -> &Settings
        ensures { result.now ≡ settings_of self.now }
    {
        &self.settings
    }

    /// Returns the allocator.
    pub fn alloc(&self) -> Global
        ensures { result ≡ alloc_of self.now }
    {
        self.alloc
    }

    /// Returns what the index may still do.
    pub fn state(&self) -> Status
        ensures stands { (c : calls.Configuration) (x : calls.Index) → Stands A.analyze self.now c x
            → x.status ≡ status_of result }
        ensures status { status_of result ≡ state_of self.now }
    {
        self.status
    }

    /// Checks that searches are answered.
    pub fn check_open(&self) -> Result<(), Fault>
        ensures value { result_err result ≡ calls.status_fault (state_of self.now) true }
        ensures fault { IfErr result (λ fault. fault ≡ faults.Closed) }
    {
        self.status.check_open()
    }

    /// Checks that changes are accepted.
    pub fn check_writer(&self) -> Result<(), Fault>
        ensures value { result_err result ≡ calls.status_fault (state_of self.now) false }
        ensures fault { IfErr result (λ fault. (fault ≡ faults.WriterClosed) ⊎ (fault ≡ faults.Closed)) }
    {
        self.status.check_writer()
    }

    /// Adds `doc`, and indexes it; a search sees it after the next commit. A document of an unknown field is
    /// `UnknownField`, and one with a value that can't be indexed `NotIndexable`; one whose stored values are too long
    /// beside a block is `Limit`, and changes nothing. Any other limit closes the writer, as does out of memory while
    /// `doc` is indexed.
    pub fn add_document(&mut self, doc: &CompactDoc) -> Result<(), Fault>
        ensures left { (c : calls.Configuration) (x : calls.Index) → Stands A.analyze self.old c x
            → (y : calls.Index) × calls.Leaves c x (calls.add_document doc.now) result y
            × Stands A.analyze self.new c y }
        ensures exact { (c : calls.Configuration) (x : calls.Index) → Stands A.analyze self.old c x
            → IfErr result (λ fault. fault ≢ faults.OutOfMemory → fault ≢ faults.Limit
            → calls.call_fault c x (calls.add_document doc.now) ≡ Some fault) }
        ensures limit { (c : calls.Configuration) (x : calls.Index) → Stands A.analyze self.old c x
            → IfErr result (λ fault. fault ≡ faults.Limit → AddPasses c x.state self.old doc.now) }
        ensures within { (c : calls.Configuration) (x : calls.Index) → Stands A.analyze self.old c x
            → OnOk result (IsWithinLimits c.schema c.analyze (open_docs c.docs_per_segment x.state.pending) doc.now) }
        ensures short { OnOk result (¬ HasLongSlot self.old doc.now) }
        ensures long { (c : calls.Configuration) (x : calls.Index) → Stands A.analyze self.old c x
            → HasLongSlot self.old doc.now → OnErr result (Stands A.analyze self.new c x) }
        ensures closed { IfErr result (λ fault. fault ≡ faults.Limit
            → ¬ HasLongSlot self.old doc.now → state_of self.new ≡ calls.writer_closed) }
        ensures made { IsMadeAlike self.old self.new }
        ensures members { members_of self.new ≡ members_of self.old }

        // Of any index, whatever documents its segments are of.
        ensures refused { (c : calls.Configuration) (x : calls.Index) → IsShadow A.analyze self.old c x
            → IfErr result (λ fault. fault ≢ faults.OutOfMemory → fault ≢ faults.Limit
            → calls.call_fault c x (calls.add_document doc.now) ≡ Some fault) }
        ensures admitted { (c : calls.Configuration) (x : calls.Index) → IsShadow A.analyze self.old c x
            → OnOk result (calls.call_fault c x (calls.add_document doc.now) ≡ None) }
        ensures same { IfErr result (λ fault. fault ≢ faults.OutOfMemory → fault ≢ faults.Limit
            → IsSame self.old self.new) }
        ensures same_beside { HasLongSlot self.old doc.now → OnErr result (IsSame self.old self.new) }
        ensures stopped { OnErr result (IsSame self.old self.new ⊎ IsStopped calls.writer_closed self.old self.new) }
        ensures ready { OnOk result (state_of self.new ≡ calls.ready) }
        ensures waits { OnOk result (WaitsMore A.analyze doc.now self.old self.new) }
    {
        self.check_writer()?;
        check_document(&self.schema, doc)?;
        check_slot(self.alloc, &self.schema, self.settings.block_size(), doc)?;
        self.status = Status::WriterClosed;
        self.pending
            .add(&self.schema, &self.analyzer, &self.settings, doc)?;
        self.status = Status::Ready;
        Ok(())
    }

    /// Deletes the documents with `term` that were added before; a search misses them after the next commit. A term of
    /// an unknown field is `UnknownField`, one of a field that isn't indexed `NotIndexed`.
    pub fn delete_term(&mut self, term: &Term) -> Result<(), Fault>
        ensures left { (c : calls.Configuration) (x : calls.Index) → Stands A.analyze self.old c x
            → (y : calls.Index) × calls.Leaves c x (calls.delete_term term.now) result y
            × Stands A.analyze self.new c y }
        ensures exact { (c : calls.Configuration) (x : calls.Index) → Stands A.analyze self.old c x
            → IfErr result (λ fault. fault ≢ faults.OutOfMemory
            → calls.call_fault c x (calls.delete_term term.now) ≡ Some fault) }
        ensures made { IsMadeAlike self.old self.new }
        ensures members { members_of self.new ≡ members_of self.old }

        // Of any index, whatever documents its segments are of.
        ensures refused { (c : calls.Configuration) (x : calls.Index) → IsShadow A.analyze self.old c x
            → IfErr result (λ fault. fault ≢ faults.OutOfMemory
            → calls.call_fault c x (calls.delete_term term.now) ≡ Some fault) }
        ensures admitted { (c : calls.Configuration) (x : calls.Index) → IsShadow A.analyze self.old c x
            → OnOk result (calls.call_fault c x (calls.delete_term term.now) ≡ None) }
        ensures same { OnErr result (IsSame self.old self.new) }
        ensures ready { OnOk result (state_of self.new ≡ calls.ready) }
        ensures waits { OnOk result (DeletesMore term.now self.old self.new) }
    {
        self.check_writer()?;
        check_deletion(&self.schema, term)?;
        let deletion = Deletion {
            term: copied(self.alloc, term)?,
            segments: self.pending.num_full(),
            docs: self.pending.num_open_docs(),
        };
        self.deletions.push(deletion)?;
        Ok(())
    }

    /// Prepares a commit: makes what it writes and installs, in memory, and allocates all that it needs. Past the
    /// greatest number of segments it is `Limit`. Until the commit is installed no other change is accepted.
    pub fn prepare(&mut self) -> Result<Prepared, Fault>
        ensures prepared { (c : calls.Configuration) (x : calls.Index) → Stands A.analyze self.old c x
            → IfOk result (λ prepared. IsPrepared A.analyze self.new (sets_in prepared) c x) }
        ensures taken { (c : calls.Configuration) (x : calls.Index) → Stands A.analyze self.old c x
            → OnOk result (x.status ≡ calls.ready) }
        ensures stopped { (c : calls.Configuration) (x : calls.Index) → Stands A.analyze self.old c x
            → OnOk result (Stands A.analyze self.new c (record { state = x.state; status = calls.writer_closed })) }
        ensures left { (c : calls.Configuration) (x : calls.Index) → Stands A.analyze self.old c x
            → IfErr result (λ fault. (y : calls.Index) × calls.Leaves c x calls.commit_pending (Err fault) y
            × Stands A.analyze self.new c y) }
        ensures exact { (c : calls.Configuration) (x : calls.Index) → Stands A.analyze self.old c x
            → IfErr result (λ fault. fault ≢ faults.OutOfMemory → fault ≢ faults.Limit
            → calls.call_fault c x calls.commit_pending ≡ Some fault) }
        ensures fault { IfErr result (λ fault. (fault ≡ faults.OutOfMemory) ⊎ (fault ≡ faults.Limit)
            ⊎ (fault ≡ faults.WriterClosed) ⊎ (fault ≡ faults.Closed)) }
        ensures limit { (c : calls.Configuration) (x : calls.Index) → Stands A.analyze self.old c x
            → IfErr result (λ fault. fault ≡ faults.Limit
            → TermsPass c.schema c.analyze (open_docs c.docs_per_segment x.state.pending)
            ⊎ (2 ^ 32 ≤ length (calls.after c x.state calls.commit_pending).groups)) }
        ensures body { (c : calls.Configuration) (x : calls.Index) → Stands A.analyze self.old c x
            → IfOk result (λ prepared. (body : List ℕ) × (frame_in prepared ≡ frame_bytes body)
            × Makes (IsSegment c.schema) (members_of self.old) (members_with self.new prepared) body
            × IsCommitBody c.schema c.analyze c.docs_per_segment x.state.pending
            (members_of self.old) (members_with self.new prepared) body) }
        ensures flagged { IfOk result (λ prepared. AreSets self.new (sets_in prepared)) }
        ensures few { IfOk result (λ prepared. length (sets_in prepared) < 2 ^ 32) }
        ensures made { IsMadeAlike self.old self.new }
        ensures members { members_of self.new ≡ members_of self.old }

        // Of any index, whatever documents its segments are of.
        ensures refused { (c : calls.Configuration) (x : calls.Index) → IsShadow A.analyze self.old c x
            → IfErr result (λ fault. fault ≢ faults.OutOfMemory → fault ≢ faults.Limit
            → calls.call_fault c x calls.commit_pending ≡ Some fault) }
        ensures admitted { (c : calls.Configuration) (x : calls.Index) → IsShadow A.analyze self.old c x
            → OnOk result (calls.call_fault c x calls.commit_pending ≡ None) }
        ensures same { IfErr result (λ fault. fault ≢ faults.OutOfMemory → fault ≢ faults.Limit
            → IsSame self.old self.new) }
        ensures half_way { IfErr result (λ fault. (fault ≡ faults.OutOfMemory) ⊎ (fault ≡ faults.Limit)
            → IsStopped calls.writer_closed self.old self.new) }
        ensures begun { OnOk result (IsStopped calls.writer_closed self.old self.new) }
        ensures records { IfOk result (λ prepared. (body : List ℕ) × (frame_in prepared ≡ frame_bytes body)
            × RecordsSegments (schema_of self.old) calls.commit_pending
            (members_of self.old) (members_with self.new prepared) body) }
    {
        self.check_writer()?;
        self.status = Status::WriterClosed;
        // Only a commit that failed leaves more segments than alive sets.
        self.segments.truncate(self.alive.len());
        if self.pending.num_segments() > MAX_SEGMENTS - self.alive.len() {
            return Err(Fault::Limit);
        }
        commit_record(
            self.alloc,
            &self.schema,
            self.settings.cache_blocks() as usize,
            &mut self.segments,
            &self.alive,
            mem::replace(&mut self.pending, PendingSegments::new(self.alloc)),
            &self.deletions,
        )
    }

    /// Installs `prepared`: searches see it, and changes are accepted again. It takes no memory.
    pub fn install(&mut self, prepared: Prepared)
        requires flagged { AreSets self.old (sets_in prepared) }
        requires few { length (sets_in prepared) < 2 ^ 32 }
        ensures left { (c : calls.Configuration) (x : calls.Index)
            → IsPrepared A.analyze self.old (sets_in prepared) c x → Stands A.analyze self.new c
            (record { state = calls.after c x.state calls.commit_pending; status = calls.ready }) }
        ensures made { IsMadeAlike self.old self.new }
        ensures members { members_of self.new ≡ members_with self.old prepared }
        ensures idle { IsIdle self.new }
    {
        let Prepared { alive, .. } = prepared;
        self.alive = alive;
        self.pending = PendingSegments::new(self.alloc);
        self.deletions = Vec::new(self.alloc);
        self.status = Status::Ready;
    }

    /// Stops the index: it accepts no more calls but those of `status`, which isn't that of all calls.
    pub fn stop(&mut self, status: Status)
        requires { status_of status ≢ calls.ready }
        ensures left { (c : calls.Configuration) (x : calls.Index) → Stands A.analyze self.old c x
            → Stands A.analyze self.new c (record { state = x.state; status = status_of status }) }
        ensures made { IsMadeAlike self.old self.new }
        ensures members { members_of self.new ≡ members_of self.old }
        ensures stopped { IsStopped (status_of status) self.old self.new }
    {
        self.status = status;
    }

    /// Returns the number of committed segments, those without living documents too.
    pub fn num_segments(&self) -> usize
        ensures stands { (c : calls.Configuration) (x : calls.Index) → Stands A.analyze self.now c x
            → result ≡ states.num_segments x.state }
        ensures members { result ≡ length (members_of self.now) }
    {
        self.alive.len()
    }

    /// Returns the number of documents that are committed and alive.
    pub fn num_docs(&self) -> u64
        ensures stands { (c : calls.Configuration) (x : calls.Index) → Stands A.analyze self.now c x
            → result ≡ states.num_docs x.state }
        ensures living { result ≡ living_in (members_of self.now) }
    {
        count_alive(&self.alive)
    }

    /// Returns the best `limit` of the committed documents that match, by score, and then in the order of addition, and
    /// beside them how many blocks of postings were decoded for them, which is counted where the query is one term, and
    /// is 0 for any other. The caches of the segments' stores keep the blocks that are read.
    pub fn search_counted(
        &mut self,
        query: &AnyQuery,
        limit: usize,
    ) -> Result<(Vec<StoredHit>, u64), Fault>
        ensures ok { (c : calls.Configuration) (x : calls.Index) → Stands A.analyze self.old c x
            → IfOk result (λ found.
            (calls.call_fault c x (calls.search_best (query_of query.now) limit) ≡ None)
            × (map (shown_hit (schema_of self.old)) found.0.items
            ≡ map scored (scanning.scan c.schema c.analyze c.similarity (states.committed x.state) (query_of query.now)
            limit))) }
        ensures counted { (c : calls.Configuration) (x : calls.Index) (t : List ℕ) (option : Asked)
            → Stands A.analyze self.old c x → query_of query.now ≡ term t option
            → IfOk result (λ found. AreDecoded c x.state.groups (members_of self.old) t option limit found.1) }
        ensures uncounted { (¬ IsTermQuery (query_of query.now)) → IfOk result (λ found. found.1 ≡ 0) }
        ensures err { (c : calls.Configuration) (x : calls.Index) → Stands A.analyze self.old c x
            → IfErr result (λ fault. fault ≢ faults.OutOfMemory
            → calls.call_fault c x (calls.search_best (query_of query.now) limit) ≡ Some fault) }
        ensures faults { IfErr result (λ fault. (fault ≡ faults.Closed) ⊎ (fault ≡ faults.OutOfMemory)
            ⊎ (fault ≡ faults.Damaged None) ⊎ (refusal (schema_of self.old)
            (similarity_of (settings_of self.old)).weight (query_of query.now) ≡ Some fault)) }
        ensures own { (c : calls.Configuration) (x : calls.Index) → Stands A.analyze self.old c x
            → IfErr result (λ fault. fault ≡ faults.OutOfMemory
            → calls.call_fault c x (calls.search_best (query_of query.now) limit) ≡ None) }
        ensures accepted { IfOk result (λ found. refusal (schema_of self.old)
            (similarity_of (settings_of self.old)).weight (query_of query.now) ≡ None) }
        ensures memory { IfErr result (λ fault. fault ≡ faults.OutOfMemory → refusal (schema_of self.old)
            (similarity_of (settings_of self.old)).weight (query_of query.now) ≡ None) }
        ensures left { (c : calls.Configuration) (x : calls.Index) → Stands A.analyze self.old c x
            → Stands A.analyze self.new c x }
        ensures made { IsMadeAlike self.old self.new }
        ensures members { members_of self.new ≡ members_of self.old }

        // Of any index, whatever documents its segments are of.
        ensures refused { (c : calls.Configuration) (x : calls.Index) → IsShadow A.analyze self.old c x
            → IfErr result (λ fault. fault ≢ faults.OutOfMemory → (fault ≡ faults.Damaged None)
            ⊎ (calls.call_fault c x (calls.search_best (query_of query.now) limit) ≡ Some fault)) }
        ensures admitted { (c : calls.Configuration) (x : calls.Index) → IsShadow A.analyze self.old c x
            → OnOk result (calls.call_fault c x (calls.search_best (query_of query.now) limit) ≡ None) }
        ensures answered { IfOk result (λ found.
            AreHitsOf self.old limit (map (shown_hit (schema_of self.old)) found.0.items)) }
        ensures same { IsSame self.old self.new }
    {
        self.check_open()?;
        search_counted(
            self.alloc,
            &self.schema,
            &mut self.segments,
            &self.alive,
            &self.settings,
            query,
            limit,
        )
    }

    /// Returns the number of committed documents that match.
    pub fn count(&self, query: &AnyQuery) -> Result<u64, Fault>
        ensures ok { (c : calls.Configuration) (x : calls.Index) → Stands A.analyze self.now c x
            → IfOk result (λ count.
            (calls.call_fault c x (calls.count_all (query_of query.now)) ≡ None)
            × (count ≡ scanning.scan_count c.schema c.analyze (states.committed x.state) (query_of query.now))) }
        ensures err { (c : calls.Configuration) (x : calls.Index) → Stands A.analyze self.now c x
            → IfErr result (λ fault. fault ≢ faults.OutOfMemory
            → calls.call_fault c x (calls.count_all (query_of query.now)) ≡ Some fault) }
        ensures faults { IfErr result (λ fault. (fault ≡ faults.Closed) ⊎ (fault ≡ faults.OutOfMemory)
            ⊎ (refusal (schema_of self.now) (similarity_of (settings_of self.now)).weight (query_of query.now)
            ≡ Some fault)) }
        ensures own { (c : calls.Configuration) (x : calls.Index) → Stands A.analyze self.now c x
            → IfErr result (λ fault. fault ≡ faults.OutOfMemory
            → calls.call_fault c x (calls.count_all (query_of query.now)) ≡ None) }
        ensures accepted { IfOk result (λ count. refusal (schema_of self.now)
            (similarity_of (settings_of self.now)).weight (query_of query.now) ≡ None) }
        ensures memory { IfErr result (λ fault. fault ≡ faults.OutOfMemory → refusal (schema_of self.now)
            (similarity_of (settings_of self.now)).weight (query_of query.now) ≡ None) }

        // Of any index, whatever documents its segments are of.
        ensures refused { (c : calls.Configuration) (x : calls.Index) → IsShadow A.analyze self.now c x
            → IfErr result (λ fault. fault ≢ faults.OutOfMemory
            → calls.call_fault c x (calls.count_all (query_of query.now)) ≡ Some fault) }
        ensures admitted { (c : calls.Configuration) (x : calls.Index) → IsShadow A.analyze self.now c x
            → OnOk result (calls.call_fault c x (calls.count_all (query_of query.now)) ≡ None) }
    {
        self.check_open()?;
        count(
            self.alloc,
            &self.schema,
            &self.segments,
            &self.alive,
            &self.settings,
            query,
        )
    }

    /// Returns the committed segments.
    pub fn segments(&self) -> &[Segment]
        ensures value { result.now ≡ committed_of self.now }
        ensures opened { ∥ AllByRecursion (IsOpened (schema_of self.now)) result.now ∥₁ }
        ensures flagged { AreFlagged result.now (alive_of self.now) }
        ensures each { length result.now ≡ length (alive_of self.now) }
        ensures stands { (c : calls.Configuration) (x : calls.Index) → Stands A.analyze self.now c x
            → (docs : List (List Document)) × AllZip (StandsFor c.schema c.analyze) docs result.now
            × (x.state.groups ≡ live_groups (flagged_each docs (alive_of self.now))) }
        ensures groups { (c : calls.Configuration) (x : calls.Index) → Stands A.analyze self.now c x
            → AllZip (IsGroup c.schema c.analyze) (members_of self.now) x.state.groups }
    {
        &self.segments[..self.alive.len()]
    }

    /// Returns the alive sets of the committed segments, one for each.
    pub fn alive(&self) -> &[AliveBitSet]
        ensures { result.now ≡ alive_of self.now }
    {
        &self.alive
    }
}

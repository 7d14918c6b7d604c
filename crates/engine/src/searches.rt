//! Searches of an index.

ghost use Rattle.std.specs.Prelude.{◌≡◌, ◌≢◌, ◌⊎◌, IfErr, IfOk, List, None, OnOk, Some, map, ℕ};
ghost use Rattle.definitions.specs.Calls as calls;
ghost use Rattle.definitions.specs.Query.{term};
ghost use Rattle.definitions.specs.Refusing.{refusal};
ghost use Rattle.definitions.specs.Scanning as scanning;
ghost use Rattle.definitions.specs.Schema.{IndexRecordOption as Asked};
ghost use Rattle.definitions.specs.Settings.{similarity_of};
ghost use Rattle.definitions.specs.State.{committed};
ghost use Rattle.definitions.specs.declared.fault.Fault.TheVariants as faults;
ghost use Rattle.query_trees.specs.Queries.{query_of};
ghost use Rattle.engine.specs.Hits.{hit_of};
ghost use Rattle.engine.specs.Indexes.{AreHitsOf, IndexStands, IsSame, IsShadow, KeepsFile, KeepsMaking, members_of, schema_of, settings_of};
ghost use Rattle.index_state.specs.DecodedBlocks.{AreDecoded};
ghost use Rattle.index_state.specs.Hits.{IsTermQuery, scored, shown_hit};

use crate::hits::{Hit, named_hits};
use crate::index::Index;
use common::{Analyzer, Device};
use definitions::Fault;
use index_state::StoredHit;
use query_trees::AnyQuery;

impl<D: Device + Drop, A: Analyzer + Drop> Index<D, A> {
    /// Returns the best `k` of the committed documents that match, by score, and then in the order of addition. The
    /// caches of the segments' stores keep the blocks that are read.
    pub fn search(&mut self, query: &AnyQuery, k: usize) -> Result<Vec<Hit>, Fault>
        ensures ok { (c : calls.Configuration) (x : calls.Index) → IndexStands A.analyze self.old c x
            → IfOk result (λ hits.
            (calls.call_fault c x (calls.search_best (query_of query.now) k) ≡ None)
            × (map hit_of hits.items
            ≡ map scored (scanning.scan c.schema c.analyze c.similarity (committed x.state) (query_of query.now) k))) }
        ensures err { (c : calls.Configuration) (x : calls.Index) → IndexStands A.analyze self.old c x
            → IfErr result (λ fault. fault ≢ faults.OutOfMemory
            → calls.call_fault c x (calls.search_best (query_of query.now) k) ≡ Some fault) }
        ensures faults { IfErr result (λ fault. (fault ≡ faults.Closed) ⊎ (fault ≡ faults.OutOfMemory)
            ⊎ (fault ≡ faults.Damaged None) ⊎ (refusal (schema_of self.old)
            (similarity_of (settings_of self.old)).weight (query_of query.now) ≡ Some fault)) }
        ensures own { (c : calls.Configuration) (x : calls.Index) → IndexStands A.analyze self.old c x
            → IfErr result (λ fault. fault ≡ faults.OutOfMemory
            → calls.call_fault c x (calls.search_best (query_of query.now) k) ≡ None) }
        ensures left { (c : calls.Configuration) (x : calls.Index) → IndexStands A.analyze self.old c x
            → IndexStands A.analyze self.new c x }
        ensures made { KeepsMaking self.old self.new }
        ensures file { KeepsFile self.old self.new }

        // Of any index, whatever documents its segments are of.
        ensures refused { (c : calls.Configuration) (x : calls.Index) → IsShadow A.analyze self.old c x
            → IfErr result (λ fault. fault ≢ faults.OutOfMemory → (fault ≡ faults.Damaged None)
            ⊎ (calls.call_fault c x (calls.search_best (query_of query.now) k) ≡ Some fault)) }
        ensures admitted { (c : calls.Configuration) (x : calls.Index) → IsShadow A.analyze self.old c x
            → OnOk result (calls.call_fault c x (calls.search_best (query_of query.now) k) ≡ None) }
        ensures answered { IfOk result (λ hits. AreHitsOf self.old k (map hit_of hits.items)) }
        ensures same { IsSame self.old self.new }
    {
        let (hits, _decoded_blocks) = self.search_counted(query, k)?;
        Ok(hits)
    }

    /// Returns the best `k` as `search` does, and beside them how many blocks of postings were decoded for them.
    ///
    /// The blocks are counted where the query is one term: in each segment that has it the first block, and each later
    /// one whose bound is above the score that a document has to exceed by then. For any other query the count is 0.
    pub fn search_counted(&mut self, query: &AnyQuery, k: usize) -> Result<(Vec<Hit>, u64), Fault>
        ensures ok { (c : calls.Configuration) (x : calls.Index) → IndexStands A.analyze self.old c x
            → IfOk result (λ found.
            (calls.call_fault c x (calls.search_best (query_of query.now) k) ≡ None)
            × (map hit_of found.0.items
            ≡ map scored (scanning.scan c.schema c.analyze c.similarity (committed x.state) (query_of query.now) k))) }
        ensures counted { (c : calls.Configuration) (x : calls.Index) (t : List ℕ) (option : Asked)
            → IndexStands A.analyze self.old c x → query_of query.now ≡ term t option
            → IfOk result (λ found. AreDecoded c x.state.groups (members_of self.old) t option k found.1) }
        ensures uncounted { (¬ IsTermQuery (query_of query.now)) → IfOk result (λ found. found.1 ≡ 0) }
        ensures err { (c : calls.Configuration) (x : calls.Index) → IndexStands A.analyze self.old c x
            → IfErr result (λ fault. fault ≢ faults.OutOfMemory
            → calls.call_fault c x (calls.search_best (query_of query.now) k) ≡ Some fault) }
        ensures faults { IfErr result (λ fault. (fault ≡ faults.Closed) ⊎ (fault ≡ faults.OutOfMemory)
            ⊎ (fault ≡ faults.Damaged None) ⊎ (refusal (schema_of self.old)
            (similarity_of (settings_of self.old)).weight (query_of query.now) ≡ Some fault)) }
        ensures own { (c : calls.Configuration) (x : calls.Index) → IndexStands A.analyze self.old c x
            → IfErr result (λ fault. fault ≡ faults.OutOfMemory
            → calls.call_fault c x (calls.search_best (query_of query.now) k) ≡ None) }
        ensures left { (c : calls.Configuration) (x : calls.Index) → IndexStands A.analyze self.old c x
            → IndexStands A.analyze self.new c x }
        ensures made { KeepsMaking self.old self.new }
        ensures file { KeepsFile self.old self.new }

        // Of any index, whatever documents its segments are of.
        ensures refused { (c : calls.Configuration) (x : calls.Index) → IsShadow A.analyze self.old c x
            → IfErr result (λ fault. fault ≢ faults.OutOfMemory → (fault ≡ faults.Damaged None)
            ⊎ (calls.call_fault c x (calls.search_best (query_of query.now) k) ≡ Some fault)) }
        ensures admitted { (c : calls.Configuration) (x : calls.Index) → IsShadow A.analyze self.old c x
            → OnOk result (calls.call_fault c x (calls.search_best (query_of query.now) k) ≡ None) }
        ensures answered { IfOk result (λ found. AreHitsOf self.old k (map hit_of found.0.items)) }
        ensures same { IsSame self.old self.new }
    {
        let (found, decoded_blocks) = self.search_stored(query, k)?;
        let hits = named_hits(self.alloc(), self.schema(), &found)?;
        Ok((hits, decoded_blocks))
    }

    /// Returns the best `k` as `search_counted` does, each document as its segment stores it: its values stand in the
    /// bytes of its slot, so this is the call for those who print them.
    pub fn search_stored(
        &mut self,
        query: &AnyQuery,
        k: usize,
    ) -> Result<(Vec<StoredHit>, u64), Fault>
        ensures ok { (c : calls.Configuration) (x : calls.Index) → IndexStands A.analyze self.old c x
            → IfOk result (λ found.
            (calls.call_fault c x (calls.search_best (query_of query.now) k) ≡ None)
            × (map (shown_hit (schema_of self.old)) found.0.items
            ≡ map scored (scanning.scan c.schema c.analyze c.similarity (committed x.state) (query_of query.now) k))) }
        ensures counted { (c : calls.Configuration) (x : calls.Index) (t : List ℕ) (option : Asked)
            → IndexStands A.analyze self.old c x → query_of query.now ≡ term t option
            → IfOk result (λ found. AreDecoded c x.state.groups (members_of self.old) t option k found.1) }
        ensures uncounted { (¬ IsTermQuery (query_of query.now)) → IfOk result (λ found. found.1 ≡ 0) }
        ensures err { (c : calls.Configuration) (x : calls.Index) → IndexStands A.analyze self.old c x
            → IfErr result (λ fault. fault ≢ faults.OutOfMemory
            → calls.call_fault c x (calls.search_best (query_of query.now) k) ≡ Some fault) }
        ensures faults { IfErr result (λ fault. (fault ≡ faults.Closed) ⊎ (fault ≡ faults.OutOfMemory)
            ⊎ (fault ≡ faults.Damaged None) ⊎ (refusal (schema_of self.old)
            (similarity_of (settings_of self.old)).weight (query_of query.now) ≡ Some fault)) }
        ensures own { (c : calls.Configuration) (x : calls.Index) → IndexStands A.analyze self.old c x
            → IfErr result (λ fault. fault ≡ faults.OutOfMemory
            → calls.call_fault c x (calls.search_best (query_of query.now) k) ≡ None) }
        ensures left { (c : calls.Configuration) (x : calls.Index) → IndexStands A.analyze self.old c x
            → IndexStands A.analyze self.new c x }
        ensures made { KeepsMaking self.old self.new }
        ensures file { KeepsFile self.old self.new }

        // Of any index, whatever documents its segments are of.
        ensures refused { (c : calls.Configuration) (x : calls.Index) → IsShadow A.analyze self.old c x
            → IfErr result (λ fault. fault ≢ faults.OutOfMemory → (fault ≡ faults.Damaged None)
            ⊎ (calls.call_fault c x (calls.search_best (query_of query.now) k) ≡ Some fault)) }
        ensures admitted { (c : calls.Configuration) (x : calls.Index) → IsShadow A.analyze self.old c x
            → OnOk result (calls.call_fault c x (calls.search_best (query_of query.now) k) ≡ None) }
        ensures answered { IfOk result (λ found.
            AreHitsOf self.old k (map (shown_hit (schema_of self.old)) found.0.items)) }
        ensures same { IsSame self.old self.new }
    {
        self.index_state.search_counted(query, k)
    }

    /// Returns the number of committed documents that match.
    pub fn count(&self, query: &AnyQuery) -> Result<u64, Fault>
        ensures ok { (c : calls.Configuration) (x : calls.Index) → IndexStands A.analyze self.now c x
            → IfOk result (λ count.
            (calls.call_fault c x (calls.count_all (query_of query.now)) ≡ None)
            × (count ≡ scanning.scan_count c.schema c.analyze (committed x.state) (query_of query.now))) }
        ensures err { (c : calls.Configuration) (x : calls.Index) → IndexStands A.analyze self.now c x
            → IfErr result (λ fault. fault ≢ faults.OutOfMemory
            → calls.call_fault c x (calls.count_all (query_of query.now)) ≡ Some fault) }
        ensures faults { IfErr result (λ fault. (fault ≡ faults.Closed) ⊎ (fault ≡ faults.OutOfMemory)
            ⊎ (refusal (schema_of self.now) (similarity_of (settings_of self.now)).weight (query_of query.now)
            ≡ Some fault)) }
        ensures own { (c : calls.Configuration) (x : calls.Index) → IndexStands A.analyze self.now c x
            → IfErr result (λ fault. fault ≡ faults.OutOfMemory
            → calls.call_fault c x (calls.count_all (query_of query.now)) ≡ None) }

        // Of any index, whatever documents its segments are of.
        ensures refused { (c : calls.Configuration) (x : calls.Index) → IsShadow A.analyze self.now c x
            → IfErr result (λ fault. fault ≢ faults.OutOfMemory
            → calls.call_fault c x (calls.count_all (query_of query.now)) ≡ Some fault) }
        ensures admitted { (c : calls.Configuration) (x : calls.Index) → IsShadow A.analyze self.now c x
            → OnOk result (calls.call_fault c x (calls.count_all (query_of query.now)) ≡ None) }
    {
        self.index_state.count(query)
    }
}

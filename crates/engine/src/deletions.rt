//! Deletions by term.

ghost use Rattle.std.specs.Prelude.{◌<◌, ◌≡◌, ◌≢◌, IfErr, None, OnErr, OnOk, Some};
ghost use Rattle.definitions.specs.Calls as calls;
ghost use Rattle.definitions.specs.declared.fault.Fault.TheVariants as faults;
ghost use Rattle.engine.specs.Indexes.{DeletesMore, IndexStands, IsSame, IsShadow, KeepsFile, KeepsMaking, state_of};

use crate::index::Index;
use common::{Analyzer, Device};
use definitions::Fault;
use terms::Term;

impl<D: Device + Drop, A: Analyzer + Drop> Index<D, A> {
    /// Deletes the documents with `term` that were added before; a search misses them after the next commit. A term of
    /// an unknown field is `UnknownField`, one of a field that isn't indexed `NotIndexed`.
    pub fn delete_term(&mut self, term: &Term) -> Result<(), Fault>
        ensures left { (c : calls.Configuration) (x : calls.Index) → IndexStands A.analyze self.old c x
            → (y : calls.Index) × calls.Leaves c x (calls.delete_term term.now) result y
            × IndexStands A.analyze self.new c y }
        ensures exact { (c : calls.Configuration) (x : calls.Index) → IndexStands A.analyze self.old c x
            → IfErr result (λ fault. fault ≢ faults.OutOfMemory
            → calls.call_fault c x (calls.delete_term term.now) ≡ Some fault) }
        ensures made { KeepsMaking self.old self.new }
        ensures file { KeepsFile self.old self.new }

        // Of any index, whatever documents its segments are of.
        ensures refused { (c : calls.Configuration) (x : calls.Index) → IsShadow A.analyze self.old c x
            → IfErr result (λ fault. fault ≢ faults.OutOfMemory
            → calls.call_fault c x (calls.delete_term term.now) ≡ Some fault) }
        ensures admitted { (c : calls.Configuration) (x : calls.Index) → IsShadow A.analyze self.old c x
            → OnOk result (calls.call_fault c x (calls.delete_term term.now) ≡ None) }
        ensures same { OnErr result (IsSame self.old self.new) }
        ensures ready { OnOk result (state_of self.new ≡ calls.ready) }
        ensures waits { OnOk result (DeletesMore term.now self.old self.new) }
    {
        self.index_state.delete_term(term)
    }
}

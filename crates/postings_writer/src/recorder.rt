//! Recorders of one term: its documents, how often it occurs in each, and at which positions.

ghost use Rattle.std.specs.Prelude.{[], ◌++◌, ◌+◌, ◌<◌, ◌^◌, ◌≡◌, ◌≤◌, ◌∷◌, IfErr, List, OnOk, length, map, slice_index_or as get_or, slice_set as set, suc, ℕ};
ghost use Rattle.definitions.specs.Schema as definitions;
ghost use Rattle.definitions.specs.declared.fault.Fault.TheVariants as faults;
ghost use Rattle.options.specs.RecordOption.{record_option_of};
ghost use Rattle.postings_writer.specs.Occurrences.{by_document, counts_of, docs_of, ends_in, last_count};
ghost use Rattle.postings_writer.specs.Recorders.{IsCountRefusal, IsCountWithin, recorded_as};

use crate::position_recorder::TfAndPositionRecorder;
use definitions::Fault;
use options::IndexRecordOption;
use std::alloc::{AllocError, Global};
use std::marker::Model;

/// Whether `doc` is the last of `docs`.
fn ends_in(docs: &[u32], doc: u32) -> bool
    ensures { result ≡ ends_in doc docs.now }
{
    match docs.last() {
        Some(last) => *last == doc,
        None => false,
    }
}

/// Whether the last pair is of `doc`.
fn stands_last(pairs: &[(u32, u32)], doc: u32) -> bool
    ensures { result ≡ ends_in doc (map (λ p. p.0) pairs.now) }
{
    match pairs.last() {
        Some(last) => last.0 == doc,
        None => false,
    }
}

/// Raises the last count by 1.
fn raise_last(counts: &mut Vec<(u32, u32)>) -> Result<(), Fault>
    requires { 0 < length counts.old.items }
    ensures ok { OnOk result ((m : ℕ) → length counts.old.items ≡ suc m
        → counts.new.items ≡ set counts.old.items m (
          (get_or counts.old.items m (0, 0)).0,
          (get_or counts.old.items m (0, 0)).1 + 1,
        )) }
    ensures within { OnOk result ((m : ℕ) → length counts.old.items ≡ suc m
        → (get_or counts.old.items m (0, 0)).1 + 1 < 2 ^ 32) }
    ensures err { IfErr result (λ fault. (fault ≡ faults.Limit)
        × ((m : ℕ) → length counts.old.items ≡ suc m → 2 ^ 32 ≤ (get_or counts.old.items m (0, 0)).1 + 1)) }
{
    let last = counts.len() - 1;
    let (doc, count) = counts[last];
    counts[last] = (doc, count.checked_add(1).ok_or(Fault::Limit)?);
    Ok(())
}

/// The documents of a term.
#[derive(Drop)]
pub struct DocIdRecorder {
    docs: Vec<u32>,
}

impl Model for DocIdRecorder {
    ghost use Rattle.std.specs.Prelude.{List, ℕ};

    ghost Value = { List ℕ };

    ghost view = { λ r. r.docs.items };
}

impl DocIdRecorder {
    /// Returns a recorder without documents.
    pub fn new(alloc: Global) -> DocIdRecorder
        ensures { result ≡ [] }
    {
        DocIdRecorder {
            docs: Vec::new(alloc),
        }
    }

    /// Records that the term occurs in `doc`, which isn't before the last one.
    pub fn record(&mut self, doc: u32) -> Result<(), AllocError>
        ensures { (ps : List (ℕ × ℕ)) (position : ℕ) → self.old ≡ docs_of ps
            → OnOk result (self.new ≡ docs_of (ps ++ (doc, position) ∷ [])) }
    {
        if ends_in(&self.docs, doc) {
            return Ok(());
        }
        self.docs.push(doc)?;
        Ok(())
    }

    /// Returns the documents.
    pub fn docs(&self) -> &[u32]
        ensures { result.now ≡ self.now }
    {
        &self.docs
    }
}

/// The documents of a term, and how often it occurs in each.
#[derive(Drop)]
pub struct TermFrequencyRecorder {
    counts: Vec<(u32, u32)>,
}

impl Model for TermFrequencyRecorder {
    ghost use Rattle.std.specs.Prelude.{List, ℕ};

    ghost Value = { List (ℕ × ℕ) };

    ghost view = { λ r. r.counts.items };
}

impl TermFrequencyRecorder {
    /// Returns a recorder without documents.
    pub fn new(alloc: Global) -> TermFrequencyRecorder
        ensures { result ≡ [] }
    {
        TermFrequencyRecorder {
            counts: Vec::new(alloc),
        }
    }

    /// Records one more occurrence of the term in `doc`, which isn't before the last one. A count past 4294967295 is
    /// refused.
    pub fn record(&mut self, doc: u32) -> Result<(), Fault>
        ensures ok { (ps : List (ℕ × ℕ)) (position : ℕ) → self.old ≡ counts_of ps
            → OnOk result (self.new ≡ counts_of (ps ++ (doc, position) ∷ [])) }
        ensures within { (ps : List (ℕ × ℕ)) (position : ℕ) → self.old ≡ counts_of ps
            → OnOk result (last_count (by_document (ps ++ (doc, position) ∷ [])) < 2 ^ 32) }
        ensures err { (ps : List (ℕ × ℕ)) (position : ℕ) → self.old ≡ counts_of ps
            → IfErr result (λ fault. IsCountRefusal fault (ps ++ (doc, position) ∷ [])) }
    {
        if !stands_last(&self.counts, doc) {
            self.counts.push((doc, 1))?;
            return Ok(());
        }
        raise_last(&mut self.counts)?;
        Ok(())
    }

    /// Returns the documents, each with its count.
    pub fn counts(&self) -> &[(u32, u32)]
        ensures { result.now ≡ self.now }
    {
        &self.counts
    }
}

/// The recorder of one term.
#[derive(Drop)]
pub(crate) enum Recorder {
    /// Documents.
    DocIds(DocIdRecorder),
    /// Documents and counts.
    TermFrequencies(TermFrequencyRecorder),
    /// Documents, counts and positions.
    TfAndPositions(TfAndPositionRecorder),
}

impl Recorder {
    /// Returns a recorder of what `option` says, without documents.
    pub fn new(alloc: Global, option: IndexRecordOption) -> Recorder
        ensures { result ≡ recorded_as (record_option_of option) [] }
    {
        match option {
            IndexRecordOption::Basic => Recorder::DocIds(DocIdRecorder::new(alloc)),
            IndexRecordOption::WithFreqs => Recorder::TermFrequencies(TermFrequencyRecorder::new(
                alloc,
            )),
            IndexRecordOption::WithFreqsAndPositions => Recorder::TfAndPositions(
                TfAndPositionRecorder::new(alloc),
            ),
        }
    }

    /// Records an occurrence of the term in `doc`, which isn't before the last one, at `position`. Where counts are
    /// recorded, one past 4294967295 is refused.
    pub fn record(&mut self, doc: u32, position: u32) -> Result<(), Fault>
        ensures ok { (option : definitions.IndexRecordOption) (ps : List (ℕ × ℕ)) → self.old ≡ recorded_as option ps
            → OnOk result (self.new ≡ recorded_as option (ps ++ (doc, position) ∷ [])) }
        ensures within { (option : definitions.IndexRecordOption) (ps : List (ℕ × ℕ))
            → self.old ≡ recorded_as option ps → OnOk result (IsCountWithin option (ps ++ (doc, position) ∷ [])) }
        ensures err { (option : definitions.IndexRecordOption) (ps : List (ℕ × ℕ)) → self.old ≡ recorded_as option ps
            → IfErr result (λ fault. IsCountRefusal fault (ps ++ (doc, position) ∷ [])) }
    {
        match self {
            Recorder::DocIds(recorder) => {
                recorder.record(doc)?;
                Ok(())
            }
            Recorder::TermFrequencies(recorder) => {
                recorder.record(doc)?;
                Ok(())
            }
            Recorder::TfAndPositions(recorder) => {
                recorder.record(doc, position)?;
                Ok(())
            }
        }
    }
}

//! The recorders of one field's terms.

ghost use Rattle.std.specs.Prelude.{[], ◌++◌, ◌<◌, ◌≡◌, ◌∷◌, IfErr, IfOk, IsSome, List, OnOk, Some, bytes_eq, length, map, true, ℕ};
ghost use Rattle.std.specs.List.{AllByRecursion, IsDistinct, list_any};
ghost use Rattle.std.specs.Map.{keys_of, lookup, update};
ghost use Rattle.definitions.specs.Schema.{is_indexed};
ghost use Rattle.definitions.specs.declared.fault.Fault.TheVariants as faults;
ghost use Rattle.layouts.specs.TermSections.{TermsAscend};
ghost use Rattle.options.specs.RecordOption.{record_option_of};
ghost use Rattle.postings_writer.specs.Fields.{AreShortTerms, HasRecorders, option_of_key, with_occurrence};
ghost use Rattle.postings_writer.specs.PackedKeys.{max_short};
ghost use Rattle.postings_writer.specs.Recorders.{IsCountRefusal};

use crate::packed_key::{MAX_SHORT_LEN, key_of, masked};
use crate::recorder::Recorder;
use crate::seeded_state::SeededState;
use definitions::Fault;
use options::IndexRecordOption;
use schema::FieldEntry;
use std::alloc::{AllocError, Global};
use std::collections::HashMap;
use std::marker::Model;

/// The terms of a field by their value bytes, each with its recorder. Value bytes of up to 15 bytes are kept as
/// numbers, since most are that short, each with the mask added. Longer ones are hashed after the mask.
#[derive(Drop)]
pub(crate) struct FieldPostings {
    mask: u128,
    short: HashMap<u128, Recorder>,
    long: HashMap<Vec<u8>, Recorder, SeededState>,
}

impl Model for FieldPostings {
    ghost use Rattle.std.specs.Prelude.{◌++◌, ◌<◌, length, map};
    ghost use Rattle.std.specs.List.{AllByRecursion};
    ghost use Rattle.std.specs.Map.{keys_of};
    ghost use Rattle.postings_writer.specs.Fields.{Terms};
    ghost use Rattle.postings_writer.specs.PackedKeys.{IsMasked, max_short, unpacked};

    ghost Value = { Terms };

    ghost view = { λ f. map (λ e. (unpacked f.mask e.0, e.1)) f.short.entries ++ map (λ e. (e.0.items, e.1)) f.long.entries };

    ghost invariant = { λ f. AllByRecursion (IsMasked f.mask) (keys_of f.short.entries)
        × AllByRecursion (λ key. max_short < length key.items) (keys_of f.long.entries) };
}

/// Returns what is recorded of the term of the field with the value bytes `key`.
fn option_of_key(entry: &FieldEntry, key: &[u8]) -> IndexRecordOption
    requires { is_indexed entry.now ≡ true }
    ensures { record_option_of result ≡ option_of_key entry.now key.now }
{
    let field_type = entry.field_type();
    if !field_type.value_type().is_text_value(key) {
        return IndexRecordOption::Basic;
    }
    field_type
        .get_index_record_option()
        .unwrap_or(IndexRecordOption::Basic)
}

impl FieldPostings {
    /// Returns a field without terms, with this mask.
    pub(crate) fn new(alloc: Global, mask: u128) -> FieldPostings
        ensures { result ≡ [] }
    {
        FieldPostings {
            mask,
            short: HashMap::new(alloc),
            long: HashMap::with_hasher(alloc, SeededState::new(mask)),
        }
    }

    /// Records an occurrence of the term with the value bytes `key` in `doc`, at `position`.
    pub(crate) fn record(
        &mut self,
        alloc: Global,
        entry: &FieldEntry,
        key: &[u8],
        doc: u32,
        position: u32,
    ) -> Result<(), Fault>
        requires { is_indexed entry.now ≡ true }
        ensures ok { (occurrences : List ℕ → List (ℕ × ℕ)) → HasRecorders entry.now occurrences self.old
            → OnOk result (HasRecorders entry.now (with_occurrence key.now (doc, position) occurrences) self.new) }
        ensures err { (occurrences : List ℕ → List (ℕ × ℕ)) → HasRecorders entry.now occurrences self.old
            → IfErr result (λ fault. IsCountRefusal fault (occurrences key.now ++ (doc, position) ∷ [])) }
    {
        if key.len() > MAX_SHORT_LEN {
            return self.record_long(alloc, entry, key, doc, position);
        }
        match self.short.get_mut(&masked(key, self.mask)) {
            Some(recorder) => recorder.record(doc, position),
            None => self.begin(alloc, entry, key, doc, position),
        }
    }

    /// Like `record`, but for value bytes that are longer than a number holds.
    fn record_long(
        &mut self,
        alloc: Global,
        entry: &FieldEntry,
        key: &[u8],
        doc: u32,
        position: u32,
    ) -> Result<(), Fault>
        requires indexed { is_indexed entry.now ≡ true }
        requires long { max_short < length key.now }
        ensures ok { (occurrences : List ℕ → List (ℕ × ℕ)) → HasRecorders entry.now occurrences self.old
            → OnOk result (HasRecorders entry.now (with_occurrence key.now (doc, position) occurrences) self.new) }
        ensures err { (occurrences : List ℕ → List (ℕ × ℕ)) → HasRecorders entry.now occurrences self.old
            → IfErr result (λ fault. IsCountRefusal fault (occurrences key.now ++ (doc, position) ∷ [])) }
    {
        match self.long.get_mut(key) {
            Some(recorder) => recorder.record(doc, position),
            None => self.begin(alloc, entry, key, doc, position),
        }
    }

    /// Records a term that isn't known yet.
    fn begin(
        &mut self,
        alloc: Global,
        entry: &FieldEntry,
        key: &[u8],
        doc: u32,
        position: u32,
    ) -> Result<(), Fault>
        requires indexed { is_indexed entry.now ≡ true }
        ensures ok { (occurrences : List ℕ → List (ℕ × ℕ)) → HasRecorders entry.now occurrences self.old
            → occurrences key.now ≡ []
            → OnOk result (HasRecorders entry.now (with_occurrence key.now (doc, position) occurrences) self.new) }
        ensures err { IfErr result (λ fault. fault ≡ faults.OutOfMemory) }
    {
        let mut recorder = Recorder::new(alloc, option_of_key(entry, key));
        recorder.record(doc, position)?;
        self.insert(alloc, key, recorder)?;
        Ok(())
    }

    /// Sets the recorder of the value bytes `key`.
    fn insert(&mut self, alloc: Global, key: &[u8], recorder: Recorder) -> Result<(), AllocError>
        ensures { OnOk result ((q : List ℕ) → lookup (bytes_eq q) self.new
            ≡ update bytes_eq (λ p. lookup (bytes_eq p) self.old) key.now (Some recorder) q) }
    {
        if key.len() <= MAX_SHORT_LEN {
            self.short.insert(masked(key, self.mask), recorder)?;
            return Ok(());
        }
        self.long.insert(key.to_vec(alloc)?, recorder)?;
        Ok(())
    }

    /// Returns the terms with short value bytes, each as the bytes of a number without the mask, with its recorder, in
    /// any order.
    pub(crate) fn short_terms(
        &self,
        alloc: Global,
    ) -> Result<Vec<([u8; 16], &Recorder)>, AllocError>
        ensures { IfOk result (λ terms. AreShortTerms self.now (map (λ t. (t.0, t.1.now)) terms.items)) }
    {
        let mask = self.mask;
        self.short
            .iter()
            .map(move |(number, recorder)| (number.wrapping_sub(mask).to_be_bytes(), recorder))
            .collect(alloc)
    }

    /// Returns the terms by their value bytes, with their recorders, in any order; `short` are those with short ones.
    fn all_terms<'a>(
        &'a self,
        alloc: Global,
        short: &'a [([u8; 16], &'a Recorder)],
    ) -> Result<Vec<(&'a [u8], &'a Recorder)>, AllocError>
        requires { AreShortTerms self.now (map (λ t. (t.0, t.1.now)) short.now) }
        ensures terms { IfOk result (λ terms. map (λ t. (t.0.now, t.1.now)) terms.items ≡ self.now) }
        ensures distinct { OnOk result (IsDistinct bytes_eq (keys_of self.now)) }
    {
        let mut terms: Vec<(&[u8], &Recorder)> = short
            .iter()
            .map(|term| (key_of(&term.0), term.1))
            .collect(alloc)?;
        let mut long = self
            .long
            .iter()
            .map(|(key, recorder)| (key.as_slice(), recorder))
            .collect(alloc)?;
        terms.append(&mut long)?;
        Ok(terms)
    }

    /// Returns the terms by their value bytes, ascending, each with its recorder; `short` are those with short ones.
    pub(crate) fn sorted_terms<'a>(
        &'a self,
        alloc: Global,
        short: &'a [([u8; 16], &'a Recorder)],
    ) -> Result<Vec<(&'a [u8], &'a Recorder)>, AllocError>
        requires { AreShortTerms self.now (map (λ t. (t.0, t.1.now)) short.now) }
        ensures ascend { IfOk result (λ terms. TermsAscend (map (λ t. t.0.now) terms.items)) }
        ensures each { IfOk result (λ terms. AllByRecursion (λ t. lookup (bytes_eq t.0.now) self.now
            ≡ Some t.1.now) terms.items) }
        ensures all { IfOk result (λ terms. (key : List ℕ) → IsSome (lookup (bytes_eq key) self.now)
            → list_any (bytes_eq key) (map (λ t. t.0.now) terms.items) ≡ true) }
    {
        let mut terms = self.all_terms(alloc, short)?;
        terms.sort_unstable_by_key(|term| term.0);
        Ok(terms)
    }
}

//! Settings of an index: sizes, weights of terms, and norms of lengths.

ghost use Rattle.std.specs.Prelude.{bytes_eq, false, is_some, nat_le, nat_lt, not, slice_index, true, ◌&&◌, ◌<◌, ◌^◌, ◌≡◌, ◌≢◌, ◌≤◌, IfErr, IfOk, List, None, OnOk, Some, ℕ};
ghost use Rattle.std.specs.List.{list_all};
ghost use Rattle.std.specs.Map.{update};
ghost use Rattle.definitions.specs.Scoring.{IsSimilarity, max_score};
ghost use Rattle.definitions.specs.Settings as definitions;
ghost use Rattle.definitions.specs.declared.fault.Fault.TheVariants as faults;
ghost use Rattle.settings.specs.Weights.{WeighsTerms, get_by_bytes, settings_of};

use common::{MAX_SCORE, TERMINATED};
use definitions::Fault;
use std::alloc::Global;
use std::collections::BTreeMap;
use std::marker::Model;
use terms::Term;

/// The number of norms: one for each length id.
const NORMS: usize = 256;

/// Settings of an index, which are in range. They don't change after they are made.
#[derive(Drop)]
pub struct Settings {
    docs_per_segment: u32,
    block_size: u32,
    cache_blocks: u64,
    default_weight: u64,
    weights: Vec<(Term, u64)>,
    norms: Vec<u32>,
    weight_by_term: BTreeMap<Vec<u8>, u64>,
}

impl Model for Settings {
    ghost use Rattle.definitions.specs.Settings as definitions;
    ghost use Rattle.settings.specs.Weights.{IsKept, settings_of};

    ghost Value = { definitions.Settings };

    ghost view = { λ s. settings_of s.docs_per_segment s.block_size s.cache_blocks s.default_weight s.weights.items s.norms.items };

    ghost invariant = { λ s. IsKept s.weight_by_term (settings_of s.docs_per_segment s.block_size s.cache_blocks s.default_weight s.weights.items s.norms.items) };
}

impl Settings {
    /// Makes settings; `BadSettings` if they aren't in range. No weight is negative, by its type.
    pub fn new(
        alloc: Global,
        docs_per_segment: u64,
        block_size: u64,
        cache_blocks: u64,
        default_weight: u64,
        weights: Vec<(Term, u64)>,
        norms: Vec<u32>,
    ) -> Result<Settings, Fault>
        ensures ok { IfOk result (λ settings. (settings
            ≡ settings_of docs_per_segment block_size cache_blocks default_weight weights.items norms.items)
            × (definitions.is_settings settings ≡ true)) }
        ensures err { IfErr result (λ fault. fault ≢ faults.OutOfMemory → (fault ≡ faults.BadSettings)
            × (definitions.is_settings (settings_of docs_per_segment block_size cache_blocks default_weight
            weights.items norms.items) ≡ false)) }
    {
        if !are_sizes(docs_per_segment, block_size)
            || default_weight > MAX_SCORE as u64
            || !are_norms(&norms)
        {
            return Err(Fault::BadSettings);
        }
        let weight_by_term = weights_by_term(alloc, &weights)?;
        Ok(Settings {
            docs_per_segment: docs_per_segment as u32,
            block_size: block_size as u32,
            cache_blocks,
            default_weight,
            weights,
            norms,
            weight_by_term,
        })
    }

    /// Makes the default settings: no term has a weight of its own, and every norm is 1.
    pub fn default(alloc: Global) -> Result<Settings, Fault>
        ensures ok { IfOk result (λ settings. settings ≡ definitions.default_settings) }
        ensures err { IfErr result (λ fault. fault ≡ faults.OutOfMemory) }
    {
        Ok(Settings {
            docs_per_segment: 65536,
            block_size: 16384,
            cache_blocks: 100,
            default_weight: 60,
            weights: Vec::new(alloc),
            norms: Vec::from_elem(alloc, 1, NORMS)?,
            weight_by_term: BTreeMap::new(alloc),
        })
    }

    /// Returns the number of documents of a segment.
    pub fn docs_per_segment(&self) -> u32
        ensures value { result ≡ self.now.docs_per_segment }
        ensures valid { definitions.is_settings self.now ≡ true }
        ensures within { (0 < result) × (result ≤ definitions.max_docs_per_segment) }
    {
        self.docs_per_segment
    }

    /// Returns the size past which a block of stored documents is closed.
    pub fn block_size(&self) -> u32
        ensures { result ≡ self.now.block_size }
    {
        self.block_size
    }

    /// Returns the number of blocks of stored documents that are cached.
    pub fn cache_blocks(&self) -> u64
        ensures { result ≡ self.now.cache_blocks }
    {
        self.cache_blocks
    }

    /// Returns the weight of terms without a weight of their own.
    pub fn default_weight(&self) -> u64
        ensures value { result ≡ self.now.default_weight }
        ensures within { result ≤ max_score }
    {
        self.default_weight
    }

    /// Returns the weights of terms, in the order in which they were given.
    pub fn weights(&self) -> &[(Term, u64)]
        ensures { result.now ≡ self.now.weights }
    {
        &self.weights
    }

    /// Returns the norm of each length id.
    pub fn norms(&self) -> &[u32]
        ensures value { result.now ≡ self.now.norms }
        ensures similarity { IsSimilarity (definitions.similarity_of self.now) }
    {
        &self.norms
    }

    /// Returns the term's own weight, or the default weight if it has none.
    pub fn weight_of(&self, term: &Term) -> u64
        ensures value { result ≡ definitions.weight_of self.now term.now }
        ensures within { result ≤ max_score }
    {
        self.weight_by_term
            .get(term.serialized_term())
            .copied()
            .unwrap_or(self.default_weight)
    }

    /// Returns the norm of `length_id`.
    pub fn norm(&self, length_id: u8) -> u32
        ensures { result ≡ slice_index self.now.norms length_id }
    {
        self.norms[length_id as usize]
    }
}

/// Whether the sizes of a segment and of a block are in range: documents have ids below `TERMINATED`.
fn are_sizes(docs_per_segment: u64, block_size: u64) -> bool
    ensures { result ≡ (definitions.fits_segment docs_per_segment && nat_lt block_size (2 ^ 32)) }
{
    0 < docs_per_segment && docs_per_segment <= u64::from(TERMINATED) && block_size < 1 << 32
}

/// Whether there is a norm for each length id, and the norms are sorted.
fn are_norms(norms: &[u32]) -> bool
    ensures { result ≡ definitions.are_norms norms.now }
{
    norms.len() == NORMS && norms.is_sorted()
}

/// Adds a term's weight; `BadSettings` if the term has one, or the weight is above the greatest score.
fn note_weight(
    alloc: Global,
    weight_by_term: &mut BTreeMap<Vec<u8>, u64>,
    term: &Term,
    weight: u64,
) -> Result<(), Fault>
    ensures fits { OnOk result (nat_le weight max_score ≡ true) }
    ensures first { OnOk result (get_by_bytes weight_by_term.old term.now ≡ None) }
    ensures noted { OnOk result ((t : List ℕ) → get_by_bytes weight_by_term.new t
        ≡ update bytes_eq (get_by_bytes weight_by_term.old) term.now (Some weight) t) }
    ensures err { IfErr result (λ fault. fault ≢ faults.OutOfMemory → (fault ≡ faults.BadSettings)
        × ((nat_le weight max_score && not (is_some (get_by_bytes weight_by_term.old term.now))) ≡ false)) }
{
    if weight > MAX_SCORE as u64 {
        return Err(Fault::BadSettings);
    }
    let bytes = term.serialized_term().to_vec(alloc)?;
    if weight_by_term.insert(bytes, weight)?.is_some() {
        return Err(Fault::BadSettings);
    }
    Ok(())
}

/// Maps each term to its weight; `BadSettings` for a weight above the greatest score, or two of one term.
fn weights_by_term(alloc: Global, weights: &[(Term, u64)]) -> Result<BTreeMap<Vec<u8>, u64>, Fault>
    ensures ok { IfOk result (λ map. WeighsTerms map weights.now
        × (list_all (λ w. nat_le w.1 max_score) weights.now ≡ true) × (definitions.weighs_once weights.now ≡ true)) }
    ensures err { IfErr result (λ fault. fault ≢ faults.OutOfMemory → (fault ≡ faults.BadSettings)
        × ((list_all (λ w. nat_le w.1 max_score) weights.now && definitions.weighs_once weights.now) ≡ false)) }
{
    let mut weight_by_term = BTreeMap::new(alloc);
    for (term, weight) in weights {
        note_weight(alloc, &mut weight_by_term, term, *weight)?;
    }
    Ok(weight_by_term)
}

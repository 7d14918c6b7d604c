//! The writing of the postings of a term.

ghost use Rattle.std.specs.Prelude.{[], ◌++◌, ◌+◌, ◌-◌, ◌<◌, ◌^◌, ◌≡◌, ◌≤◌, ◌⊎◌, ◌∷◌, IfErr, IfOk, List, OnOk, drop, if◌then◌else◌, length, map, slice_index_or as get_or, take, ℕ};
ghost use Rattle.codes.specs.UnpackedBlocks.{listed};
ghost use Rattle.definitions.specs.Postings.{Posting};
ghost use Rattle.definitions.specs.Recorded.{ascending};
ghost use Rattle.definitions.specs.Schema.{basic};
ghost use Rattle.definitions.specs.Scoring.{DontFall};
ghost use Rattle.definitions.specs.declared.fault.Fault.TheVariants as faults;
ghost use Rattle.layouts.specs.Positions.{differences, position_numbers};
ghost use Rattle.postings_writer.specs.FieldWriting.{IsOpen, IsSameTerm};
ghost use Rattle.postings_writer.specs.TermWriting.{recorded_count};
ghost use Rattle.postings_writer.specs.Limits.{CountsPass, SumsPass, TermPasses};
ghost use Rattle.postings_writer.specs.Occurrences.{by_document};
ghost use Rattle.postings_writer.specs.Serializing.{CanWrite, HoldsOccurrences, IsWrittenTerm, StandsAt, length_of, postings_from, tokens_of};
ghost use Rattle.postings_writer.specs.declared.recorder.Recorder.TheVariants as recorders;

use crate::FieldSerializer;
use crate::recorder::Recorder;
use definitions::Fault;
use std::alloc::AllocError;

/// Returns the index after the occurrences of the document whose occurrences begin at index `start`.
fn run_end(occurrences: &[(u32, u32)], start: usize) -> usize
    requires { start < length occurrences.now }
    ensures within { (start < result) × (result ≤ length occurrences.now) }
    ensures run { by_document (drop start occurrences.now)
        ≡ ((get_or occurrences.now start (0, 0)).0, map (λ p. p.1) (take (result - start) (drop start occurrences.now)))
        ∷ by_document (drop result occurrences.now) }
{
    let doc = occurrences[start].0;
    let mut end = start + 1;
    while end < occurrences.len() && occurrences[end].0 == doc {
        end += 1;
    }
    end
}

/// Replaces what `positions` holds by the positions of `occurrences`, in their order.
fn gather(occurrences: &[(u32, u32)], positions: &mut Vec<u32>) -> Result<(), AllocError>
    ensures { OnOk result (positions.new.items ≡ map (λ p. p.1) occurrences.now) }
{
    positions.clear();
    for occurrence in occurrences {
        positions.push(occurrence.1)?;
    }
    Ok(())
}

/// Sorts positions into ascending order.
fn sort(positions: &mut Vec<u32>)
    ensures ascending { positions.new.items ≡ ascending positions.old.items }
    ensures rising { DontFall positions.new.items }
{
    if positions.len() > 1 {
        positions.sort_unstable();
    }
}

/// Replaces ascending positions by the first of them and the differences.
fn to_differences(positions: &mut [u32])
    requires { DontFall positions.old }
    ensures { positions.new ≡ differences 0 positions.old }
{
    let mut before = 0;
    for position in positions.iter_mut() {
        let here = *position;
        *position = here - before;
        before = here;
    }
}

/// Like `to_differences`, but for a vector.
fn put_differences(positions: &mut Vec<u32>)
    requires { DontFall positions.old.items }
    ensures { positions.new.items ≡ differences 0 positions.old.items }
{
    to_differences(positions.as_mut_slice());
}

impl Recorder {
    /// Returns the number of documents, or of occurrences if there are positions.
    fn len(&self) -> usize
        ensures { result ≡ length_of self.now }
    {
        match self {
            Recorder::DocIds(recorder) => recorder.docs().len(),
            Recorder::TermFrequencies(recorder) => recorder.counts().len(),
            Recorder::TfAndPositions(recorder) => recorder.len(),
        }
    }

    /// Replaces what `occurrences` holds by its own occurrences, if it has positions.
    fn copy_occurrences(&self, occurrences: &mut Vec<(u32, u32)>) -> Result<(), AllocError>
        ensures { OnOk result (HoldsOccurrences self.now occurrences.new.items) }
    {
        match self {
            Recorder::TfAndPositions(recorder) => recorder.copy_places(occurrences),
            _ => Ok(()),
        }
    }

    /// Returns document, count and next index of the posting at index `at`; `deltas` gets its positions as differences.
    fn posting_at(
        &self,
        occurrences: &[(u32, u32)],
        at: usize,
        deltas: &mut Vec<u32>,
    ) -> Result<(u32, u32, usize), Fault>
        requires holds { HoldsOccurrences self.now occurrences.now }
        requires within { at < length_of self.now }
        ensures ok { IfOk result (λ p. StandsAt self.now at p.0 p.1 p.2 deltas.new.items) }
        ensures err { IfErr result (λ fault. (fault ≡ faults.OutOfMemory)
            ⊎ ((fault ≡ faults.Limit) × CountsPass (postings_from self.now at))) }
    {
        deltas.clear();
        match self {
            Recorder::DocIds(recorder) => Ok((recorder.docs()[at], 1, at + 1)),
            Recorder::TermFrequencies(recorder) => {
                let (doc, count) = recorder.counts()[at];
                Ok((doc, count, at + 1))
            }
            Recorder::TfAndPositions(_) => position_posting(occurrences, at, deltas),
        }
    }
}

/// Like `Recorder::posting_at`, but for a term with positions.
fn position_posting(
    occurrences: &[(u32, u32)],
    at: usize,
    deltas: &mut Vec<u32>,
) -> Result<(u32, u32, usize), Fault>
    requires { at < length occurrences.now }
    ensures ok { IfOk result (λ p. StandsAt (recorders.TfAndPositions occurrences.now) at p.0 p.1 p.2
        deltas.new.items) }
    ensures err { IfErr result (λ fault. (fault ≡ faults.OutOfMemory)
        ⊎ ((fault ≡ faults.Limit) × CountsPass (postings_from (recorders.TfAndPositions occurrences.now) at))) }
{
    let end = run_end(occurrences, at);
    let Ok(count) = u32::try_from(end - at) else {
        return Err(Fault::Limit);
    };
    gather(&occurrences[at..end], deltas)?;
    sort(deltas);
    put_differences(deltas);
    Ok((occurrences[at].0, count, end))
}

/// Writes the postings that `recorder` holds.
fn write_postings<'a>(
    recorder: &Recorder,
    occurrences: &[(u32, u32)],
    deltas: &mut Vec<u32>,
    serializer: &mut FieldSerializer<'a>,
) -> Result<(), Fault>
    requires holds { HoldsOccurrences recorder.now occurrences.now }
    requires can { CanWrite serializer.old.writing.next serializer.old.writing.norms (postings_from recorder.now 0) }
    ensures ok { (docs counts numbers : List ℕ) → IsOpen serializer.old docs counts numbers
        → OnOk result (IsOpen serializer.new (docs ++ map (λ p. p.doc) (postings_from recorder.now 0))
        (counts ++ map (λ p. recorded_count serializer.old.writing.option p.count) (postings_from recorder.now 0))
        (numbers ++ position_numbers (map (λ p. p.positions) (postings_from recorder.now 0)))) }
    ensures same { OnOk result (IsSameTerm serializer.old serializer.new) }
    ensures total { OnOk result (serializer.new.total_term_freq
        ≡ serializer.old.total_term_freq + tokens_of recorder.now) }
    ensures err { IsOpen serializer.old [] [] [] → IfErr result (λ fault. (fault ≡ faults.OutOfMemory)
        ⊎ ((fault ≡ faults.Limit) × (CountsPass (postings_from recorder.now 0)
        ⊎ SumsPass serializer.old.writing.option (postings_from recorder.now 0)))) }
{
    let mut at = 0;
    while at < recorder.len() {
        let (doc, count, next) = recorder.posting_at(occurrences, at, deltas)?;
        serializer.write_doc(doc, count, deltas)?;
        at = next;
    }
    Ok(())
}

/// Writes the term with the value bytes `key`, with the postings that `recorder` holds; only their documents unless
/// `is_text`.
pub(crate) fn serialize_term<'a>(
    key: &[u8],
    is_text: bool,
    recorder: &Recorder,
    occurrences: &mut Vec<(u32, u32)>,
    deltas: &mut Vec<u32>,
    serializer: &mut FieldSerializer<'a>,
) -> Result<(), Fault>
    requires nothing { serializer.old.positions.1 ≡ [] }
    requires can { CanWrite 0 serializer.old.writing.norms (postings_from recorder.now 0) }
    ensures ok { OnOk result (IsWrittenTerm serializer.old serializer.new key.now
        (if is_text then serializer.old.writing.mode else basic) (postings_from recorder.now 0)) }
    ensures err { IfErr result (λ fault. (fault ≡ faults.OutOfMemory)
        ⊎ ((fault ≡ faults.Limit)
        × (TermPasses (if is_text then serializer.old.writing.mode else basic) (listed serializer.old.writing.norms)
        (postings_from recorder.now 0) ⊎ (serializer.old.terms.num_terms ≡ 4294967295)
        ⊎ (2 ^ 64 ≤ serializer.old.num_tokens + tokens_of recorder.now)))) }
{
    recorder.copy_occurrences(occurrences)?;
    serializer.new_term(key, is_text)?;
    write_postings(recorder, occurrences, deltas, serializer)?;
    serializer.close_term()?;
    Ok(())
}

//! Laws of a term's bytes.
#![tactic(auto)]

ghost use Rattle.std.specs.Prelude.{length, ◌<◌, ◌^◌, ◌≡◌, List, ℕ};
ghost use Rattle.segment_postings.specs.Placed.{term_of};
ghost use Rattle.definitions.specs.NumberCodes.{AreBytes};
ghost use Rattle.definitions.specs.Postings.{Posting};
ghost use Rattle.definitions.specs.Schema.{IndexRecordOption};
ghost use Rattle.layouts.specs.InvertedIndexes.{IsTerm};

/// States that no other postings of equal number have the same bytes of postings and positions.
pub fn terms_have_one_reading()
    ensures { (option : IndexRecordOption) (num_docs : ℕ) (ids postings positions : List ℕ) (ps qs : List Posting)
        → AreBytes postings → length postings < 2 ^ 64 → length positions < 2 ^ 64 → length ps ≡ length qs
        → IsTerm option num_docs ids (term_of ps postings positions)
        → IsTerm option num_docs ids (term_of qs postings positions) → ps ≡ qs }
{}

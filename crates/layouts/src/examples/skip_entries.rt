//! Skip entries of blocks.
#![tactic(auto, unfolding(definitions::proofs::OnLiterals::definitions_on_literals))]

ghost use Rattle.std.specs.Prelude.{[], ◌++◌, ◌∷◌, ◌≡◌, false, true};
ghost use Rattle.layouts.specs.SkipEntries.{are_entries, count_code, entry_bytes};

/// What isn't recorded has no bytes.
pub fn entries_have_bytes()
    ensures documents { entry_bytes false false (record {
      last_doc = 254;
      doc_width = 1;
      count_width = 0;
      count_sum =
          0;
      least_id = 1;
      greatest_count = 1;
    }) ≡ 0xfe ∷ 0 ∷ 0 ∷ 0 ∷ 1 ∷ 1 ∷ 1 ∷ [] }
    ensures counts { entry_bytes true false (record {
      last_doc = 127;
      doc_width = 0;
      count_width = 2;
      count_sum = 0;
      least_id = 9;
      greatest_count = 4;
    }) ≡ 127 ∷ 0 ∷ 0 ∷ 0 ∷ 0 ∷ 2 ∷ 9 ∷ 4 ∷ [] }
    ensures positions { entry_bytes true true (record {
      last_doc = 127;
      doc_width = 0;
      count_width = 2;
      count_sum =
          300;
      least_id = 9;
      greatest_count = 255;
    }) ≡ 127 ∷ 0 ∷ 0 ∷ 0 ∷ 0 ∷ 2 ∷ 0x2c ∷ 1 ∷ 0 ∷ 0 ∷ 9 ∷ 255 ∷ [] }
{}

/// A count over 254 is no bound.
pub fn counts_have_codes()
    ensures one { count_code 1 ≡ 1 }
    ensures last { count_code 254 ≡ 254 }
    ensures none { count_code 255 ≡ 255 }
    ensures greater { count_code 300 ≡ 255 }
{}

/// Entries are in their ranges, and each has 128 documents after those before it.
pub fn entries_are_in_their_ranges()
    ensures none { are_entries true true 0 [] ≡ true }
    ensures first { are_entries false false 0 (record {
      last_doc = 127;
      doc_width = 0;
      count_width = 0;
      count_sum = 0;
      least_id = 1;
      greatest_count = 1;
    } ∷ []) ≡ true }
    ensures too_few { are_entries false false 0 (record {
      last_doc = 126;
      doc_width = 0;
      count_width = 0;
      count_sum =
          0;
      least_id = 1;
      greatest_count = 1;
    } ∷ []) ≡ false }
    ensures no_counts { are_entries false false 0 (record {
      last_doc = 127;
      doc_width = 0;
      count_width = 0;
      count_sum =
          0;
      least_id = 1;
      greatest_count = 2;
    } ∷ []) ≡ false }
    ensures too_wide { are_entries true false 0 (record {
      last_doc = 127;
      doc_width = 0;
      count_width = 33;
      count_sum =
          0;
      least_id = 1;
      greatest_count = 2;
    } ∷ []) ≡ false }
    ensures last { are_entries true true 2147483519 (record {
      last_doc = 2147483646;
      doc_width = 31;
      count_width = 32;
      count_sum = 128;
      least_id = 1;
      greatest_count = 1;
    } ∷ []) ≡ true }
    ensures terminated { are_entries true true 0 (record {
      last_doc = 2147483647;
      doc_width = 31;
      count_width = 32;
      count_sum = 128;
      least_id = 1;
      greatest_count = 1;
    } ∷ []) ≡ false }
{}

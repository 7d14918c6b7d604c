//! The postings of a term.
#![tactic(auto, unfolding(definitions::specs::NumberCodes::vint_bytes, definitions::proofs::OnLiterals::definitions_on_literals, crate::specs::PackedBytes::packed_at, crate::specs::PackedBytes::width_of, crate::specs::TermPostings::postings_bytes))]

ghost use Rattle.std.specs.Prelude.{[], ◌*◌, ◌++◌, ◌∷◌, ◌≡◌, None, Some, length, map, replicate};
ghost use Rattle.std.specs.List.{range_with_len};
ghost use Rattle.definitions.specs.Schema.{basic, with_freqs, with_freqs_and_positions};
ghost use Rattle.layouts.specs.TermPostings.{bound_in, postings_bytes, skip_entry};

/// Fewer than 128 documents: all deltas, and then all counts less 1.
pub fn few_documents_have_bytes()
    ensures none { postings_bytes with_freqs [] [] [] ≡ [] }
    ensures two { postings_bytes with_freqs_and_positions [] (0 ∷ 1 ∷ []) (1 ∷ 1 ∷ []) ≡ 0x80 ∷ 0x80 ∷ 0x80 ∷ 0x80
        ∷ [] }
    ensures counts { postings_bytes with_freqs_and_positions (3 ∷ 3 ∷ []) (0 ∷ 1 ∷ []) (1 ∷ 2 ∷ []) ≡ 0x80 ∷ 0x80
        ∷ 0x80 ∷ 0x81 ∷ [] }
    ensures documents { postings_bytes basic [] (3 ∷ 300 ∷ 301 ∷ []) (1 ∷ 1 ∷ 1 ∷ []) ≡ 0x83 ∷ 0x28 ∷ 0x82 ∷ 0x80 ∷ [] }
{}

/// The documents 0, 1, .. 127 of length 1, and the documents 0, 2, .. 254.
pub fn a_full_block_has_bytes()
    ensures all { postings_bytes basic (replicate 128 1) (range_with_len 0 128) (replicate 128 1) ≡ 0x87 ∷ 0x7f ∷ 0 ∷ 0
        ∷ 0 ∷ 0 ∷ 1 ∷ 1 ∷ [] }
    ensures every_second { postings_bytes basic [] (map (λ i. 2 * i) (range_with_len 0 128)) (replicate 128 1) ≡ 0x87
        ∷ 0xfe ∷ 0 ∷ 0 ∷ 0 ∷ 1 ∷ 1 ∷ 1 ∷ 0xfe ∷ replicate 15 0xff }
{}

/// 128 documents with three tokens each, the shortest of length id 4.
pub fn counts_and_positions_are_told()
    ensures counts { postings_bytes with_freqs (9 ∷ 4 ∷ replicate 126 9) (range_with_len 0 128) (replicate 128 3)
        ≡ 0x88 ∷ 0x7f ∷ 0 ∷ 0 ∷ 0 ∷ 0 ∷ 2 ∷ 4 ∷ 3 ∷ replicate 32 0xaa }
    ensures positions { postings_bytes with_freqs_and_positions (9 ∷ 4
        ∷ replicate 126 9) (range_with_len 0 128) (replicate 128 3) ≡ 0x8c ∷ 0x7f ∷ 0 ∷ 0 ∷ 0 ∷ 0 ∷ 2 ∷ 0x80 ∷ 1 ∷ 0
        ∷ 0 ∷ 4 ∷ 3 ∷ replicate 32 0xaa }
    ensures at_254 { bound_in (skip_entry with_freqs (replicate 128 7) 0 (range_with_len 0 128) (replicate 127 1 ++ 254
        ∷ [])) ≡ Some (7, 254) }
    ensures at_255 { bound_in (skip_entry with_freqs (replicate 128 7) 0 (range_with_len 0 128) (replicate 127 1 ++ 255
        ∷ [])) ≡ None }
    ensures no_bound { skip_entry with_freqs [] 0 (range_with_len 0 128) (replicate 127 1 ++ 300 ∷ [])
        ≡ record { last_doc = 127; doc_width = 0; count_width = 9; count_sum = 0; least_id = 1; greatest_count = 255 } }
{}

/// The deltas continue after a full block: the documents 0, 1, .. 127 and 130, and twice 128 documents.
pub fn deltas_run_over_block_borders()
    ensures rest { postings_bytes basic [] (range_with_len 0 128 ++ 130 ∷ []) (replicate 129 1) ≡ 0x87 ∷ 0x7f ∷ 0 ∷ 0
        ∷ 0 ∷ 0 ∷ 1 ∷ 1 ∷ 0x82 ∷ [] }
    ensures three_blocks { length (postings_bytes basic [] (range_with_len 0 384) (replicate 384 1)) ≡ 22 }
    ensures block { postings_bytes basic [] (range_with_len 0 256) (replicate 256 1) ≡ 0x8e ∷ 0x7f ∷ 0 ∷ 0 ∷ 0 ∷ 0 ∷ 1
        ∷ 1 ∷ 0xff ∷ 0 ∷ 0 ∷ 0 ∷ 0 ∷ 1 ∷ 1 ∷ [] }
{}

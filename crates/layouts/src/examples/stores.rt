//! Blocks, checkpoints and whole stores.
#![tactic(auto, unfolding(definitions::specs::NumberCodes::vint_bytes, definitions::proofs::OnLiterals::definitions_on_literals))]

ghost use Rattle.std.specs.Prelude.{[], ◌++◌, ◌≡◌, ◌∷◌, length, map, replicate};
ghost use Rattle.layouts.specs.Stores.{block_bytes, checkpoints, footer_bytes, group_bytes, layers, skip_index_bytes, store_bytes};

/// A block is the documents' bytes, their start offsets and their number.
pub fn blocks_have_bytes()
    ensures two { block_bytes ((1 ∷ 2 ∷ []) ∷ (3 ∷ []) ∷ []) ≡ 1 ∷ 2 ∷ 3 ∷ 0 ∷ 0 ∷ 0 ∷ 0 ∷ 2 ∷ 0 ∷ 0 ∷ 0 ∷ 2 ∷ 0 ∷ 0
        ∷ 0 ∷ [] }
    ensures empty_documents { block_bytes ([] ∷ [] ∷ []) ≡ 0 ∷ 0 ∷ 0 ∷ 0 ∷ 0 ∷ 0 ∷ 0 ∷ 0 ∷ 2 ∷ 0 ∷ 0 ∷ 0 ∷ [] }
{}

/// A store without documents.
pub fn the_empty_store_has_bytes()
    ensures { store_bytes [] ≡ 0x80 ∷ 2 ∷ 0 ∷ 0 ∷ 0 ∷ replicate 24 0 }
{}

/// A store of one document of 21 bytes.
pub fn one_document_has_bytes()
    ensures index { skip_index_bytes (checkpoints 0 0 (record { count = 1; bytes = replicate 29 7 } ∷ [])) ≡ 0x81
        ∷ 0x85 ∷ 0x81 ∷ 0x80 ∷ 0x80 ∷ 0x81 ∷ 0x9d ∷ [] }
    ensures store { store_bytes (record { count = 1; bytes = block_bytes (replicate 21 7 ∷ []) } ∷ [])
        ≡ replicate 21 7 ++ (0 ∷ 0 ∷ 0 ∷ 0 ∷ 1 ∷ 0 ∷ 0 ∷ 0 ∷ 0x81 ∷ 0x85 ∷ 0x81 ∷ 0x80 ∷ 0x80 ∷ 0x81 ∷ 0x9d ∷ 2 ∷ 0 ∷ 0
        ∷ 0 ∷ 0x1d ∷ 0 ∷ 0 ∷ 0 ∷ 0 ∷ 0 ∷ 0 ∷ 0 ∷ replicate 16 0) }
{}

/// A footer has its version, the offset of the skip index and a kind.
pub fn footers_have_28_bytes()
    ensures bytes { footer_bytes 0x1d ≡ 2 ∷ 0 ∷ 0 ∷ 0 ∷ 0x1d ∷ 0 ∷ 0 ∷ 0 ∷ 0 ∷ 0 ∷ 0 ∷ 0 ∷ replicate 16 0 }
    ensures length { length (footer_bytes 0) ≡ 28 }
{}

/// Groups of eight form layers, up to one group.
pub fn blocks_have_layers()
    ensures none { layers [] ≡ [] }
    ensures one { map length (layers (checkpoints 0 0 (replicate 8 (record { count = 1; bytes = [] })))) ≡ 8 ∷ [] }
    ensures two { map length (layers (checkpoints 0 0 (replicate 9 (record { count = 1; bytes = [] })))) ≡ 2 ∷ 9 ∷ [] }
    ensures still_two { map length (layers (checkpoints 0 0 (replicate 64 (record { count = 1; bytes = [] })))) ≡ 8
        ∷ 64 ∷ [] }
    ensures three { map length (layers (checkpoints 0 0 (replicate 65 (record { count = 1; bytes = [] })))) ≡ 2 ∷ 9
        ∷ 65 ∷ [] }
{}

/// A group has its first document and byte, and then the extent of each checkpoint.
pub fn groups_have_bytes()
    ensures empty { group_bytes [] ≡ 0x80 ∷ [] }
    ensures two { group_bytes (checkpoints 3 9 (record { count = 1; bytes = replicate 16 0 }
        ∷ record { count = 2; bytes = replicate 24 0 } ∷ [])) ≡ 0x82 ∷ 0x83 ∷ 0x89 ∷ 0x81 ∷ 0x90 ∷ 0x82 ∷ 0x98 ∷ [] }
{}

/// A checkpoint of an upper layer has the bytes where its group stands in the layer below.
/// Each block here has a byte and a document.
pub fn upper_layers_have_bytes()
    ensures eight { skip_index_bytes (checkpoints 0 0 (replicate 8 (record { count = 1; bytes = 7 ∷ [] }))) ≡ 0x81
        ∷ 0x93 ∷ 0x88 ∷ 0x80 ∷ 0x80 ∷ replicate 16 0x81 }
    ensures nine { skip_index_bytes (checkpoints 0 0 (replicate 9 (record { count = 1; bytes = 7 ∷ [] }))) ≡ 0x82
        ∷ 0x87 ∷ 0x98 ∷ 0x82 ∷ 0x80 ∷ 0x80 ∷ 0x88 ∷ 0x93 ∷ 0x81 ∷ 0x85 ∷ 0x88 ∷ 0x80 ∷ 0x80 ∷ replicate 16 0x81 ++ 0x81
        ∷ 0x88 ∷ 0x88 ∷ 0x81 ∷ 0x81 ∷ [] }
{}

/// Blocks of 3, 1, 2, 2 and 2 documents lie where their sizes say.
pub fn blocks_stand_one_after_the_other()
    ensures { checkpoints 0 0 (record { count = 3; bytes = replicate 9 0 }
        ∷ record { count = 1; bytes = replicate 16 0 } ∷ record { count = 2; bytes = replicate 24 0 }
        ∷ record { count = 2; bytes = replicate 32 0 } ∷ record { count = 2; bytes = replicate 19 0 } ∷ [])
        ≡ record { doc_range = record { start = 0; end = 3 }; byte_range = record { start = 0; end = 9 } }
        ∷ record { doc_range = record { start = 3; end = 4 }; byte_range = record { start = 9; end = 25 } }
        ∷ record { doc_range = record { start = 4; end = 6 }; byte_range = record { start = 25; end = 49 } }
        ∷ record { doc_range = record { start = 6; end = 8 }; byte_range = record { start = 49; end = 81 } }
        ∷ record { doc_range = record { start = 8; end = 10 }; byte_range = record { start = 81; end = 100 } } ∷ [] }
{}

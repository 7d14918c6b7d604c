//! Slots, and whole segments.
#![tactic(auto, unfolding(definitions::specs::NumberCodes::vint_bytes, definitions::proofs::OnLiterals::definitions_on_literals, layouts::specs::TermPostings::postings_bytes))]

ghost use Rattle.std.specs.Prelude.{[], ◌++◌, ◌+◌, ◌^◌, ◌∷◌, ◌≡◌, List, codes, length, map, ℕ};
ghost use Rattle.definitions.specs.Analyzers.{raw_and_default};
ghost use Rattle.definitions.specs.Examples.{arrays, bare, books, hex, json_data, old_sea, three_books};
ghost use Rattle.definitions.specs.KeptLengths.{norms_of};
ghost use Rattle.definitions.specs.Schema.{text_kind};
ghost use Rattle.definitions.specs.Values.{pre_tok_str, str, u64};
ghost use Rattle.layouts.specs.FieldNorms.{norms_bytes};
ghost use Rattle.layouts.specs.Stores.{store_bytes};
ghost use Rattle.segment_definitions.specs.SegmentExamples.{bare_sections, book_sections, stored_years};
ghost use Rattle.segment_definitions.specs.Segments.{IsSegment, IsSegmentOf, IsTaken, section_bytes, segment_bytes};
ghost use Rattle.segment_definitions.specs.Slots.{slot, slots};

/// A slot has the pairs of stored fields, and pre-tokenised texts as texts.
pub fn documents_have_slots()
    ensures books { map hex (slots books three_books)
        ≡ codes "8200000000008b746865206f6c64207365610100000001a007000000000000"
        ∷ codes "8200000000008c736561207365612077696e640100000001c307000000000000"
        ∷ codes "8200000000008477696e640100000001a007000000000000" ∷ [] }
    ensures not_stored { slot (bare "title" text_kind ∷ []) old_sea ≡ 0x80 ∷ [] }
    ensures tokens { slot books ((0, pre_tok_str (codes "a") []) ∷ []) ≡ slot books ((0, str (codes "a")) ∷ []) }
{}

/// A document that no add accepts is in no segment, even where its slot is that of another document.
pub fn segments_are_of_documents_that_adds_take()
    ensures same_slot { slot stored_years ((0, u64 (2 ^ 64 + 7)) ∷ []) ≡ slot stored_years ((0, u64 7) ∷ []) }
    ensures taken { IsTaken stored_years ((0, u64 7) ∷ []) }
    ensures too_large { (bytes : List ℕ) → ¬ IsSegmentOf stored_years raw_and_default (((0, u64 (2 ^ 64 + 7)) ∷ [])
        ∷ []) bytes }
    ensures too_deep { (bytes : List ℕ) → ¬ IsSegmentOf json_data raw_and_default (((0, arrays 128) ∷ []) ∷ []) bytes }
    ensures no_text { (bytes : List ℕ) → ¬ IsSegmentOf books raw_and_default (old_sea ∷ ((0, str (255 ∷ [])) ∷ [])
        ∷ []) bytes }
    ensures unknown_field { (bytes : List ℕ) → ¬ IsSegmentOf stored_years raw_and_default (((1, u64 7) ∷ [])
        ∷ []) bytes }
    ensures other_kind { (bytes : List ℕ) → ¬ IsSegmentOf books raw_and_default (((1, str (codes "1952")) ∷ [])
        ∷ []) bytes }
{}

/// A section follows its length.
pub fn sections_have_lengths()
    ensures three { section_bytes (7 ∷ 8 ∷ 9 ∷ []) ≡ 3 ∷ 0 ∷ 0 ∷ 0 ∷ 0 ∷ 0 ∷ 0 ∷ 0 ∷ 7 ∷ 8 ∷ 9 ∷ [] }
    ensures none { section_bytes [] ≡ 0 ∷ 0 ∷ 0 ∷ 0 ∷ 0 ∷ 0 ∷ 0 ∷ 0 ∷ [] }
    ensures norms { hex (norms_bytes (norms_of books raw_and_default three_books))
        ≡ codes "0000000003030101000000010101" }
{}

/// The bytes of three books: `the old sea` of 1952, `sea sea wind` of 1987 and `wind` of 1952.
pub fn books_are_a_segment()
    ensures bytes { hex (segment_bytes 3 book_sections)
        ≡ codes "0300000050000000000000000000000000070000000000000084836f6c648182828373656182848483746865818282847769"
        ++ codes "6e64828483010000000300000000000000828800000000000007a08282808800000000000007c38181800f00000000000000"
        ++ codes "8080808080818080818080808081810b0000000000000080818082808180808082800e000000000000000000000003030101"
        ++ codes "0000000101018a000000000000008200000000008b746865206f6c64207365610100000001a0070000000000008200000000"
        ++ codes "008c736561207365612077696e640100000001c3070000000000008200000000008477696e640100000001a0070000000000"
        ++ codes "00000000001f0000003f00000003000000818581808083e70200000067000000000000000000000000000000000000000000"
        ++ codes "0000" }
    ensures length { length (segment_bytes 3 book_sections) ≡ 302 }
    ensures of_documents { IsSegmentOf books raw_and_default three_books (segment_bytes 3 book_sections) }
{}

/// A segment of one document without a value, in a schema without a field.
pub fn the_least_segment()
    ensures bytes { hex (segment_bytes 1 bare_sections)
        ≡ codes "010000000100000000000000000000000000000000000000000000000000000000000000002c0000" ++ codes
        "00000000008000000000010000008185818080818902000000090000000000000000000000000000" ++ codes
        "000000000000000000" }
    ensures of_documents { IsSegmentOf [] raw_and_default ([] ∷ []) (segment_bytes 1 bare_sections) }
    ensures alone { IsSegment [] 1 (segment_bytes 1 bare_sections) }
    ensures another_number { ¬ IsSegment [] 2 (segment_bytes 1 bare_sections) }
    ensures no_document { ¬ IsSegment [] 0 (segment_bytes 0 bare_sections) }
    ensures nothing_stored { ¬ IsSegment [] 0 (segment_bytes 0 (record bare_sections { store = store_bytes [] })) }
    ensures nothing_stored_of_two { ¬ IsSegment [] 2 (segment_bytes 2
        (record bare_sections { store = store_bytes [] })) }
    ensures two_documents { ¬ IsSegmentOf [] raw_and_default ([] ∷ [] ∷ []) (segment_bytes 1 bare_sections) }
    ensures too_many { ¬ IsSegment [] 2147483648 (segment_bytes 2147483648 bare_sections) }
    ensures nothing { ¬ IsSegment [] 1 [] }
{}

//! Bodies that list segments.
#![tactic(auto, unfolding(crate::specs::ListBodies::segments_body))]

ghost use Rattle.std.specs.Prelude.{[], ◌++◌, ◌∷◌, ◌≡◌, false, replicate, true};
ghost use Rattle.segment_definitions.specs.ListBodies.{Makes, fresh, kept, part_bytes, segments_body};
ghost use Rattle.segment_definitions.specs.SegmentExamples.{HasByteEach, four_segments, three_segments};

/// A kept segment is its index in four bytes, and a new one its length in eight and its bytes.
pub fn parts_have_bytes()
    ensures kept { part_bytes (kept 258) ≡ 0 ∷ 2 ∷ 1 ∷ 0 ∷ 0 ∷ [] }
    ensures new { part_bytes (fresh (7 ∷ 8 ∷ [])) ≡ 1 ∷ 2 ∷ 0 ∷ 0 ∷ 0 ∷ 0 ∷ 0 ∷ 0 ∷ 0 ∷ 7 ∷ 8 ∷ [] }
{}

/// A new segment of three documents of which one is dead; no segment; and a kept one before a new one.
pub fn bodies_have_bytes()
    ensures first { segments_body (fresh (7 ∷ 7 ∷ 7 ∷ []) ∷ []) ((true ∷ false ∷ true ∷ []) ∷ []) ≡ 2 ∷ 1 ∷ 0 ∷ 0 ∷ 0
        ∷ 1 ∷ 3 ∷ 0 ∷ 0 ∷ 0 ∷ 0 ∷ 0 ∷ 0 ∷ 0 ∷ 7 ∷ 7 ∷ 7 ∷ 3 ∷ 0 ∷ 0 ∷ 0 ∷ 5 ∷ replicate 7 0 }
    ensures none { segments_body [] [] ≡ 2 ∷ 0 ∷ 0 ∷ 0 ∷ 0 ∷ [] }
    ensures both { segments_body (kept 0 ∷ fresh (9 ∷ []) ∷ []) ((true ∷ false ∷ false ∷ []) ∷ (true ∷ []) ∷ []) ≡ 2
        ∷ 2 ∷ 0 ∷ 0 ∷ 0 ∷ 0 ∷ 0 ∷ 0 ∷ 0 ∷ 0 ∷ 1 ∷ 1 ∷ 0 ∷ 0 ∷ 0 ∷ 0 ∷ 0 ∷ 0 ∷ 0 ∷ 9 ∷ 3 ∷ 0 ∷ 0 ∷ 0 ∷ 1
        ∷ replicate 7 0 ++ 1 ∷ 0 ∷ 0 ∷ 0 ∷ 1 ∷ replicate 7 0 }
{}

/// Of four segments the second and the third are merged: the first and the last are kept, at indices that aren't
/// neighbours, and the alive sets are those of the body.
pub fn kept_segments_stand_by_their_indices()
    ensures merged { Makes HasByteEach four_segments three_segments (segments_body (kept 0 ∷ fresh (7 ∷ 8 ∷ 9 ∷ [])
        ∷ kept 3 ∷ []) ((true ∷ true ∷ []) ∷ (true ∷ true ∷ true ∷ []) ∷ (false ∷ true ∷ []) ∷ [])) }
    ensures none { Makes HasByteEach four_segments [] (segments_body [] []) }
    ensures old_set { ¬ Makes HasByteEach four_segments four_segments (segments_body (kept 0 ∷ kept 1 ∷ kept 2 ∷ kept 3
        ∷ []) ((true ∷ true ∷ []) ∷ (true ∷ true ∷ []) ∷ (true ∷ true ∷ []) ∷ (false ∷ true ∷ []) ∷ [])) }
    ensures twice { ¬ Makes HasByteEach four_segments ((10 ∷ 10 ∷ [], true ∷ true ∷ [])
        ∷ (10 ∷ 10 ∷ [], true ∷ true ∷ []) ∷ []) (segments_body (kept 0 ∷ kept 0 ∷ []) ((true ∷ true ∷ [])
        ∷ (true ∷ true ∷ []) ∷ [])) }
    ensures turned { ¬ Makes HasByteEach four_segments ((11 ∷ 11 ∷ [], true ∷ true ∷ [])
        ∷ (10 ∷ 10 ∷ [], true ∷ true ∷ []) ∷ []) (segments_body (kept 1 ∷ kept 0 ∷ []) ((true ∷ true ∷ [])
        ∷ (true ∷ true ∷ []) ∷ [])) }
    ensures past_the_list { ¬ Makes HasByteEach four_segments ((10 ∷ 10 ∷ [], true ∷ true ∷ [])
        ∷ []) (segments_body (kept 4 ∷ []) ((true ∷ true ∷ []) ∷ [])) }
    ensures too_few_flags { ¬ Makes HasByteEach four_segments ((10 ∷ 10 ∷ [], true ∷ [])
        ∷ []) (segments_body (kept 0 ∷ []) ((true ∷ []) ∷ [])) }
{}

//! The section of the lengths of fields.
#![tactic(auto, unfolding(definitions::proofs::OnLiterals::definitions_on_literals))]

ghost use Rattle.std.specs.Prelude.{[], ◌++◌, ◌∷◌, ◌≡◌, None, Some, map};
ghost use Rattle.std.specs.List.{range_with_len};
ghost use Rattle.definitions.specs.Lengths.{fieldnorm_to_id};
ghost use Rattle.layouts.specs.FieldNorms.{ids_of, norms_bytes};

/// Each field precedes the length ids of its documents.
pub fn norms_have_bytes()
    ensures none { norms_bytes [] ≡ [] }
    ensures alone { norms_bytes ((0, map fieldnorm_to_id (3 ∷ 3 ∷ 1 ∷ [])) ∷ []) ≡ 0 ∷ 0 ∷ 0 ∷ 0 ∷ 3 ∷ 3 ∷ 1 ∷ [] }
    ensures two { norms_bytes ((1, 40 ∷ []) ∷ (258, 255 ∷ []) ∷ []) ≡ 1 ∷ 0 ∷ 0 ∷ 0 ∷ 40 ∷ 2 ∷ 1 ∷ 0 ∷ 0 ∷ 255 ∷ [] }
    ensures no_documents { norms_bytes ((0, []) ∷ (1, []) ∷ []) ≡ 0 ∷ 0 ∷ 0 ∷ 0 ∷ 1 ∷ 0 ∷ 0 ∷ 0 ∷ [] }
{}

/// The id of a length is the greatest one whose length isn't above it.
pub fn lengths_have_ids()
    ensures ids { map fieldnorm_to_id (0 ∷ 23 ∷ 40 ∷ 41 ∷ 42 ∷ 4294967295 ∷ []) ≡ 0 ∷ 23 ∷ 40 ∷ 40 ∷ 41 ∷ 255 ∷ [] }
    ensures in_a_row { map fieldnorm_to_id (range_with_len 24 20) ≡ range_with_len 24 17 ++ (40 ∷ 41 ∷ 41 ∷ []) }
{}

/// A field that keeps no lengths has no ids.
pub fn fields_have_ids()
    ensures kept { ids_of 2 ((1, 7 ∷ []) ∷ (2, 8 ∷ []) ∷ []) ≡ Some (8 ∷ []) }
    ensures none { ids_of 3 ((1, 7 ∷ []) ∷ (2, 8 ∷ []) ∷ []) ≡ None }
{}

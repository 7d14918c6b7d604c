//! Files of records, files that are no index, and damaged files.
#![tactic(auto, unfolding(crate::specs::RecordFiles::records))]

ghost use Rattle.std.specs.Prelude.{[], ⊤, ◌≡◌, ◌∷◌, bytes_eq, List, ℕ};
ghost use Rattle.layouts.specs.RecordFiles.{EndsAt, IsAtRest, IsDamaged, IsFile, IsFresh, IsNoIndex, IsOneOf, records};

/// A record is its open gate, the length of its body in eight bytes, the body.
pub fn records_have_gate_length_and_body()
    ensures one { records ((7 ∷ 8 ∷ []) ∷ []) ≡ 165 ∷ 2 ∷ 0 ∷ 0 ∷ 0 ∷ 0 ∷ 0 ∷ 0 ∷ 0 ∷ 7 ∷ 8 ∷ [] }
    ensures two { records ((7 ∷ 8 ∷ []) ∷ [] ∷ []) ≡ 165 ∷ 2 ∷ 0 ∷ 0 ∷ 0 ∷ 0 ∷ 0 ∷ 0 ∷ 0 ∷ 7 ∷ 8 ∷ 165 ∷ 0 ∷ 0 ∷ 0 ∷ 0
        ∷ 0 ∷ 0 ∷ 0 ∷ 0 ∷ [] }
{}

/// A file of two bodies, with its last gate closed, without and with bytes after it.
pub fn two_bodies_are_a_file()
    ensures at_rest { IsAtRest (165 ∷ 2 ∷ 0 ∷ 0 ∷ 0 ∷ 0 ∷ 0 ∷ 0 ∷ 0 ∷ 7 ∷ 8 ∷ 165 ∷ 1 ∷ 0 ∷ 0 ∷ 0 ∷ 0 ∷ 0 ∷ 0 ∷ 0 ∷ 9
        ∷ 0 ∷ []) 21 ((7 ∷ 8 ∷ []) ∷ (9 ∷ []) ∷ []) }
    ensures more { EndsAt (165 ∷ 2 ∷ 0 ∷ 0 ∷ 0 ∷ 0 ∷ 0 ∷ 0 ∷ 0 ∷ 7 ∷ 8 ∷ 165 ∷ 1 ∷ 0 ∷ 0 ∷ 0 ∷ 0 ∷ 0 ∷ 0 ∷ 0 ∷ 9 ∷ 66
        ∷ 165 ∷ 1 ∷ []) 21 ((7 ∷ 8 ∷ []) ∷ (9 ∷ []) ∷ []) }
    ensures closed { IsFile ((7 ∷ []) ∷ []) (165 ∷ 1 ∷ 0 ∷ 0 ∷ 0 ∷ 0 ∷ 0 ∷ 0 ∷ 0 ∷ 7 ∷ 0 ∷ 1 ∷ 0 ∷ 0 ∷ 0 ∷ 0 ∷ 0 ∷ 0
        ∷ 0 ∷ 9 ∷ 165 ∷ []) }
{}

/// A file of fewer than ten bytes, or with a closed first gate, is no index.
pub fn short_and_closed_files_are_no_index()
    ensures none { IsNoIndex [] }
    ensures short { IsNoIndex (165 ∷ []) }
    ensures nine { IsNoIndex (165 ∷ 0 ∷ 0 ∷ 0 ∷ 0 ∷ 0 ∷ 0 ∷ 0 ∷ 0 ∷ []) }
    ensures closed { IsNoIndex (0 ∷ 1 ∷ 0 ∷ 0 ∷ 0 ∷ 0 ∷ 0 ∷ 0 ∷ 0 ∷ 0 ∷ []) }
    ensures ten { ¬ IsNoIndex (165 ∷ 0 ∷ 0 ∷ 0 ∷ 0 ∷ 0 ∷ 0 ∷ 0 ∷ 0 ∷ 0 ∷ []) }
{}

/// A record without its next gate is damaged, and so is one with a shorter body than its length says.
pub fn records_without_their_gate_are_damaged()
    ensures first { IsDamaged (λ before body. ⊤) (165 ∷ 1 ∷ 0 ∷ 0 ∷ 0 ∷ 0 ∷ 0 ∷ 0 ∷ 0 ∷ 0 ∷ []) 0 }
    ensures second { IsDamaged (λ before body. ⊤) (165 ∷ 1 ∷ 0 ∷ 0 ∷ 0 ∷ 0 ∷ 0 ∷ 0 ∷ 0 ∷ 7 ∷ 165 ∷ 1 ∷ 0 ∷ 0 ∷ 0 ∷ 0
        ∷ 0 ∷ 0 ∷ 0 ∷ 0 ∷ []) 10 }
{}

/// A new file is no index, or has one body that is accepted.
pub fn new_files_have_one_body()
    ensures nothing { IsFresh (λ body. bytes_eq body (7 ∷ [])) [] }
    ensures one { IsFresh (λ body. bytes_eq body (7 ∷ [])) (165 ∷ 1 ∷ 0 ∷ 0 ∷ 0 ∷ 0 ∷ 0 ∷ 0 ∷ 0 ∷ 7 ∷ 0 ∷ []) }
    ensures another_body { ¬ IsFresh (λ body. bytes_eq body (7 ∷ [])) (165 ∷ 1 ∷ 0 ∷ 0 ∷ 0 ∷ 0 ∷ 0 ∷ 0 ∷ 0 ∷ 8 ∷ 0
        ∷ []) }
    ensures two_bodies { ¬ IsFresh (λ body. bytes_eq body (7 ∷ [])) (165 ∷ 1 ∷ 0 ∷ 0 ∷ 0 ∷ 0 ∷ 0 ∷ 0 ∷ 0 ∷ 7 ∷ 165 ∷ 0
        ∷ 0 ∷ 0 ∷ 0 ∷ 0 ∷ 0 ∷ 0 ∷ 0 ∷ 0 ∷ []) }
{}

/// A file has the bodies before or those after, and no others.
pub fn files_are_of_one_of_two_lists()
    ensures first { IsOneOf ((7 ∷ []) ∷ []) ((7 ∷ []) ∷ [] ∷ []) (165 ∷ 1 ∷ 0 ∷ 0 ∷ 0 ∷ 0 ∷ 0 ∷ 0 ∷ 0 ∷ 7 ∷ 0 ∷ []) }
    ensures second { IsOneOf ((7 ∷ []) ∷ []) ((7 ∷ []) ∷ [] ∷ []) (165 ∷ 1 ∷ 0 ∷ 0 ∷ 0 ∷ 0 ∷ 0 ∷ 0 ∷ 0 ∷ 7 ∷ 165 ∷ 0
        ∷ 0 ∷ 0 ∷ 0 ∷ 0 ∷ 0 ∷ 0 ∷ 0 ∷ 0 ∷ []) }
    ensures neither { ¬ IsOneOf ((7 ∷ []) ∷ []) ((7 ∷ []) ∷ [] ∷ []) (165 ∷ 1 ∷ 0 ∷ 0 ∷ 0 ∷ 0 ∷ 0 ∷ 0 ∷ 0 ∷ 8 ∷ 0
        ∷ []) }
    ensures no_record { ¬ IsOneOf ((7 ∷ []) ∷ []) ((7 ∷ []) ∷ [] ∷ []) (0 ∷ []) }
{}

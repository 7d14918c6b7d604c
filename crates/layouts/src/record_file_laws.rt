//! Laws of files of records.

ghost use Rattle.std.specs.Prelude.{[], ◌++◌, ◌+◌, ◌∷◌, ◌≡◌, Bool, IsTrue, List, take, ℕ};
ghost use Rattle.layouts.specs.RecordFiles.{AreTaken, EndsAt, IsAtRest, IsDamaged, IsFile, IsNoIndex};

/// A file has one list of bodies.
pub fn a_file_has_one_list_of_bodies()
    ensures { (first second : List (List ℕ)) (bytes : List ℕ) → IsFile first bytes → IsFile second bytes
        → first ≡ second }
{}

/// States that no bytes are two of these: no index, damaged from one offset on, a file of bodies that are accepted.
pub fn no_file_has_two_outcomes()
    ensures no_index { (body : List ℕ) (bodies : List (List ℕ)) (bytes : List ℕ) → IsFile (body ∷ bodies) bytes
        → ¬ IsNoIndex bytes }
    ensures damaged { (takes : List (List ℕ) → List ℕ → Bool) (bodies : List (List ℕ)) (bytes : List ℕ) (offset : ℕ)
        → IsFile bodies bytes → AreTaken (λ before body. IsTrue (takes before body)) [] bodies
        → ¬ IsDamaged (λ before body. IsTrue (takes before body)) bytes offset }
    ensures neither { (takes : List (List ℕ) → List ℕ → Bool) (bytes : List ℕ) (offset : ℕ)
        → IsDamaged (λ before body. IsTrue (takes before body)) bytes offset → ¬ IsNoIndex bytes }
    ensures one_offset { (takes : List (List ℕ) → List ℕ → Bool) (bytes : List ℕ) (first second : ℕ)
        → IsDamaged (λ before body. IsTrue (takes before body)) bytes first
        → IsDamaged (λ before body. IsTrue (takes before body)) bytes second → first ≡ second }
{}

/// Bytes after the closed gate that follows the last opened record change nothing, and neither does their cut.
pub fn bytes_after_the_closed_gate_change_nothing()
    ensures added { (content more : List ℕ) (gate : ℕ) (bodies : List (List ℕ)) → IsAtRest content gate bodies
        → EndsAt (content ++ more) gate bodies }
    ensures cut { (content : List ℕ) (gate : ℕ) (bodies : List (List ℕ)) → EndsAt content gate bodies
        → IsAtRest (take (gate + 1) content) gate bodies }
{}

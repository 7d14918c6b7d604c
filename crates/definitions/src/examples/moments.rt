//! What a crash may have left since a moment: here a device is how many calls it has had, and after its k-th call a crash
//! leaves the one byte k.

ghost use Rattle.std.specs.Prelude.{[], ◌∷◌, ◌≡◌, ◌⊎◌, List, ℕ};
ghost use Rattle.definitions.specs.MomentExamples.{forgetful, left_between};
ghost use Rattle.definitions.specs.Moments.{Elapses, LeavesOnly};

/// A crash at any moment from the old value to the new one leaves only images that are named.
pub fn every_moment_counts()
    ensures all { LeavesOnly (λ n. n) left_between 3 5 (λ image. (image ≡ 3 ∷ []) ⊎ (image ≡ 4 ∷ [])
        ⊎ (image ≡ 5 ∷ [])) }
    ensures without_the_first { ¬ LeavesOnly (λ n. n) left_between 3 5 (λ image. (image ≡ 4 ∷ []) ⊎ (image ≡ 5 ∷ [])) }
    ensures without_the_middle { ¬ LeavesOnly (λ n. n) left_between 3 5 (λ image. (image ≡ 3 ∷ []) ⊎ (image ≡ 5 ∷ [])) }
    ensures without_the_last { ¬ LeavesOnly (λ n. n) left_between 3 5 (λ image. (image ≡ 3 ∷ []) ⊎ (image ≡ 4 ∷ [])) }
    ensures no_call { LeavesOnly (λ n. n) left_between 3 3 (λ image. image ≡ 3 ∷ []) }
    ensures backwards { ¬ LeavesOnly (λ n. n) left_between 3 2 (λ image. image ≡ image) }
    ensures another_past { ¬ LeavesOnly (λ n. n) forgetful 3 5 (λ image. image ≡ 5 ∷ 3 ∷ []) }
{}

/// Time goes on by what a crash may leave now, and keeps what it might have left.
pub fn time_goes_on()
    ensures one_call { Elapses 3 4 (left_between 3) (left_between 4) (λ image. image ≡ 4 ∷ []) }
    ensures two_calls { ¬ Elapses 3 5 (left_between 3) (left_between 5) (λ image. image ≡ 5 ∷ []) }
    ensures forgotten { ¬ Elapses 3 4 (left_between 3) (λ t image. image ≡ 4 ∷ []) (λ image. image ≡ 4 ∷ []) }
    ensures backwards { ¬ Elapses 4 3 (left_between 4) (left_between 4) (λ image. image ≡ 4 ∷ []) }
{}

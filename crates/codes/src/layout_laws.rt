//! What the layouts of lists of numbers and of lengths promise.

ghost use Rattle.std.specs.Prelude.{length, ◌++◌, ◌<◌, ◌≡◌, ◌≤◌, ◌^◌, List, Some, ℕ};
ghost use Rattle.std.specs.List.{AllByRecursion};
ghost use Rattle.definitions.specs.NumberCodes.{AreBytes};
ghost use Rattle.layouts.specs.Deltas.{IsAscendingFrom, next_of};
ghost use Rattle.layouts.specs.FieldNorms.{IsNorms};
ghost use Rattle.layouts.specs.VintBlocks.{documents_bytes, numbers_bytes, take_all_numbers, take_documents, take_numbers};

/// States that encoded lists decode to themselves, and that what follows them is untouched.
pub fn lists_that_were_put_are_taken_back()
    ensures numbers { (numbers rest : List ℕ) → AllByRecursion (λ n. n < 2 ^ 32) numbers
        → take_numbers (length numbers) (numbers_bytes numbers ++ rest) ≡ Some (numbers, rest) }
    ensures documents { (offset : ℕ) (docs rest : List ℕ) → IsAscendingFrom (next_of offset) docs
        → AllByRecursion (λ d. d < 2 ^ 32) docs
        → take_documents offset (length docs) (documents_bytes offset docs ++ rest) ≡ Some (docs, rest) }
    ensures all { (room : ℕ) (numbers : List ℕ) → length numbers ≤ room → AllByRecursion (λ n. n < 2 ^ 32) numbers
        → take_all_numbers room (numbers_bytes numbers) ≡ Some numbers }
{}

/// States that lists that are decoded were encoded there: nothing else is decoded.
pub fn lists_that_are_taken_were_put()
    ensures numbers { (n : ℕ) (bs numbers rest : List ℕ) → AreBytes bs → take_numbers n bs ≡ Some (numbers, rest)
        → (length numbers ≡ n) × AllByRecursion (λ m. m < 2 ^ 32) numbers × (bs ≡ numbers_bytes numbers ++ rest) }
    ensures documents { (offset n : ℕ) (bs docs rest : List ℕ) → AreBytes bs
        → take_documents offset n bs ≡ Some (docs, rest) → (length docs ≡ n) × IsAscendingFrom (next_of offset) docs
        × AllByRecursion (λ d. d < 2 ^ 32) docs × (bs ≡ documents_bytes offset docs ++ rest) }
    ensures all { (room : ℕ) (bs numbers : List ℕ) → AreBytes bs → take_all_numbers room bs ≡ Some numbers
        → (length numbers ≤ room) × AllByRecursion (λ m. m < 2 ^ 32) numbers × (bs ≡ numbers_bytes numbers) }
{}

/// No bytes are two sections of lengths for the same fields and documents.
pub fn sections_have_one_reading()
    ensures { (fields bytes : List ℕ) (num_docs : ℕ) (a b : List (ℕ × List ℕ))
        → AllByRecursion (λ f. f < 2 ^ 32) fields → IsNorms fields num_docs bytes a → IsNorms fields num_docs bytes b
        → a ≡ b }
{}

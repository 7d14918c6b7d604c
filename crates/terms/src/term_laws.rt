//! Laws of terms: their order is that of their fields, types and values.

ghost use Rattle.std.specs.Prelude.{[], Bool, FitsSigned, List, if◌then◌else◌, int_div, pos, ℕ, ℤ, ◌++◌, ◌<◌, ◌^◌, ◌≡◌, ◌≢◌};
ghost use Rattle.std.specs.Cmp.Lexicographic.{slice_cmp};
ghost use Rattle.std.specs.Int.{to_be_bytes, w128, w64};
ghost use Rattle.std.specs.List.{AllByRecursion};
ghost use Rattle.std.specs.Ordering.{bool_cmp, int_cmp, nat_cmp, ordering_then};
ghost use Rattle.std.specs.declared.cmp.Ordering.TheVariants as ordering;
ghost use Rattle.definitions.specs.Schema.{Kind, bool_kind, date_kind, i64_kind, ip_addr_kind, u64_kind};
ghost use Rattle.definitions.specs.Terms.{json_term, signed_bytes, term_bytes, type_code, whole_seconds};

/// States that terms are ordered by their fields, then the codes of their types, then the bytes of their values.
pub fn terms_are_ordered_by_field_type_and_value()
    ensures field { (f g : ℕ) (k l : Kind) (x y : List ℕ) → f < g → g < 2 ^ 32
        → slice_cmp nat_cmp (term_bytes f k x) (term_bytes g l y) ≡ ordering.Less }
    ensures code { (f : ℕ) (k l : Kind) (x y : List ℕ)
        → slice_cmp nat_cmp (term_bytes f k x) (term_bytes f l y)
        ≡ slice_cmp nat_cmp (type_code k ++ x) (type_code l ++ y) }
    ensures value { (f : ℕ) (k : Kind) (x y : List ℕ)
        → slice_cmp nat_cmp (term_bytes f k x) (term_bytes f k y) ≡ slice_cmp nat_cmp x y }
{}

/// States that terms of numbers in one field are ordered like the numbers.
pub fn terms_of_numbers_are_ordered_as_these()
    ensures unsigned { (f m n : ℕ) → m < 2 ^ 64 → n < 2 ^ 64
        → slice_cmp nat_cmp (term_bytes f u64_kind (to_be_bytes w64 m)) (term_bytes f u64_kind (to_be_bytes w64 n))
        ≡ nat_cmp m n }
    ensures signed { (f : ℕ) (y z : ℤ) → FitsSigned w64 y → FitsSigned w64 z
        → slice_cmp nat_cmp (term_bytes f i64_kind (signed_bytes y)) (term_bytes f i64_kind (signed_bytes z))
        ≡ int_cmp y z }
    ensures address { (f m n : ℕ) → m < 2 ^ 128 → n < 2 ^ 128
        → slice_cmp nat_cmp (term_bytes f ip_addr_kind (to_be_bytes w128 m))
        (term_bytes f ip_addr_kind (to_be_bytes w128 n)) ≡ nat_cmp m n }
{}

/// States that terms of bools in one field are ordered like the bools, false first.
pub fn terms_of_bools_are_ordered_as_these()
    ensures { (f : ℕ) (b c : Bool)
        → slice_cmp nat_cmp (term_bytes f bool_kind (to_be_bytes w64 (if b then 1 else 0)))
        (term_bytes f bool_kind (to_be_bytes w64 (if c then 1 else 0))) ≡ bool_cmp b c }
{}

/// States that terms of dates in one field are ordered by their seconds, which are rounded toward zero.
pub fn terms_of_dates_are_ordered_by_seconds()
    ensures { (f : ℕ) (y z : ℤ) → FitsSigned w64 y → FitsSigned w64 z
        → slice_cmp nat_cmp (term_bytes f date_kind (signed_bytes (whole_seconds y)))
        (term_bytes f date_kind (signed_bytes (whole_seconds z)))
        ≡ int_cmp (int_div y (pos (10 ^ 9))) (int_div z (pos (10 ^ 9))) }
{}

/// States that terms of one JSON field whose paths have no U+0000 are ordered by the paths, then by their values.
pub fn json_terms_are_ordered_by_path_and_leaf()
    ensures order { (f : ℕ) (p q x y : List ℕ) → AllByRecursion (λ b. b ≢ 0) p → AllByRecursion (λ b. b ≢ 0) q
        → slice_cmp nat_cmp (json_term f p x) (json_term f q y)
        ≡ ordering_then (slice_cmp nat_cmp p q) (slice_cmp nat_cmp x y) }
    ensures appended { (f : ℕ) (path leaf : List ℕ) → json_term f path [] ++ leaf ≡ json_term f path leaf }
{}

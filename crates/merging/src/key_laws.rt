//! Laws of the keys of several members as one list.

ghost use Rattle.std.specs.Prelude.{◌≡◌, List, bytes_eq, ℕ};
ghost use Rattle.std.specs.List.{list_any};
ghost use Rattle.segment_reader.specs.Dictionaries.{Placed};
ghost use Rattle.layouts.specs.TermSections.{TermsAscend};
ghost use Rattle.merging.specs.KeyLists.{keys_of, merged_keys};

/// States that the keys of members as one list ascend, so that each is there once, and are those that a member has.
pub fn merged_keys_ascend()
    ensures ascend { (members : List (List Placed)) → TermsAscend (merged_keys members) }
    ensures among { (members : List (List Placed)) (key : List ℕ)
        → list_any (bytes_eq key) (merged_keys members)
        ≡ list_any (λ terms. list_any (bytes_eq key) (keys_of terms)) members }
{}

//! What the bytes of skip entries promise.
#![tactic(auto)]

ghost use Rattle.std.specs.Prelude.{[], length, ◌++◌, ◌∷◌, ◌≡◌, Bool, IsTrue, List, ℕ};
ghost use Rattle.layouts.specs.SkipEntries.{AreSkips, SkipEntry, are_entries, entry_bytes, skip_bytes};

/// States that no other entries have the same bytes, nor another number of them: what was encoded is what is decoded.
pub fn skips_have_one_reading()
    ensures { (counts positions : Bool) (m n : ℕ) (bytes : List ℕ) (a b : List SkipEntry)
        → AreSkips counts positions m bytes a → AreSkips counts positions n bytes b → a ≡ b }
{}

/// States that entries in their ranges are skip entries by their bytes, and that the bytes of one more come after them.
pub fn entries_are_put_one_by_one()
    ensures whole { (counts positions : Bool) (entries : List SkipEntry)
        → IsTrue (are_entries counts positions 0 entries)
        → AreSkips counts positions (length entries) (skip_bytes counts positions entries) entries }
    ensures more { (counts positions : Bool) (entries : List SkipEntry) (e : SkipEntry)
        → skip_bytes counts positions (entries ++ e ∷ [])
        ≡ skip_bytes counts positions entries ++ entry_bytes counts positions e }
{}

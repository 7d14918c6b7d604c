//! Laws of prefixes.

ghost use Rattle.std.specs.Prelude.{◌&&◌, ◌<◌, ◌≡◌, List, nat_eq, ℕ};
ghost use Rattle.std.specs.List.{AllByRecursion, starts_with};
ghost use Rattle.definitions.specs.Prefixes.{is_before, is_from, prefix_end};

/// Bytes begin with a prefix exactly where they stand at it or after it and, unless nothing ends it, before its end.
pub fn a_prefix_is_a_range()
    ensures { (prefix bytes : List ℕ) → AllByRecursion (λ b. b < 256) bytes
        → starts_with nat_eq bytes prefix ≡ (is_from prefix bytes && is_before (prefix_end prefix) bytes) }
{}

//! What the bytes of positions promise.
#![tactic(auto)]

ghost use Rattle.std.specs.Prelude.{length, map, ◌<◌, ◌≡◌, ◌^◌, List, ℕ};
ghost use Rattle.std.specs.List.{AllByRecursion};
ghost use Rattle.definitions.specs.Scoring.{DontFall};
ghost use Rattle.layouts.specs.Positions.{ArePositions, position_numbers};

/// States that no other numbers have the bytes of a term's positions: what was encoded is what is decoded.
pub fn positions_have_one_reading()
    ensures { (a b bytes : List ℕ) → length bytes < 2 ^ 64 → ArePositions a bytes → ArePositions b bytes → a ≡ b }
{}

/// States that no other positions have the same numbers, where each document has as many of them and they don't fall.
pub fn numbers_have_one_reading()
    ensures { (a b : List (List ℕ)) → map length a ≡ map length b → AllByRecursion DontFall a
        → AllByRecursion DontFall b → position_numbers a ≡ position_numbers b → a ≡ b }
{}

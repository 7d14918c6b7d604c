//! Queries that are written as texts are read again.

ghost use Rattle.std.specs.Prelude.{◌≡◌, ◌≤◌, Ok};
ghost use Rattle.definitions.specs.Query.{Query};
ghost use Rattle.query_text.specs.Reading.{Vocabulary, max_groups, read};
ghost use Rattle.query_text.specs.Writing.{AreWrittenSides, IsPlain, Sides, query_written, sides_depth, text_of};

/// States that what is written as phrases, each with its mark, its field, a slop and a boost, side by side, in
/// parentheses and with `OR` between, is read as its query, where no typed mark is in it.
pub fn written_queries_are_read()
    ensures { (words : Vocabulary) (sides : Sides) → AreWrittenSides sides → sides_depth sides ≤ max_groups
        → IsPlain (text_of sides) → (q : Query) → query_written words sides ≡ Ok q → read words (text_of sides) ≡ Ok q }
{}

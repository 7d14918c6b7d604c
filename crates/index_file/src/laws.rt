//! Laws of bodies that list segments.

ghost use Rattle.std.specs.Prelude.{◌≡◌, Bool, List, true, ℕ};
ghost use Rattle.definitions.specs.Schema.{Schema};
ghost use Rattle.index_file.specs.Bodies.{IsBody};
ghost use Rattle.index_file.specs.Places.{Follow, Says, places_rise};
ghost use Rattle.segment_definitions.specs.ListBodies.{Makes, Member, Part};
ghost use Rattle.segment_definitions.specs.Segments.{IsSegment};

/// States that a body says at most one list of segments and one list of alive sets.
pub fn a_body_says_one_list()
    ensures parts { (p q : List Part) (a b : List (List Bool)) (body : List ℕ) → IsBody p a body → IsBody q b body
        → p ≡ q }
    ensures sets { (p q : List Part) (a b : List (List Bool)) (body : List ℕ) → IsBody p a body → IsBody q b body
        → a ≡ b }
{}

/// States that indices pass the test exactly where they ascend strictly, each one of the list before.
pub fn indices_that_pass_follow()
    ensures passed { (len : ℕ) (parts : List Part) → places_rise 0 len parts ≡ true → Follow len parts }
    ensures all { (len : ℕ) (parts : List Part) → Follow len parts → places_rise 0 len parts ≡ true }
{}

/// States that a body makes a list of the list before exactly where what it says is so; what isn't a body makes none.
pub fn bodies_make_lists()
    ensures says { (schema : Schema) (before after : List Member) (parts : List Part) (sets : List (List Bool))
        (body : List ℕ)
        → IsBody parts sets body → Makes (IsSegment schema) before after body → Says schema before after parts sets }
    ensures makes { (schema : Schema) (before after : List Member) (parts : List Part) (sets : List (List Bool))
        (body : List ℕ)
        → IsBody parts sets body → Says schema before after parts sets → Makes (IsSegment schema) before after body }
    ensures only { (schema : Schema) (before after : List Member) (body : List ℕ)
        → ((parts : List Part) (sets : List (List Bool)) → ¬ IsBody parts sets body)
        → ¬ Makes (IsSegment schema) before after body }
{}

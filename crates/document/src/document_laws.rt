//! What the binary form promises.

ghost use Rattle.std.specs.Prelude.{◌++◌, ◌<◌, ◌↔◌, ◌^◌, ◌≡◌, IsTrue, List, Some, false, length, true, ℕ};
ghost use Rattle.std.specs.List.{AllByRecursion};
ghost use Rattle.definitions.specs.NumberCodes.{AreBytes};
ghost use Rattle.definitions.specs.Values.{Document, Value};
ghost use Rattle.document_values.specs.Docs.{IsGood, IsGoodPair, same_document};
ghost use Rattle.layouts.specs.DocumentReading.{deepest, read_document, take_value};
ghost use Rattle.layouts.specs.DocumentBytes.{document_bytes, value_bytes};

/// States that what is encoded decodes to itself: a value whatever follows it, and a whole document.
pub fn what_was_put_is_taken_back()
    ensures value { (v : Value) (rest : List ℕ) → IsGood false 128 v
        → take_value (value_bytes v ++ rest) ≡ Some (v, rest) }
    ensures document { (doc : Document) → AllByRecursion (IsGoodPair false 128) doc → length doc < 2 ^ 64
        → read_document (document_bytes doc) ≡ Some doc }
{}

/// States that what is decoded was encoded there: nothing else is decoded.
pub fn what_is_taken_was_put()
    ensures value { (bs rest : List ℕ) (v : Value) → AreBytes bs → take_value bs ≡ Some (v, rest) → IsGood false 128 v
        × (bs ≡ value_bytes v ++ rest) }
    ensures document { (bs : List ℕ) (doc : Document) → AreBytes bs → read_document bs ≡ Some doc
        → AllByRecursion (IsGoodPair false 128) doc × (bs ≡ document_bytes doc) }
{}

/// Documents that can be held are equal by `==` exactly where their lists of pairs are equal.
pub fn equal_documents_have_equal_pairs()
    ensures { (a b : Document) → AllByRecursion (IsGoodPair true deepest) a
        → AllByRecursion (IsGoodPair true deepest) b → IsTrue (same_document a b) ↔ (a ≡ b) }
{}

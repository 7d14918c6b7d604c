//! Laws of merged postings in the words of the definitions.

ghost use Rattle.std.specs.Prelude.{◌≡◌, List, ℕ};
ghost use Rattle.definitions.specs.Merging.{merged_postings};
ghost use Rattle.definitions.specs.Schema.{Schema};
ghost use Rattle.layouts.specs.InvertedIndexes.{IndexedField};
ghost use Rattle.merging.specs.Members.{AreMembers, merged_in, parts_of};
ghost use Rattle.merging.specs.declared.member.Member.{Member};

/// States that the postings of a term in all members are the merged postings of the definitions, by the members' alive
/// flags and by what each of them has of the term.
pub fn postings_are_merged()
    ensures { (schema : Schema) (num_docs : ℕ) (members : List Member) (all : List (List IndexedField)) (field : ℕ)
        (key : List ℕ) → AreMembers schema 0 num_docs members all
        → merged_in field key members all ≡ merged_postings 0 (parts_of field key members all) }
{}

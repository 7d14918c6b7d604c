//! The section of the terms of fields.
#![tactic(auto, unfolding(definitions::specs::NumberCodes::vint_bytes, definitions::proofs::OnLiterals::definitions_on_literals))]

ghost use Rattle.std.specs.Prelude.{[], None, Some, ◌++◌, ◌∷◌, ◌≡◌, codes, false, true};
ghost use Rattle.std.specs.Int.{to_be_bytes, w64};
ghost use Rattle.definitions.specs.Examples.{hex};
ghost use Rattle.layouts.specs.TermExamples.{letters, of_one, two_fields};
ghost use Rattle.layouts.specs.TermSections.{coded_entry, coded_terms, field_terms_bytes, positions_start, postings_start, terms_bytes};

/// A term is its value bytes, and then its number of documents, of bytes of postings and of bytes of positions.
pub fn terms_have_bytes()
    ensures word { hex (coded_entry None (codes "sea", record { doc_freq = 2; postings_len = 4; positions_len = 4 }))
        ≡ codes "83736561828484" }
    ensures number { hex (coded_entry None (
      to_be_bytes w64 1952,
      record
          { doc_freq = 2; postings_len = 2; positions_len = 0 },
    )) ≡ codes "8800000000000007a0828280" }
    ensures empty { hex (coded_entry None ([], record { doc_freq = 300; postings_len = 1; positions_len = 0 }))
        ≡ codes "802c828180" }
{}

/// Three documents: `the old sea` of 1952, `sea sea wind` of 1987 and `wind` of 1952.
pub fn fields_have_bytes()
    ensures title { hex (field_terms_bytes 1 (record {
      field = 0;
      num_tokens = 7;
      terms =
          (codes "old", record { doc_freq = 1; postings_len = 2; positions_len = 2 })
          ∷ (codes "sea", record { doc_freq = 2; postings_len = 4; positions_len = 4 })
          ∷ (codes "the", record { doc_freq = 1; postings_len = 2; positions_len = 2 })
          ∷ (codes "wind", record { doc_freq = 2; postings_len = 4; positions_len = 3 }) ∷ [];
    }))
        ≡ codes "00000000070000000000000084836f6c64818282837365618284848374686581828284" ++ codes "77696e64828483" }
    ensures year { hex (field_terms_bytes 1 (record {
      field = 1;
      num_tokens = 3;
      terms =
          (to_be_bytes w64 1952, record { doc_freq = 2; postings_len = 2; positions_len = 0 })
          ∷ (to_be_bytes w64 1987, record { doc_freq = 1; postings_len = 1; positions_len = 0 }) ∷ [];
    }))
        ≡ codes "010000000300000000000000828800000000000007a08282808800000000000007c3818180" }
    ensures none { hex (terms_bytes false (record { field = 2; num_tokens = 0; terms = [] } ∷ []))
        ≡ codes "0002000000000000000000000080" }
    ensures no_field { terms_bytes false [] ≡ 0 ∷ [] }
{}

/// Two documents with a term each, `sea` and `seal`, in both kinds: the second stands behind the three bytes that it
/// shares with the first, or whole.
pub fn terms_stand_behind_what_they_share()
    ensures coded { hex (terms_bytes true (record {
      field = 0;
      num_tokens = 2;
      terms = of_one (codes "sea" ∷ codes "seal" ∷ []);
    } ∷ []))
        ≡ codes "0100000000020000000000000082" ++ codes "8373656181818083816c818180" }
    ensures whole { hex (terms_bytes false (record {
      field = 0;
      num_tokens = 2;
      terms = of_one (codes "sea" ∷ codes "seal" ∷ []);
    } ∷ []))
        ≡ codes "0000000000020000000000000082" ++ codes "83736561818180847365616c818180" }
    ensures none_shared { hex (coded_entry (Some (codes "sea")) (
      codes "the",
      record
          { doc_freq = 2; postings_len = 4; positions_len = 4 },
    )) ≡ codes "8083746865828484" }
{}

/// A block has sixteen terms: of seventeen the last stands whole again.
pub fn blocks_have_sixteen_terms()
    ensures seventeen { hex (coded_terms 16 (of_one (letters 0x61 17)))
        ≡ codes "8161818180" ++ codes "808162818180808163818180808164818180808165818180808166818180"
        ++ codes "808167818180808168818180808169818180" ++ codes "80816a81818080816b81818080816c818180"
        ++ codes "80816d81818080816e81818080816f818180" ++ codes "808170818180" ++ codes "8171818180" }
{}

/// Ranges of postings and positions are contiguous from 0, over all fields.
pub fn ranges_follow_one_another()
    ensures first { postings_start 0 two_fields ≡ 0 }
    ensures second { postings_start 1 two_fields ≡ 2 }
    ensures next_field { postings_start 2 two_fields ≡ 5 }
    ensures last { postings_start 3 two_fields ≡ 6 }
    ensures positions { positions_start 2 two_fields ≡ 12 }
{}

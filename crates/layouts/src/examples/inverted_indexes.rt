//! The sections of terms, postings and positions.
#![tactic(auto, unfolding(definitions::specs::NumberCodes::vint_bytes, definitions::proofs::OnLiterals::definitions_on_literals, crate::specs::TermPostings::postings_bytes))]

ghost use Rattle.std.specs.Prelude.{[], ◌++◌, ◌∷◌, ◌≡◌, codes, map};
ghost use Rattle.std.specs.Int.{to_be_bytes, w64};
ghost use Rattle.definitions.specs.Analyzers.{raw_and_default};
ghost use Rattle.definitions.specs.Examples.{books, hex, json_data, old_sea, sea_wind, wind};
ghost use Rattle.definitions.specs.Postings.{postings};
ghost use Rattle.definitions.specs.Schema.{basic, text_kind, with_freqs_and_positions};
ghost use Rattle.definitions.specs.Terms.{json_term, term_bytes};
ghost use Rattle.layouts.specs.InvertedIndexes.{all_terms, field_ids, field_terms, indexed_fields, num_tokens, option_of_term, term_of_key};
ghost use Rattle.layouts.specs.TermExamples.{posting, titles, years};
ghost use Rattle.layouts.specs.TermPostings.{postings_bytes};
ghost use Rattle.layouts.specs.TermSections.{field_terms_bytes};

/// A text term records what its field does, any other term only the documents.
pub fn terms_record_what_their_fields_do()
    ensures text { option_of_term books (term_of_key books 0 (codes "sea")) ≡ with_freqs_and_positions }
    ensures number { option_of_term books (term_of_key books 1 (to_be_bytes w64 1952)) ≡ basic }
    ensures text_in_json { option_of_term json_data (json_term 0 (codes "a") (codes "sx")) ≡ with_freqs_and_positions }
    ensures number_in_json { option_of_term json_data (json_term 0 (codes "a") (codes "i" ++ to_be_bytes w64 7))
        ≡ basic }
    ensures no_field { option_of_term books (term_bytes 2 text_kind (codes "sea")) ≡ basic }
{}

/// Each indexed field is in the section; its number of tokens is the sum of its counts.
pub fn fields_have_tokens()
    ensures fields { indexed_fields books ≡ 0 ∷ 1 ∷ [] }
    ensures titles { num_tokens titles ≡ 7 }
    ensures years { num_tokens years ≡ 3 }
    ensures no_lengths { field_ids ((0, 3 ∷ 3 ∷ 1 ∷ []) ∷ []) 1 ≡ [] }
    ensures lengths { field_ids ((0, 3 ∷ 3 ∷ 1 ∷ []) ∷ []) 0 ≡ 3 ∷ 3 ∷ 1 ∷ [] }
{}

/// The terms section of the books.
pub fn fields_have_bytes()
    ensures titles { hex (field_terms_bytes 1 (field_terms titles))
        ≡ codes "00000000070000000000000084836f6c64818282837365618284848374686581828284" ++ codes "77696e64828483" }
    ensures years { hex (field_terms_bytes 1 (field_terms years))
        ≡ codes "010000000300000000000000828800000000000007a08282808800000000000007c3818180" }
    ensures terms { all_terms books (years ∷ []) ≡ (0 ∷ 0 ∷ 0 ∷ 1 ∷ codes "u" ++ to_be_bytes w64 1952)
        ∷ (0 ∷ 0 ∷ 0 ∷ 1 ∷ codes "u" ++ to_be_bytes w64 1987) ∷ [] }
{}

/// The postings of a term are those that the documents have.
pub fn postings_are_of_documents()
    ensures sea { postings books raw_and_default (term_of_key books 0 (codes "sea")) (old_sea ∷ sea_wind ∷ wind ∷ [])
        ≡ posting 0 1 (2 ∷ []) ∷ posting 1 2 (0 ∷ 1 ∷ []) ∷ [] }
    ensures year { postings books raw_and_default (term_of_key books 1 (to_be_bytes w64 1952)) (old_sea ∷ sea_wind
        ∷ wind ∷ []) ≡ posting 0 1 [] ∷ posting 2 1 [] ∷ [] }
    ensures sea_bytes { postings_bytes with_freqs_and_positions (3 ∷ 3 ∷ 1 ∷ []) (0 ∷ 1 ∷ []) (1 ∷ 2 ∷ []) ≡ 0x80
        ∷ 0x80 ∷ 0x80 ∷ 0x81 ∷ [] }
    ensures year_bytes { postings_bytes basic [] (0 ∷ 2 ∷ []) (1 ∷ 1 ∷ []) ≡ 0x80 ∷ 0x81 ∷ [] }
{}

//! What merged segments have.

ghost use Rattle.std.specs.Prelude.{[], ◌∷◌, ◌≡◌, false, map, true, ℕ};
ghost use Rattle.definitions.specs.Alive.{live};
ghost use Rattle.definitions.specs.Analyzers.{raw_and_default};
ghost use Rattle.definitions.specs.Examples.{books, old_sea, sea_wind, title_term, wind};
ghost use Rattle.definitions.specs.Merging.{documents_in, flags_of, merged_postings, merged_rows, num_living, rank, renumbered};
ghost use Rattle.definitions.specs.Postings.{postings};

/// A document's new number is how many living ones stand before it.
pub fn documents_have_new_numbers()
    ensures ranks { map (rank (true ∷ false ∷ true ∷ true ∷ [])) (0 ∷ 1 ∷ 2 ∷ 3 ∷ 4 ∷ []) ≡ 0 ∷ 1 ∷ 1 ∷ 2 ∷ 3 ∷ [] }
    ensures living { num_living (true ∷ false ∷ true ∷ true ∷ []) ≡ 3 }
    ensures renumbered { renumbered 5 (true ∷ false ∷ true
        ∷ []) (map (λ doc. record { doc = doc; count = 1; positions = [] }) (0 ∷ 1 ∷ 2 ∷ []))
        ≡ map (λ doc. record { doc = doc; count = 1; positions = [] }) (5 ∷ 6 ∷ []) }
{}

/// Of two segments the second document of the first is dead.
pub fn segments_are_merged()
    ensures postings { merged_postings 0 (map (λ rows. (
      flags_of rows,
      postings books raw_and_default
          (title_term "sea") (documents_in rows),
    )) (((old_sea, true) ∷ (sea_wind, false) ∷ [])
        ∷ ((wind, true) ∷ (sea_wind, true) ∷ []) ∷ [])) ≡ record { doc = 0; count = 1; positions = 2 ∷ [] }
        ∷ record { doc = 2; count = 2; positions = 0 ∷ 1 ∷ [] } ∷ [] }
    ensures live { postings books raw_and_default (title_term "sea") (live (((old_sea, true) ∷ (sea_wind, false) ∷ [])
        ∷ ((wind, true) ∷ (sea_wind, true) ∷ []) ∷ [])) ≡ record { doc = 0; count = 1; positions = 2 ∷ [] }
        ∷ record { doc = 2; count = 2; positions = 0 ∷ 1 ∷ [] } ∷ [] }
    ensures rows { merged_rows {X = ℕ} ((true ∷ false ∷ [], 3 ∷ 4 ∷ []) ∷ (true ∷ true ∷ [], 1 ∷ 3 ∷ []) ∷ []) ≡ 3 ∷ 1
        ∷ 3 ∷ [] }
{}

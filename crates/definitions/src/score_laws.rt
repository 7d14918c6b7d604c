//! Laws of scores.

ghost use Rattle.std.specs.Prelude.{◌≡◌, ◌≤◌, ◌<◌, ◌*◌, ℕ, List, None, length, map, slice_index};
ghost use Rattle.std.specs.List.{AllByRecursion};
ghost use Rattle.definitions.specs.Analyzers.{Analyzer};
ghost use Rattle.definitions.specs.Blocks.{blocks, bound_of, bound_score, document_blocks, id_and_count};
ghost use Rattle.definitions.specs.Query.{Query};
ghost use Rattle.definitions.specs.Refusing.{bound, refusal};
ghost use Rattle.definitions.specs.Schema.{IndexRecordOption, Schema};
ghost use Rattle.definitions.specs.Scoring.{DontFall, IsSimilarity, Similarity, max_score, part, score, term_score};
ghost use Rattle.definitions.specs.Values.{Document};

/// No score of a query that isn't refused is above its bound, and that bound is at most the greatest score.
pub fn scores_stay_below_bounds()
    ensures below { (schema : Schema) (analyze : Analyzer) (sim : Similarity) (doc : Document) (q : Query)
        → refusal schema sim.weight q ≡ None → score schema analyze sim doc 1 q ≤ bound sim.weight 1 q }
    ensures fits { (schema : Schema) (sim : Similarity) (q : Query) → refusal schema sim.weight q ≡ None
        → bound sim.weight 1 q ≤ max_score }
{}

/// Under norms that don't fall, no part that a posting of a block earns is above the block's bound.
pub fn a_bound_is_not_below_its_scores()
    ensures { (b weight : ℕ) (norms : List ℕ) (block : List (ℕ × ℕ)) → DontFall norms → length norms ≡ 256
        → AllByRecursion (λ p. p.0 < 256) block → AllByRecursion (λ p. b * part weight p.1 (slice_index norms p.0)
        ≤ bound_score b weight norms (bound_of block)) block }
{}

/// No document that has a term scores above the bound of its block, whether the query reads counts or takes each for 1.
pub fn no_document_scores_above_its_bound()
    ensures blocks { (schema : Schema) (analyze : Analyzer) (t : List ℕ) (docs : List Document)
        → blocks schema analyze t docs
        ≡ map (map (id_and_count schema analyze t)) (document_blocks schema analyze t docs) }
    ensures below { (schema : Schema) (analyze : Analyzer) (sim : Similarity) (b : ℕ) (t : List ℕ)
        (option : IndexRecordOption) (docs : List Document) → IsSimilarity sim
        → AllByRecursion (λ block. AllByRecursion (λ doc. b * term_score schema analyze sim doc t option
        ≤ bound_score b (sim.weight t) sim.norms (bound_of (map (id_and_count schema analyze t) block))) block)
        (document_blocks schema analyze t docs) }
{}

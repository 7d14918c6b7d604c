//! Laws of scorers, in the words of the definitions.
#![tactic(auto)]

ghost use Rattle.std.specs.Prelude.{◌≡◌, List, ℕ};
ghost use Rattle.definitions.specs.Analyzers.{Analyzer};
ghost use Rattle.definitions.specs.Query.{term};
ghost use Rattle.definitions.specs.Schema.{IndexRecordOption, Schema};
ghost use Rattle.definitions.specs.Scoring.{Similarity, length_id, query_count, score};
ghost use Rattle.definitions.specs.Terms.{field_of};
ghost use Rattle.definitions.specs.Values.{Document};
ghost use Rattle.term_scorer.specs.TermScores.{score_by};

/// States that the score of a document's count and length id is its score by the definitions.
pub fn term_scores_are_those_of_definitions()
    ensures { (schema : Schema) (analyze : Analyzer) (sim : Similarity) (doc : Document)
        (t : List ℕ) (option : IndexRecordOption) (b : ℕ)
        → score_by (record { weight = sim.weight t; boost = b; norms = sim.norms })
        (length_id schema analyze (field_of t) doc) (query_count schema analyze t option doc)
        ≡ score schema analyze sim doc b (term t option) }
{}

//! What weights of one form are asked.

ghost use Rattle.std.specs.Prelude.{◌≡◌, ◌≢◌, IfErr, IfOk, List, None, Some, option_map, pos};
ghost use Rattle.definitions.specs.Analyzers.{Analyzer};
ghost use Rattle.definitions.specs.Refusing.{tree_fault};
ghost use Rattle.definitions.specs.Schema.{Schema};
ghost use Rattle.definitions.specs.Scoring.{Similarity};
ghost use Rattle.definitions.specs.Values.{Document};
ghost use Rattle.definitions.specs.declared.fault.Fault.TheVariants as faults;
ghost use Rattle.scorer_answers.specs.Earned.{score_at};
ghost use Rattle.segment_reader.specs.Scorings.{statistics_asked};
ghost use Rattle.segment_reader.specs.SegmentReaders.{StandsFor};
ghost use Rattle.term_scorer.specs.Explaining.{explained_value};
ghost use Rattle.weights.specs.AnyForms.{AnyScoresBy, any_query};
ghost use Rattle.weights.specs.Weighing.{IsWeighed};

use common::DocId;
use definitions::Fault;
use reader_scorers::LeafWeights;
use segment_reader::{EnableScoring, SegmentReader};
use std::alloc::Global;
use term_scorer::Explanation;
use weights::{AnyWeight, Weight};

/// Explains the score of `doc` by `weight`; `InvalidArgument` if `doc` doesn't match.
pub(crate) fn explained<'a, W: LeafWeights<'a>>(
    alloc: Global,
    weight: &AnyWeight<'_, W>,
    reader: &SegmentReader<'a>,
    doc: DocId,
) -> Result<Explanation, Fault>
    requires { IsWeighed (AnyScoresBy W.similarity weight.now) 1 (any_query weight.now) }
    ensures ok { (schema : Schema) (analyze : Analyzer) (sim : Similarity) (docs : List Document)
        → StandsFor schema analyze docs reader.now
        → AnyScoresBy W.similarity weight.now sim
        → tree_fault schema sim.weight 1 (any_query weight.now) ≡ None
        → IfOk result (λ explanation. option_map pos (score_at schema analyze sim 1 (any_query weight.now) docs doc)
        ≡ Some (explained_value explanation)) }
    ensures err { (schema : Schema) (analyze : Analyzer) (sim : Similarity) (docs : List Document)
        → StandsFor schema analyze docs reader.now
        → AnyScoresBy W.similarity weight.now sim
        → tree_fault schema sim.weight 1 (any_query weight.now) ≡ None
        → IfErr result (λ fault. fault ≢ faults.OutOfMemory
        → score_at schema analyze sim 1 (any_query weight.now) docs doc ≡ None) }
    ensures fault { IfErr result (λ fault. fault ≢ faults.OutOfMemory → fault ≡ faults.InvalidArgument) }
{
    weight.explain(alloc, reader, doc)
}

/// Returns what scores come from; `None` if none are asked for.
pub(crate) fn statistics<'a, S>(enable_scoring: EnableScoring<'a, S>) -> Option<&'a S>
    ensures { option_map (λ s. s.now) result ≡ statistics_asked enable_scoring.entry }
{
    match enable_scoring {
        EnableScoring::Enabled {
            statistics_provider,
            ..
        } => Some(statistics_provider),
        EnableScoring::Disabled { .. } => None,
    }
}

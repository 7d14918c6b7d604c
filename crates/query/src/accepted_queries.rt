//! Queries that aren't refused.

ghost use Rattle.std.specs.Prelude.{◌≡◌, ◌≢◌, IfErr, None, OnOk};
ghost use Rattle.std.specs.Result.{result_err};
ghost use Rattle.definitions.specs.Refusing.{refusal, tree_fault};
ghost use Rattle.definitions.specs.declared.fault.Fault.TheVariants as faults;
ghost use Rattle.query_trees.specs.Queries.{query_of};
ghost use Rattle.query_scorers.specs.Accepted.{IsAccepted};

use definitions::Fault;
use query_checks::check_query;
use query_trees::AnyQuery;
use schema::Schema;
use settings::Statistics;

/// Checks that `query` is accepted, as `check_query` does. It takes no memory. An accepted query has a scorer in every
/// segment.
#[tactic(auto, using(crate::proofs::Accepting::accepts, definitions::proofs::Bounds::accepted_tree))]
pub fn accept_query<S: Statistics>(
    schema: &Schema,
    statistics: &S,
    query: &AnyQuery,
) -> Result<(), Fault>
    ensures fault { result_err result
        ≡ refusal schema.now (S.similarity statistics.now).weight (query_of query.now) }
    ensures own { IfErr result (λ fault. fault ≢ faults.OutOfMemory) }
    ensures passed { OnOk result
        (tree_fault schema.now (S.similarity statistics.now).weight 1 (query_of query.now) ≡ None) }
    ensures accepted { OnOk result (IsAccepted (S.similarity statistics.now).weight 1 (query_of query.now)) }
{
    check_query(schema, statistics, query)
}

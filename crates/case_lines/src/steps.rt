//! Queries by steps: each adds a query, or makes one of the last ones.

use crate::Refusal;
use crate::given_terms::name;
use crate::nodes::{add_clauses, add_constant, add_disjuncts, add_leaf, add_times, add_union};
use query_trees::AnyQuery;
use serde_json::Value;
use std::alloc::Global;

/// The query that is left after all steps.
pub fn query_by_steps(alloc: Global, steps: &[Value]) -> Result<AnyQuery, Refusal> {
    let mut made = Vec::new(alloc);
    for step in steps {
        take_step(alloc, &mut made, step)?;
    }
    match made.pop() {
        Some(query) if made.is_empty() => Ok(query),
        _ => Err(Refusal::NotAsked),
    }
}

/// Takes a step.
fn take_step(alloc: Global, made: &mut Vec<AnyQuery>, step: &Value) -> Result<(), Refusal> {
    match name(step)? {
        "bool" => add_clauses(alloc, made, step),
        "and" | "or" | "at-least" => add_union(alloc, made, step),
        "best" => add_disjuncts(alloc, made, step),
        "boost" | "boosts" => add_times(alloc, made, step),
        "const" => add_constant(alloc, made, step),
        _ => add_leaf(alloc, made, step),
    }
}

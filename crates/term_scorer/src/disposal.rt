//! How explanations are let go: one by one, by calls that don't nest, however deep they are, and without asking for
//! memory.
//!
//! On the way down the details of the first explanation of a list are taken out, and what is above the list is put in
//! their place. On the way up the details of the last explanation of the list above are next; those of the first one of
//! a list are the list above it.

ghost use Rattle.std.specs.Prelude.{◌+◌, ◌<◌, IfSome};
ghost use Rattle.term_scorer.specs.ExplanationNodes.{nodes, nodes_above};

use crate::explanation::Explanation;

/// Lets `explanation` go, with all that it follows from.
pub(crate) fn let_go(explanation: Explanation) {
    let mut next = last_details(explanation.into_details());
    while let Some((here, above)) = next {
        next = next_details(here, above);
    }
}

/// Lets the first explanation of a list go, but for its details, or else the last one of the list `above`. Returns the
/// details, and what is above them.
fn next_details(
    explanations: Vec<Explanation>,
    above: Vec<Explanation>,
) -> Option<(Vec<Explanation>, Vec<Explanation>)>
    ensures { IfSome result (λ next. nodes next.0.items + nodes_above next.1.items
        < nodes explanations.items + nodes_above above.items) }
{
    let mut explanations = explanations;
    if explanations.is_empty() {
        explanations.destroy_empty();
        return last_details(above);
    }
    let details = explanations[0].replace_details(above);
    Some((details, explanations))
}

/// Lets the last explanation of the list `above` go, but for its details. Returns them, and what is above them.
fn last_details(above: Vec<Explanation>) -> Option<(Vec<Explanation>, Vec<Explanation>)>
    ensures { IfSome result (λ next. nodes next.0.items + nodes_above next.1.items < nodes_above above.items) }
{
    let mut above = above;
    let Some(last) = above.pop() else {
        above.destroy_empty();
        return None;
    };
    let details = last.into_details();
    if above.is_empty() {
        return Some((above, details));
    }
    Some((details, above))
}

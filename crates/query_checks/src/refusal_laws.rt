//! Laws of the order in which faults of queries are found.

ghost use Rattle.std.specs.Prelude.{◌<◌, ◌≡◌, ◌≤◌, List, None, Some, false, true, ℕ};
ghost use Rattle.std.specs.List.{AllByRecursion};
ghost use Rattle.definitions.specs.Query.{Query, depth};
ghost use Rattle.definitions.specs.Refusing.{max_depth, node_fault, refusal, tree_fault};
ghost use Rattle.definitions.specs.Schema.{Schema};
ghost use Rattle.definitions.specs.declared.fault.Fault.{Fault};
ghost use Rattle.definitions.specs.declared.fault.Fault.TheVariants as faults;
ghost use Rattle.query_checks.specs.Orders.{first_refused, node_tests, nodes_of, order_of};

/// States that a path that is too long is reported first, whatever else is wrong with the query.
pub fn depths_are_tested_first()
    ensures deep { (schema : Schema) (weight : List ℕ → ℕ) (q : Query)
        → max_depth < depth q → refusal schema weight q ≡ Some faults.TooDeep }
    ensures shallow { (schema : Schema) (weight : List ℕ → ℕ) (q : Query)
        → depth q ≤ max_depth → refusal schema weight q ≡ tree_fault schema weight 1 q }
{}

/// States that a query is refused with the fault of its first node that has one; an outer node comes before an inner
/// one, and a child with all nodes below it before the next child.
pub fn a_query_is_refused_by_its_first_node()
    ensures { (schema : Schema) (weight : List ℕ → ℕ) (b : ℕ) (q : Query)
        → tree_fault schema weight b q ≡ first_refused schema weight (nodes_of b q) }
{}

/// States that a node is refused with the first fault, in the order of the faults, whose test fails over its terms and
/// numbers; if no test fails it isn't refused.
pub fn a_node_is_refused_by_its_first_fault()
    ensures first { (schema : Schema) (weight : List ℕ → ℕ) (b : ℕ) (q : Query) (fault : Fault)
        → node_fault schema weight b q ≡ Some fault
        → AllByRecursion (λ t. t.0 ≡ true → order_of fault ≤ order_of t.1) (node_tests schema weight b q) }
    ensures passes { (schema : Schema) (weight : List ℕ → ℕ) (b : ℕ) (q : Query)
        → node_fault schema weight b q ≡ None
        → AllByRecursion (λ t. t.0 ≡ false) (node_tests schema weight b q) }
{}

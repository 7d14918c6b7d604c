//! Laws of options.
ghost use Rattle.std.specs.Prelude.{◌≡◌, ◌&&◌};
ghost use Rattle.definitions.specs.Schema.{IndexRecordOption, has_freq, has_positions};
ghost use Rattle.options.specs.RecordOption.{lesser};
ghost use Rattle.options.specs.Options.{FacetData, JsonData, NumericData, TextData, ValueData, facet_or, json_or, numeric_or, string_constant, text_constant, text_or, value_or};

use crate::text_options::{STRING, TEXT, TextOptions};

/// States that the lesser of two record options doesn't depend on their order or grouping.
pub fn downgrade_is_a_minimum()
    ensures commutative { (a b : IndexRecordOption) → lesser a b ≡ lesser b a }
    ensures associative { (a b c : IndexRecordOption) → lesser (lesser a b) c ≡ lesser a (lesser b c) }
    ensures idempotent { (a : IndexRecordOption) → lesser a a ≡ a }
{}

/// States that the lesser of two record options records what both record.
pub fn downgrade_records_what_both_do()
    ensures counts { (a b : IndexRecordOption) → has_freq (lesser a b) ≡ (has_freq a && has_freq b) }
    ensures positions { (a b : IndexRecordOption) → has_positions (lesser a b) ≡ (has_positions a && has_positions b) }
{}

/// States that joining the options of number and bool fields doesn't depend on grouping, and repeats change nothing.
pub fn numeric_or_is_a_union()
    ensures associative { (a b c : NumericData) → numeric_or (numeric_or a b) c ≡ numeric_or a (numeric_or b c) }
    ensures idempotent { (a : NumericData) → numeric_or a a ≡ a }
{}

/// States that joining the options of text fields doesn't depend on grouping, and repeats change nothing.
pub fn text_or_is_a_union()
    ensures associative { (a b c : TextData) → text_or (text_or a b) c ≡ text_or a (text_or b c) }
    ensures idempotent { (a : TextData) → text_or a a ≡ a }
{}

/// States that joining the options of date, bytes and IP address fields doesn't depend on grouping, and repeats change
/// nothing.
pub fn value_or_is_a_union()
    ensures associative { (a b c : ValueData) → value_or (value_or a b) c ≡ value_or a (value_or b c) }
    ensures idempotent { (a : ValueData) → value_or a a ≡ a }
{}

/// States that joining the options of facet fields doesn't depend on grouping, and repeats change nothing.
pub fn facet_or_is_a_union()
    ensures associative { (a b c : FacetData) → facet_or (facet_or a b) c ≡ facet_or a (facet_or b c) }
    ensures idempotent { (a : FacetData) → facet_or a a ≡ a }
{}

/// States that joining the options of JSON fields doesn't depend on grouping, and repeats change nothing.
pub fn json_or_is_a_union()
    ensures associative { (a b c : JsonData) → json_or (json_or a b) c ≡ json_or a (json_or b c) }
    ensures idempotent { (a : JsonData) → json_or a a ≡ a }
{}

/// Returns the constants `TEXT` and `STRING`, which no clause can name.
pub fn constants() -> (TextOptions, TextOptions)
    ensures text { result.0 ≡ text_constant }
    ensures string { result.1 ≡ string_constant }
{
    (TEXT, STRING)
}

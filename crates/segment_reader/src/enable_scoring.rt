//! Whether a search asks for scores.

ghost use Rattle.std.specs.Prelude.{◌≡◌, None, Some, is_some, option_map};

use crate::searcher::Searcher;
use schema::Schema;

/// Whether scores are asked for. Without them only matches are promised.
#[derive_where(Clone, Copy)]
pub enum EnableScoring<'a, T> {
    /// Scores are asked for.
    Enabled {
        /// The segments that are searched.
        searcher: &'a Searcher<'a, T>,
        /// What the scores come from.
        statistics_provider: &'a T,
    },
    /// Only matches are asked for.
    Disabled {
        /// The schema of what is searched.
        schema: &'a Schema,
        /// The segments, if they are known.
        searcher_opt: Option<&'a Searcher<'a, T>>,
    },
}

impl<'a, T> EnableScoring<'a, T> {
    ghost use Rattle.segment_reader.specs.Scorings.{schema_asked, searcher_asked, statistics_asked};
    ghost use Rattle.segment_reader.specs.Searchers.{schema_of, statistics_of};

    /// Asks for scores, from the statistics of `searcher`.
    pub fn enabled_from_searcher(searcher: &'a Searcher<'a, T>) -> EnableScoring<'a, T>
        ensures searcher { searcher_asked result ≡ Some searcher.now }
        ensures statistics { statistics_asked result ≡ Some (statistics_of searcher.now) }
    {
        EnableScoring::Enabled {
            searcher,
            statistics_provider: searcher.statistics(),
        }
    }

    /// Asks for scores, from `statistics_provider` in place of the searcher's statistics.
    pub fn enabled_from_statistics_provider(
        statistics_provider: &'a T,
        searcher: &'a Searcher<'a, T>,
    ) -> EnableScoring<'a, T>
        ensures searcher { searcher_asked result ≡ Some searcher.now }
        ensures statistics { statistics_asked result ≡ Some statistics_provider.now }
    {
        EnableScoring::Enabled {
            searcher,
            statistics_provider,
        }
    }

    /// Asks for matches without scores, over `searcher`.
    pub fn disabled_from_searcher(searcher: &'a Searcher<'a, T>) -> EnableScoring<'a, T>
        ensures searcher { searcher_asked result ≡ Some searcher.now }
        ensures statistics { statistics_asked result ≡ None }
        ensures schema { schema_asked result ≡ schema_of searcher.now }
    {
        EnableScoring::Disabled {
            schema: searcher.schema(),
            searcher_opt: Some(searcher),
        }
    }

    /// Asks for matches without scores, over whatever has `schema`.
    pub fn disabled_from_schema(schema: &'a Schema) -> EnableScoring<'a, T>
        ensures searcher { searcher_asked result ≡ None }
        ensures statistics { statistics_asked result ≡ None }
        ensures schema { schema_asked result ≡ schema.now }
    {
        EnableScoring::Disabled {
            schema,
            searcher_opt: None,
        }
    }

    /// Returns the segments, if they are known.
    pub fn searcher(&self) -> Option<&'a Searcher<'a, T>>
        ensures { option_map (λ searcher. searcher.now) result ≡ searcher_asked self.now }
    {
        match self {
            EnableScoring::Enabled { searcher, .. } => Some(*searcher),
            EnableScoring::Disabled { searcher_opt, .. } => *searcher_opt,
        }
    }

    /// Returns the schema.
    pub fn schema(&self) -> &'a Schema
        ensures { result.now ≡ schema_asked self.now }
    {
        match self {
            EnableScoring::Enabled { searcher, .. } => searcher.schema(),
            EnableScoring::Disabled { schema, .. } => *schema,
        }
    }

    /// Whether scores are asked for.
    pub fn is_scoring_enabled(&self) -> bool
        ensures { result ≡ is_some (statistics_asked self.now) }
    {
        matches!(self, EnableScoring::Enabled { .. })
    }
}

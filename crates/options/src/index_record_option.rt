//! What is recorded of a text field's terms.
ghost use Rattle.std.specs.Prelude.{◌≡◌};
ghost use Rattle.definitions.specs.Schema as schema;
ghost use Rattle.options.specs.RecordOption.{record_option_of, lesser};

/// What is recorded of a term, from the least to the most.
#[derive(Clone, Copy, Debug, PartialEq, Eq)]
pub enum IndexRecordOption {
    /// The documents alone.
    Basic,
    /// The documents, and the number of times that each holds the term.
    WithFreqs,
    /// The documents, and the positions of the term in each.
    WithFreqsAndPositions,
}

impl IndexRecordOption {
    /// Whether counts are recorded.
    pub fn has_freq(self) -> bool
        ensures { result ≡ schema.has_freq (record_option_of self) }
    {
        match self {
            IndexRecordOption::Basic => false,
            IndexRecordOption::WithFreqs | IndexRecordOption::WithFreqsAndPositions => true,
        }
    }

    /// Whether positions are recorded.
    pub fn has_positions(self) -> bool
        ensures { result ≡ schema.has_positions (record_option_of self) }
    {
        match self {
            IndexRecordOption::Basic | IndexRecordOption::WithFreqs => false,
            IndexRecordOption::WithFreqsAndPositions => true,
        }
    }

    /// Returns the one of `self` and `other` that records less.
    pub fn downgrade(self, other: IndexRecordOption) -> IndexRecordOption
        ensures { record_option_of result ≡ lesser (record_option_of self) (record_option_of other) }
    {
        match (self, other) {
            (IndexRecordOption::WithFreqsAndPositions, option) => option,
            (option, IndexRecordOption::WithFreqsAndPositions) => option,
            (IndexRecordOption::WithFreqs, IndexRecordOption::WithFreqs) =>
                IndexRecordOption::WithFreqs,
            _ => IndexRecordOption::Basic,
        }
    }
}

//! What a search looks at.

ghost use Rattle.std.specs.Prelude.{◌<◌, ◌≡◌, Some, length, slice_get};

use crate::SegmentReader;
use schema::Schema;

/// A schema, the statistics that scores come from, and the segments that are searched, in order. The first two are
/// borrowed.
#[derive(Drop)]
pub struct Searcher<'a, T> {
    schema: &'a Schema,
    statistics: &'a T,
    segment_readers: Vec<SegmentReader<'a>>,
}

impl<'a, T> Searcher<'a, T> {
    ghost use Rattle.segment_reader.specs.Searchers.{readers_in, schema_of, statistics_of};

    /// Returns a searcher of segments under `schema`, with statistics of their terms.
    pub fn new(
        schema: &'a Schema,
        statistics: &'a T,
        segment_readers: Vec<SegmentReader<'a>>,
    ) -> Searcher<'a, T>
        ensures schema { schema_of result ≡ schema.now }
        ensures statistics { statistics_of result ≡ statistics.now }
        ensures readers { readers_in result ≡ segment_readers.entry.items }
    {
        Searcher {
            schema,
            statistics,
            segment_readers,
        }
    }

    /// Returns the schema.
    pub fn schema(&self) -> &'a Schema
        ensures { result.now ≡ schema_of self.now }
    {
        self.schema
    }

    /// Returns the statistics that scores come from.
    pub fn statistics(&self) -> &'a T
        ensures { result.now ≡ statistics_of self.now }
    {
        self.statistics
    }

    /// Returns the segment of index `segment_ord`.
    pub fn segment_reader(&self, segment_ord: u32) -> &SegmentReader<'a>
        requires { segment_ord < length (readers_in self.now) }
        ensures { slice_get (readers_in self.now) segment_ord ≡ Some result.now }
    {
        &self.segment_readers[segment_ord as usize]
    }

    /// Returns all segments, in order.
    pub fn segment_readers(&self) -> &[SegmentReader<'a>]
        ensures { result.now ≡ readers_in self.now }
    {
        &self.segment_readers
    }
}

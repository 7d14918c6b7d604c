//! A search, and what is printed of it.

use crate::hit_order::HitOrder;
use crate::question::Question;

/// A search, and what is printed of it.
#[derive(Clone, Copy, Debug)]
pub struct Search<'a> {
    /// The path of the index's file, by which messages name it.
    pub path: &'a str,
    /// What is looked for.
    pub question: Question<'a>,
    /// How many hits are printed.
    pub count: usize,
    /// How many hits are left out before them.
    pub start: usize,
    /// In which order they are.
    pub order: HitOrder<'a>,
    /// The names of the fields that are printed; all of them where no name is given.
    pub fields: &'a [&'a str],
    /// The field of whose values is printed how many of the documents that match have each.
    pub facets: Option<&'a str>,
    /// Whether only the number of documents that match is printed.
    pub counts: bool,
    /// Whether hits are printed as JSON objects.
    pub json: bool,
}

impl Search<'_> {
    /// Whether the field `name` is printed.
    pub(crate) fn shows(&self, name: &str) -> bool {
        self.fields.is_empty() || self.fields.iter().any(|field| *field == name)
    }
}

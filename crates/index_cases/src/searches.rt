//! Operations that ask the index: `search`, `search-counted`, `count`, `settings` and `term`.

use crate::answers::json_in;
use crate::cases::Cases;
use crate::readings::{settings_text, term_text};
use definitions::Fault;
use index::{AnyQuery, Hit, Settings, read_query, read_term};
use schema::Term;
use std::alloc::{AllocError, Global};

impl Cases {
    /// The answer, if this is such an operation.
    pub(crate) fn answer_of_search(
        &mut self,
        operation: &str,
        arguments: &str,
    ) -> Result<Option<String>, Fault> {
        let answer = match operation {
            "search" => self.search(arguments)?,
            "search-counted" => self.search_counted(arguments)?,
            "count" => self.count(arguments)?,
            "settings" => self.settings(arguments)?,
            "term" => self.term(arguments)?,
            _ => return Ok(None),
        };
        Ok(Some(answer))
    }

    /// The query in a text, read by the schema of the index.
    fn query(&self, text: &str) -> Result<AnyQuery, Fault> {
        let json = json_in(self.alloc, text)?;
        read_query(self.alloc, self.standing()?.schema(), &json)
    }

    /// How many hits are asked for, and the query.
    fn limit_and_query(&self, arguments: &str) -> Result<(usize, AnyQuery), Fault> {
        let (k, query) = arguments.split_once(' ').ok_or(Fault::BadRequest)?;
        let Ok(k) = k.parse::<usize>() else {
            return Err(Fault::BadRequest);
        };
        Ok((k, self.query(query)?))
    }

    /// The best hits of a query; the arguments are how many, and the query.
    fn search(&mut self, arguments: &str) -> Result<String, Fault> {
        let (k, query) = self.limit_and_query(arguments)?;
        let hits = self.standing_mut()?.search(&query, k)?;
        Ok(hits_text(self.alloc, &hits)?)
    }

    /// How many blocks were decoded for the best hits of a query, how many hits there are, and the score of the last.
    fn search_counted(&mut self, arguments: &str) -> Result<String, Fault> {
        let (k, query) = self.limit_and_query(arguments)?;
        let (hits, blocks) = self.standing_mut()?.search_counted(&query, k)?;
        let found = hits.len();
        match hits.last() {
            Some(last) => Ok(format!(in self.alloc;
                "blocks {blocks} hits {found} last {}",
                last.score
            )?),
            None => Ok(format!(in self.alloc; "blocks {blocks} hits 0")?),
        }
    }

    /// How many documents match a query.
    fn count(&self, text: &str) -> Result<String, Fault> {
        let query = self.query(text)?;
        let count = self.standing()?.count(&query)?;
        Ok(format!(in self.alloc; "{count}")?)
    }

    /// Settings as they are written: those of the index, or those in a text.
    fn settings(&self, text: &str) -> Result<String, Fault> {
        let index = self.standing()?;
        if text.is_empty() {
            return settings_text(self.alloc, index.schema(), index.settings());
        }
        let json = json_in(self.alloc, text)?;
        let settings = Settings::from_json_value(self.alloc, index.schema(), &json)?;
        settings_text(self.alloc, index.schema(), &settings)
    }

    /// The term in a text, read by the schema of the index.
    fn term(&self, text: &str) -> Result<String, Fault> {
        Ok(term_text(self.alloc, &self.term_in(text)?)?)
    }

    /// The term in a text, as it is.
    pub(crate) fn term_in(&self, text: &str) -> Result<Term, Fault> {
        let json = json_in(self.alloc, text)?;
        read_term(self.alloc, self.standing()?.schema(), &json)
    }
}

/// The score of each hit, and what is stored of its document.
fn hits_text(alloc: Global, hits: &[Hit]) -> Result<String, AllocError> {
    let mut text = String::from_str(alloc, "hits")?;
    for hit in hits {
        let doc = hit.doc.to_json_value(alloc)?.to_string(alloc)?;
        text.push_str(&format!(in alloc; " {} {doc}", hit.score)?)?;
    }
    Ok(text)
}

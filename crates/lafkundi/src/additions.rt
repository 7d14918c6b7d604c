//! Additions to an index, line by line.

use crate::failure::Failure;
use crate::file_index::FileIndex;
use crate::line_refusal::LineRefusal;
use engine::parse_json;
use index::{CompactDoc, Fault, Schema, Term, read_term};
use serde_json::{Value as Json, json};
use std::alloc::Global;
use terms::Type;

/// What some programs write at the beginning of a text.
const BYTE_ORDER_MARK: &[u8] = b"\xEF\xBB\xBF";

/// Additions to the index of a file, with what was refused so far.
#[derive(Drop)]
pub(crate) struct Additions<'a> {
    path: &'a str,
    index: FileIndex,
    /// The field by which a document takes the place of others.
    id: Option<&'a str>,
    /// After how many changes they are committed.
    every: u64,
    added: u64,
    deletions: u64,
    refused: u64,
    /// Changes since the last commit.
    uncommitted: u64,
}

impl<'a> Additions<'a> {
    /// Begins additions to an index; the field `id` has to be one whose values tell documents apart.
    pub(crate) fn new(
        path: &'a str,
        index: FileIndex,
        id: Option<&'a str>,
        every: u64,
    ) -> Result<Additions<'a>, Failure> {
        if let Some(name) = id {
            let _field = index.schema().get_field(name)?;
            if !tells_apart(index.schema(), name) {
                return Err(Failure::NoIdentifier);
            }
        }
        Ok(Additions {
            path,
            index,
            id,
            every,
            added: 0,
            deletions: 0,
            refused: 0,
            uncommitted: 0,
        })
    }

    /// Does what a line says, which has this number in `source`; tells it where it is refused. An empty line says
    /// nothing. An error ends the additions.
    pub(crate) fn take_line(
        &mut self,
        rt: &HostRuntime,
        source: &str,
        number: u64,
        line: &[u8],
    ) -> Result<(), Failure> {
        let line = if number == 1 {
            line.strip_prefix(BYTE_ORDER_MARK).unwrap_or(line)
        } else {
            line
        };
        if line.trim_ascii().is_empty() {
            return Ok(());
        }
        match self.take(rt.alloc(), line) {
            Ok(()) => self.commit_if_due(rt),
            Err(refusal) => {
                self.refused = self.refused.saturating_add(1);
                let _ = eprintln!(rt; "lafkundi add: {source}: line {number}: {refusal}");
                match refusal {
                    LineRefusal::Refused(fault) if !self.goes_on(fault) => {
                        Err(Failure::Refused(fault))
                    }
                    LineRefusal::Lost(fault) => Err(Failure::Refused(fault)),
                    _ => Ok(()),
                }
            }
        }
    }

    /// Does what a line says.
    fn take(&mut self, alloc: Global, line: &[u8]) -> Result<(), LineRefusal> {
        let Ok(text) = str::from_utf8(line) else {
            return Err(LineRefusal::NotUtf8);
        };
        let Some(json) = parse_json(alloc, text)? else {
            return Err(LineRefusal::NotJson);
        };
        match self.deletion_in(&json) {
            Some(term) => self.delete(alloc, term),
            None => self.add(alloc, &json),
        }
    }

    /// Returns the term of a line that takes documents away: one with the key `delete` alone, which is no field.
    fn deletion_in<'v>(&self, json: &'v Json) -> Option<&'v Json> {
        let members = json.as_object()?;
        if members.len() != 1 || self.index.schema().get_field("delete").is_ok() {
            return None;
        }
        json.get("delete")
    }

    /// Takes away the documents with a term.
    fn delete(&mut self, alloc: Global, term: &Json) -> Result<(), LineRefusal> {
        let term = read_term(alloc, self.index.schema(), term)?;
        self.index.delete_term(&term)?;
        self.deletions = self.deletions.saturating_add(1);
        self.uncommitted = self.uncommitted.saturating_add(1);
        Ok(())
    }

    /// Adds a document, in the place of those that have its identifier.
    fn add(&mut self, alloc: Global, json: &Json) -> Result<(), LineRefusal> {
        if !self.has_field(json) {
            return Err(LineRefusal::NoField);
        }
        let replaced = self.identifier_of(alloc, json)?;
        let doc = CompactDoc::from_json_object(alloc, self.index.schema(), json)?;
        match &replaced {
            Some(term) => {
                self.index.delete_term(term)?;
                self.index.add_document(&doc).map_err(LineRefusal::Lost)?;
            }
            None => self.index.add_document(&doc)?,
        }
        self.added = self.added.saturating_add(1);
        self.uncommitted = self.uncommitted.saturating_add(1);
        Ok(())
    }

    /// Whether a member of `json` is a field.
    fn has_field(&self, json: &Json) -> bool {
        for (_field, entry) in self.index.schema().fields() {
            if json.get(entry.name()).is_some() {
                return true;
            }
        }
        false
    }

    /// Returns the term by which a document takes the place of others, if it is to.
    fn identifier_of(&self, alloc: Global, json: &Json) -> Result<Option<Term>, LineRefusal> {
        let Some(name) = self.id else {
            return Ok(None);
        };
        let value = match json.get(name) {
            Some(Json::Array(values)) => match values.as_slice() {
                [value] => value,
                _ => return Err(LineRefusal::NoIdentifier),
            },
            Some(value) => value,
            None => return Err(LineRefusal::NoIdentifier),
        };
        let term = json!(in alloc; {"field": name, "value": value})?;
        match read_term(alloc, self.index.schema(), &term) {
            Ok(term) => Ok(Some(term)),
            Err(Fault::OutOfMemory) => Err(LineRefusal::Refused(Fault::OutOfMemory)),
            Err(_) => Err(LineRefusal::NoIdentifier),
        }
    }

    /// Whether the next line can be taken after a refusal.
    fn goes_on(&self, fault: Fault) -> bool {
        !matches!(fault, Fault::OutOfMemory | Fault::Device) && self.index.check_writer().is_ok()
    }

    /// Commits where as many were added as are committed at a time, and tells how many are in the index by now.
    fn commit_if_due(&mut self, rt: &HostRuntime) -> Result<(), Failure> {
        if self.uncommitted < self.every {
            return Ok(());
        }
        self.index.commit()?;
        self.uncommitted = 0;
        let _ = eprintln!(rt; "lafkundi add: {}: {} added", self.path, self.added);
        Ok(())
    }

    /// Commits what waits, and tells how much was added and refused; returns how many lines were refused.
    pub(crate) fn end(&mut self, rt: &HostRuntime) -> Result<u64, Failure> {
        if self.uncommitted > 0 {
            self.index.commit()?;
            self.uncommitted = 0;
        }
        println!(rt;
            "{}: {} added, {} deletions, {} refused",
            self.path, self.added, self.deletions, self.refused
        )?;
        Ok(self.refused)
    }

    /// Tells how much of what was taken isn't committed, and so is lost.
    pub(crate) fn tell_lost(&self, rt: &HostRuntime) {
        let _ = eprintln!(rt;
            "lafkundi add: {}: of {} added, the last {} changes aren't committed",
            self.path, self.added, self.uncommitted
        );
    }
}

/// Whether the values of the field `name` tell documents apart.
fn tells_apart(schema: &Schema, name: &str) -> bool {
    for (_field, entry) in schema.fields() {
        if entry.name() == name {
            let is_one_value = match entry.field_type().value_type() {
                Type::Str => entry.tokenizer() == "raw",
                Type::U64 | Type::I64 | Type::Date | Type::Bytes | Type::IpAddr => true,
                Type::Bool | Type::Facet | Type::Json => false,
            };
            return entry.is_indexed() && is_one_value;
        }
    }
    false
}

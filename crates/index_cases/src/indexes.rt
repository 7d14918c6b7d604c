//! Operations that make an index over a device, change it and end it: `create`, `open`, `add`, `add-value`, `delete`,
//! `commit`, `merge`, `state`, `counts` and `close`.

use crate::answers::{json_in, ok};
use crate::cases::{CaseIndex, Cases};
use common::RawAndDefault;
use definitions::Fault;
use index::{Index, Settings, Status};
use schema::Schema;
use serde_json::Value as Json;
use std::alloc::Global;

impl Cases {
    /// The answer, if this is such an operation.
    pub(crate) fn answer_of_index(
        &mut self,
        operation: &str,
        arguments: &str,
    ) -> Result<Option<String>, Fault> {
        match operation {
            "create" => self.create(arguments)?,
            "open" => self.open()?,
            "add" => self.add(arguments)?,
            "add-value" => self.add_value(arguments)?,
            "delete" => self.delete(arguments)?,
            "commit" => self.commit()?,
            "merge" => self.merge(arguments)?,
            "state" => return Ok(Some(self.state()?)),
            "counts" => return Ok(Some(self.counts()?)),
            "close" => self.close()?,
            _ => return Ok(None),
        }
        Ok(Some(ok(self.alloc)?))
    }

    /// The index that stands.
    pub(crate) fn standing(&self) -> Result<&CaseIndex, Fault> {
        match &self.index {
            Some(index) => Ok(index),
            None => Err(Fault::NotOpen),
        }
    }

    /// The index that stands, to be changed.
    pub(crate) fn standing_mut(&mut self) -> Result<&mut CaseIndex, Fault> {
        match &mut self.index {
            Some(index) => Ok(index),
            None => Err(Fault::NotOpen),
        }
    }

    /// Makes an index of the schema and the settings in an object.
    fn create(&mut self, text: &str) -> Result<(), Fault> {
        self.index = None;
        let (schema, settings) = making_in(self.alloc, text)?;
        let device = self.device()?;
        self.index = Some(Index::create(self.alloc, device, RawAndDefault, schema, settings)?);
        Ok(())
    }

    /// Opens the index of the file.
    fn open(&mut self) -> Result<(), Fault> {
        self.index = None;
        let device = self.device()?;
        self.index = Some(Index::open(self.alloc, device, RawAndDefault)?);
        Ok(())
    }

    /// Adds a document as a text.
    fn add(&mut self, text: &str) -> Result<(), Fault> {
        self.standing_mut()?.add_json(text)
    }

    /// Deletes the documents with a term, which is read by the schema of the index.
    fn delete(&mut self, text: &str) -> Result<(), Fault> {
        let term = self.term_in(text)?;
        self.standing_mut()?.delete_term(&term)
    }

    /// Commits what waits.
    fn commit(&mut self) -> Result<(), Fault> {
        self.standing_mut()?.commit()
    }

    /// Makes one segment of those of a range, given by its two ends.
    fn merge(&mut self, arguments: &str) -> Result<(), Fault> {
        let (from, to) = arguments.split_once(' ').ok_or(Fault::BadRequest)?;
        let (Ok(from), Ok(to)) = (from.parse::<usize>(), to.parse::<usize>()) else {
            return Err(Fault::BadRequest);
        };
        self.standing_mut()?.merge(from..to)
    }

    /// How many segments and how many documents are committed.
    fn counts(&self) -> Result<String, Fault> {
        let index = self.standing()?;
        Ok(format!(in self.alloc; "{} {}", index.num_segments(), index.num_docs())?)
    }

    /// Adds a document as a value that was read.
    fn add_value(&mut self, text: &str) -> Result<(), Fault> {
        let value = json_in(self.alloc, text)?;
        self.standing_mut()?.add_value(&value)
    }

    /// What the index may still do.
    fn state(&self) -> Result<String, Fault> {
        let state = match self.standing()?.state() {
            Status::Ready => "Ready",
            Status::WriterClosed => "WriterClosed",
            Status::Closed => "Closed",
        };
        Ok(String::from_str(self.alloc, state)?)
    }

    /// Ends the index; what its device holds is the file from now on.
    fn close(&mut self) -> Result<(), Fault> {
        let Some(index) = self.index.take() else {
            return Err(Fault::NotOpen);
        };
        let (device, _analyzer) = index.into_device();
        self.keep(device)
    }
}

/// The schema and the settings in an object; the defaults where it has no settings.
fn making_in(alloc: Global, text: &str) -> Result<(Schema, Settings), Fault> {
    let json = json_in(alloc, text)?;
    let Some(schema) = json.get("schema") else {
        return Err(Fault::BadRequest);
    };
    let schema = Schema::from_json_value(alloc, schema)?;
    let settings = settings_in(alloc, &schema, &json)?;
    Ok((schema, settings))
}

/// The settings in an object, or the defaults.
fn settings_in(alloc: Global, schema: &Schema, json: &Json) -> Result<Settings, Fault> {
    match json.get("settings") {
        Some(settings) => Settings::from_json_value(alloc, schema, settings),
        None => Ok(Settings::default(alloc)?),
    }
}

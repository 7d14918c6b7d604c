//! Operations that make an index, open it again and change it.

use crate::case_histories::{CaseDevice, CaseIndex, Histories};
use case_lines::{Arguments, Refusal, document_of_values, flag, number, term_in};
use common::{FuseDevice, MemoryDevice, RawAndDefault};
use definitions::Fault;
use engine::Refused;
use histories::calls;
use schema::Schema;
use serde_json::Value;
use settings::Settings;

/// An index that was made or opened, or why not.
type Made = Result<CaseIndex, Refused<CaseDevice, RawAndDefault>>;

impl Histories {
    /// Keeps the schema of the indexes that are made.
    pub(crate) fn make_schema(&mut self, arguments: &Arguments) -> Result<Value, Refusal> {
        let json = arguments.value(0)?;
        let schema = Schema::from_json_value(self.alloc, json)?;
        self.schema = json.clone()?;
        Ok(number(schema.num_fields() as u64))
    }

    /// Makes an index of the schema and of settings, over a device of its own.
    pub(crate) fn create(&mut self, arguments: &Arguments) -> Result<Value, Refusal> {
        self.put_new(arguments.value(0)?, u64::MAX)?;
        Ok(flag(true))
    }

    /// Makes an index of the schema and of settings, over the device that stands.
    pub(crate) fn create_here(&mut self, arguments: &Arguments) -> Result<Value, Refusal> {
        let configuration = self.configuration(arguments.value(0)?)?;
        let device = self.take_device()?;
        self.put_created(device, u64::MAX, configuration)?;
        Ok(flag(true))
    }

    /// Opens the file of the index that stands; what waits is lost.
    pub(crate) fn open(&mut self) -> Result<Value, Refusal> {
        let device = self.take_device()?;
        self.put_opened(device, u64::MAX)?;
        Ok(flag(true))
    }

    /// Adds the document in an object.
    pub(crate) fn add(&mut self, arguments: &Arguments) -> Result<Value, Refusal> {
        calls::add_value(self.standing_mut()?, arguments.value(0)?)?;
        Ok(flag(true))
    }

    /// Adds the document in a text.
    pub(crate) fn add_text(&mut self, arguments: &Arguments) -> Result<Value, Refusal> {
        calls::add_json(self.standing_mut()?, arguments.text(0)?)?;
        Ok(flag(true))
    }

    /// Adds the values of fields, by their numbers.
    pub(crate) fn add_values(&mut self, arguments: &Arguments) -> Result<Value, Refusal> {
        let doc = document_of_values(self.alloc, arguments.list(0)?)?;
        calls::add_document(self.standing_mut()?, &doc)?;
        Ok(flag(true))
    }

    /// Deletes the documents with a term.
    pub(crate) fn delete(&mut self, arguments: &Arguments) -> Result<Value, Refusal> {
        let term = term_in(self.alloc, arguments.value(0)?)?;
        calls::delete_term(self.standing_mut()?, &term)?;
        Ok(flag(true))
    }

    /// Commits what waits.
    pub(crate) fn commit(&mut self) -> Result<Value, Refusal> {
        calls::commit(self.standing_mut()?)?;
        Ok(flag(true))
    }

    /// Merges the committed segments of a range, given by its two ends.
    pub(crate) fn merge(&mut self, arguments: &Arguments) -> Result<Value, Refusal> {
        let from = arguments.number(0)? as usize;
        let to = arguments.number(1)? as usize;
        calls::merge(self.standing_mut()?, from..to)?;
        Ok(flag(true))
    }

    /// Lets an index of settings stand over a device of its own, under a fuse that blows at the k-th call.
    pub(crate) fn put_new(&mut self, settings: &Value, k: u64) -> Result<(), Fault> {
        self.index = None;
        self.device = None;
        let configuration = self.configuration(settings)?;
        self.put_created(MemoryDevice::new(self.alloc), k, configuration)
    }

    /// Reads the schema that was kept, and settings.
    fn configuration(&self, settings: &Value) -> Result<(Schema, Settings), Fault> {
        let schema = Schema::from_json_value(self.alloc, &self.schema)?;
        let settings = Settings::from_json_value(self.alloc, &schema, settings)?;
        Ok((schema, settings))
    }

    /// Makes an index over a device, under a fuse that blows at the k-th call, and lets it stand.
    fn put_created(
        &mut self,
        device: MemoryDevice,
        k: u64,
        configuration: (Schema, Settings),
    ) -> Result<(), Fault> {
        let fused = FuseDevice::new(device, k);
        let (schema, settings) = configuration;
        self.put(calls::create(self.alloc, fused, RawAndDefault, schema, settings))
    }

    /// Lets the index of a device's file stand, over a fuse that blows at the k-th call.
    pub(crate) fn put_opened(&mut self, device: MemoryDevice, k: u64) -> Result<(), Fault> {
        let fused = FuseDevice::new(device, k);
        self.put(calls::open(self.alloc, fused, RawAndDefault))
    }

    /// Lets a device stand whose file isn't opened.
    pub(crate) fn put_closed(&mut self, device: MemoryDevice) {
        self.device = Some(FuseDevice::new(device, u64::MAX));
    }

    /// Lets an index stand that was made or opened; of one that wasn't, the device is kept.
    fn put(&mut self, made: Made) -> Result<(), Fault> {
        match made {
            Ok(index) => {
                self.index = Some(index);
                Ok(())
            }
            Err(refused) => {
                let Refused { fault, device, .. } = refused;
                self.device = Some(device);
                Err(fault)
            }
        }
    }
}

//! What later lines are about.

ghost use Rattle.std.specs.Prelude.{◌≡◌, IfOk, length};
ghost use Rattle.segment.specs.Opened.{num_docs_of};

use crate::written_segments::written;
use bytes::Bytes;
use case_lines::{Arguments, Refusal, flag, number, settings_in};
use common::AliveBitSet;
use definitions::Fault;
use document::CompactDoc;
use schema::Schema;
use segment::Segment;
use serde_json::Value;
use settings::Settings;
use std::alloc::Global;

/// The size of the blocks of a segment's store.
const BLOCK_SIZE: usize = 16384;

/// How many blocks the caches of segments keep.
const CACHE_NUM_BLOCKS: usize = 2;

/// The schema and the settings that were given last, and the segment that was written last.
#[derive(Drop)]
pub struct Held {
    pub alloc: Global,
    pub schema: Schema,
    pub settings: Settings,
    /// The bytes of the segment.
    bytes: Vec<u8>,
    /// The documents of the segment that are dead.
    dead: Vec<u32>,
}

impl Held {
    /// No field, the settings where none are given, and no segment.
    pub fn empty(alloc: Global) -> Result<Held, Fault> {
        Ok(Held {
            alloc,
            schema: Schema::builder(alloc).build(),
            settings: Settings::default(alloc)?,
            bytes: Vec::new(alloc),
            dead: Vec::new(alloc),
        })
    }

    /// Holds what a line gives: `schema SCHEMA` answers the number of fields, `weights DEFAULT, WEIGHTS, NORMS` true, and
    /// `segment DOCUMENTS, DEAD` the number of documents.
    pub fn hold(&mut self, operation: &str, arguments: &Arguments) -> Result<Value, Refusal> {
        let alloc = self.alloc;
        match operation {
            "schema" => {
                self.schema = Schema::from_json_value(alloc, arguments.value(0)?)?;
                Ok(number(self.schema.num_fields() as u64))
            }
            "weights" => {
                self.settings = settings_in(alloc, arguments)?;
                Ok(flag(true))
            }
            "segment" => {
                let documents = arguments.list(0)?;
                self.bytes = self.written(documents)?;
                self.dead = arguments.numbers(alloc, 1)?;
                Ok(number(documents.len() as u64))
            }
            _ => Err(Refusal::NotAsked),
        }
    }

    /// The bytes of the segment of documents that are objects.
    fn written(&self, list: &[Value]) -> Result<Vec<u8>, Refusal> {
        let mut documents = Vec::with_capacity(self.alloc, list.len())?;
        for object in list {
            let document = CompactDoc::from_json_object(self.alloc, &self.schema, object)?;
            documents.push((document, 1))?;
        }
        written(self.alloc, &self.schema, &documents, BLOCK_SIZE)
    }

    /// Opens the segment.
    pub fn segment(&self) -> Result<Segment, Fault> {
        let bytes = Bytes::copy_from_slice(self.alloc, &self.bytes)?;
        Segment::open(self.alloc, &self.schema, bytes, CACHE_NUM_BLOCKS)
    }

    /// The alive set of the segment: the documents that its line lists are dead.
    pub fn alive(&self, segment: &Segment) -> Result<AliveBitSet, Refusal>
        ensures { IfOk result (λ alive. length alive ≡ num_docs_of segment.now) }
    {
        let num_docs = segment.num_docs();
        let mut alive = AliveBitSet::for_max_doc(self.alloc, num_docs)?;
        for doc in &self.dead {
            if *doc >= num_docs {
                return Err(Refusal::NotAsked);
            }
            alive.kill(*doc);
        }
        Ok(alive)
    }
}

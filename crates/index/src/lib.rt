//! Requests to an index as lines of JSON: their forms, the replies, and the run over the lines of an input.
#![tactic(auto)]

mod answers;
mod exit_status;
pub mod line_laws;
mod requests;
mod session;
mod session_run;
mod stage;

pub use common::{
    Analyzer, Device, FileDevice, FuseDevice, MemoryDevice, PreTokenizedString, RawAndDefault,
    RunFault, Token,
};
pub use definitions::Fault;
pub use document::{CompactDoc, NamedDocument};
pub use document_values::OwnedValue;
pub use engine::{Hit, Index, Refused, Status, StoredHit, file_laws};
pub use exit_status::status_of;
pub use query_checks::read_query;
pub use query_trees::{
    AllQuery, AnyQuery, BooleanQuery, BoostQuery, ConstScoreQuery, DisjunctionMaxQuery, EmptyQuery,
    Occur, PhrasePrefixQuery, PhraseQuery, TermQuery,
};
pub use schema::{
    BytesOptions, COERCE, CoerceFlag, DateOptions, DateTime, FAST, Facet, FacetOptions, FastFlag,
    Field, INDEXED, IndexRecordOption, IndexedFlag, IpAddrOptions, JsonObjectOptions,
    NumericOptions, STORED, STRING, Schema, SchemaBuilder, SchemaFlagList, StoredFlag, TEXT, Term,
    TextFieldIndexing, TextOptions,
};
pub use session::Session;
pub use session_run::{reply, run, run_session};
pub use settings::{Settings, read_term};

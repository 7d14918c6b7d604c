//! A session: lines of JSON that make requests to the index of a device.

ghost use Rattle.std.specs.Prelude.{IfErr, IfOk, IsErrOf, IsTrue, None, Some, false, is_some, option_map, true, ◌≡◌, ◌≢◌, ◌≤◌};
ghost use Rattle.definitions.specs.Calls as calls;
ghost use Rattle.definitions.specs.Disk.{HasCause};
ghost use Rattle.definitions.specs.Requests as requests;
ghost use Rattle.definitions.specs.Step as steps;
ghost use Rattle.definitions.specs.declared.fault.Fault.TheVariants as faults;
ghost use Rattle.index.specs.AskedRequests.{index_request_of, request_of};
ghost use Rattle.index.specs.Replying.{IsUnwritten};
ghost use Rattle.engine.specs.Indexes.{IndexStands, IsInFile, analyzer_of, device_of, schema_of, settings_of};
ghost use Rattle.definitions.specs.Replying.{stops};
ghost use Rattle.serde_json.specs.View.{view};

use crate::answers::{answer, answer_change, refusal};
use crate::requests::{IndexRequest, Request, read_making, request_in};
use crate::stage::Stage;
use common::{Analyzer, Device};
use definitions::Fault;
use engine::{Index, parse_json};
use schema::Schema;
use serde_json::Value as Json;
use serve_lines::Service;
use settings::Settings;
use std::alloc::Global;
use std::borrow::CowStr;

/// A session: a device, with its index once one is created or opened, to which requests are made line by line.
#[derive(Drop)]
pub struct Session<D: Device, A: Analyzer> {
    pub(crate) alloc: Global,
    /// Taken out only while an index is made or opened.
    stage: Option<Stage<D, A>>,
    ghost full: { is_some stage ≡ true },
}

impl<D: Device + Drop, A: Analyzer + Drop> Session<D, A> {
    ghost use Rattle.index.specs.Outcomes.{index_in};
    ghost use Rattle.index.specs.Sessions.{HasHeld, IsKnown, IsSpare, StandsFor, analysis_of, parts_of, session_of, session_on};

    /// Returns a session over `device`, in which no index is created or opened yet.
    pub fn new(alloc: Global, device: D, analyzer: A) -> Session<D, A>
        ensures stands { (held : steps.Held) → HasHeld D.honest D.content (A.analyze analyzer) device held
            → StandsFor result (session_on (analysis_of A.knows_name A.analyze analyzer) held) }
        ensures parts { parts_of result ≡ Some (device, analyzer) }
        ensures index { index_in result ≡ None }
    {
        Session {
            alloc,
            stage: Some(Stage::Spare(device, analyzer)),
        }
    }

    /// Returns a session with `index`.
    pub fn with_index(index: Index<D, A>) -> Session<D, A>
        ensures stands { (x : calls.Index)
            → IndexStands A.analyze index
            (steps.configuration_of (schema_of index) (A.analyze (analyzer_of index)) (settings_of index)) x
            → IsInFile index x
            → IsKnown D.honest D.content (A.analyze (analyzer_of index)) (device_of index) (schema_of index)
            (settings_of index) x
            → StandsFor result (session_of (analysis_of A.knows_name A.analyze (analyzer_of index))
            (schema_of index) (settings_of index) x) }
        ensures parts { parts_of result ≡ Some (device_of index, analyzer_of index) }
        ensures index { index_in result ≡ Some index }
    {
        Session {
            alloc: index.alloc(),
            stage: Some(Stage::Standing(index)),
        }
    }

    /// Returns the index, with what is pending; or the session, where it has none.
    pub fn into_index(self) -> Result<Index<D, A>, Session<D, A>>
        ensures index { IfOk result (λ index. index_in self ≡ Some index) }
        ensures none { IfErr result (λ session. (index_in self ≡ None) × (parts_of session ≡ parts_of self)) }
    {
        let Session { alloc, stage, .. } = self;
        match stage {
            Some(Stage::Standing(index)) => Ok(index),
            Some(Stage::Spare(device, analyzer)) => Err(Session::new(alloc, device, analyzer)),
            None => unreachable!(),
        }
    }

    /// Returns the device and the analyzer, with an index or without; what is pending is dropped.
    pub fn into_device(self) -> (D, A)
        ensures parts { parts_of self ≡ Some result }
        // An honest device holds what is committed, so a session over it answers alike, once its index is open.
        ensures held { (s : steps.Session) → StandsFor self s → IsTrue (D.honest result.0)
            → IsSpare D.honest D.content A.knows_name A.analyze s.analysis result.0 result.1 (steps.held_by s.stage) }
    {
        let Session { stage, .. } = self;
        let Some(stage) = stage else {
            unreachable!();
        };
        stage.into_device()
    }
}

impl<D: Device + Drop, A: Analyzer + Drop> Service for Session<D, A> {
    ghost use Rattle.index.specs.Replied.{IsReplied};

    ghost replies = { IsReplied };

    fn reply(&mut self, line: &str) -> Result<CowStr<'static>, Fault> {
        self.answer_line(line)
    }
}

impl<D: Device + Drop, A: Analyzer + Drop> Session<D, A> {
    ghost use Rattle.index.specs.Asking.{AsksOf, CreatesOf, OpensOf};
    ghost use Rattle.index.specs.Outcomes.{BothStand, ComesTo, IsMade, IsRead, takes_in};
    ghost use Rattle.index.specs.Sessions.{KeepsDeviceOf, LeavesStage, Replies, StandsFor, analyzer_on, device_on, failures_of, honest_of};

    /// Answers the request in `line`.
    pub(crate) fn answer_line(&mut self, line: &str) -> Result<CowStr<'static>, Fault>
        ensures answered { (s : steps.Session) → StandsFor self.old s
            → Replies self.old self.new s (steps.line_request line.now) result }
        ensures honest { honest_of self.new ≡ honest_of self.old }
        ensures later { failures_of self.old ≤ failures_of self.new }
        ensures err { IfErr result (λ fault. IsTrue (stops fault)) }
        ensures kept { IsTrue (honest_of self.old)
            → IsUnwritten (steps.line_request line.now) result
            → KeepsDeviceOf self.old self.new }
        ensures asks { IsTrue (honest_of self.old)
            → AsksOf A.knows_name A.analyze self.old.stage self.new.stage
            (steps.line_request line.now) }
        ensures comes { ComesTo A.knows_name A.analyze self.old.stage self.new.stage
            (steps.line_request line.now) result }
    {
        match parse_json(self.alloc, line)? {
            Some(json) => self.answer_value(&json),
            None => Ok(CowStr::Borrowed(Fault::BadRequest.reply())),
        }
    }

    /// Answers the request in a JSON value.
    fn answer_value(&mut self, json: &Json) -> Result<CowStr<'static>, Fault>
        ensures answered { (s : steps.Session) → StandsFor self.old s
            → Replies self.old self.new s (requests.request_in (view json.now)) result }
        ensures honest { honest_of self.new ≡ honest_of self.old }
        ensures later { failures_of self.old ≤ failures_of self.new }
        ensures err { IfErr result (λ fault. IsTrue (stops fault)) }
        ensures kept { IsTrue (honest_of self.old)
            → IsUnwritten (requests.request_in (view json.now)) result
            → KeepsDeviceOf self.old self.new }
        ensures asks { IsTrue (honest_of self.old)
            → AsksOf A.knows_name A.analyze self.old.stage self.new.stage
            (requests.request_in (view json.now)) }
        ensures comes { ComesTo A.knows_name A.analyze self.old.stage self.new.stage
            (requests.request_in (view json.now)) result }
    {
        match request_in(json) {
            Some(request) => self.answer(request),
            None => Ok(CowStr::Borrowed(Fault::BadRequest.reply())),
        }
    }

    /// Answers `request`.
    fn answer(&mut self, request: Request<'_>) -> Result<CowStr<'static>, Fault>
        ensures answered { (s : steps.Session) → StandsFor self.old s
            → Replies self.old self.new s (Some (request_of request.entry)) result }
        ensures honest { honest_of self.new ≡ honest_of self.old }
        ensures later { failures_of self.old ≤ failures_of self.new }
        ensures err { IfErr result (λ fault. IsTrue (stops fault)) }
        ensures kept { IsTrue (honest_of self.old)
            → IsUnwritten (Some (request_of request.entry)) result
            → KeepsDeviceOf self.old self.new }
        ensures asks { IsTrue (honest_of self.old)
            → AsksOf A.knows_name A.analyze self.old.stage self.new.stage
            (Some (request_of request.entry)) }
        ensures comes { ComesTo A.knows_name A.analyze self.old.stage self.new.stage
            (Some (request_of request.entry)) result }
    {
        match request {
            Request::Create(schema, settings) => self.create(schema, settings),
            Request::Open => self.open(),
            Request::Index(request) => self.ask(request),
        }
    }

    /// Creates an index, unless one is ready.
    fn create(&mut self, schema: &Json, settings: Option<&Json>) -> Result<CowStr<'static>, Fault>
        ensures answered { (s : steps.Session) → StandsFor self.old s
            → Replies self.old self.new s
            (Some (requests.create_index (view schema.now) (option_map (λ d. view d.now) settings.entry))) result }
        ensures honest { honest_of self.new ≡ honest_of self.old }
        ensures later { failures_of self.old ≤ failures_of self.new }
        ensures err { IfErr result (λ fault. IsTrue (stops fault)) }
        ensures kept { IsTrue (honest_of self.old)
            → IsUnwritten
            (Some (requests.create_index (view schema.now) (option_map (λ d. view d.now) settings.entry))) result
            → KeepsDeviceOf self.old self.new }
        ensures asks { IsTrue (honest_of self.old)
            → AsksOf A.knows_name A.analyze self.old.stage self.new.stage
            (Some (requests.create_index (view schema.now) (option_map (λ d. view d.now) settings.entry))) }
        ensures comes { ComesTo A.knows_name A.analyze self.old.stage self.new.stage
            (Some (requests.create_index (view schema.now) (option_map (λ d. view d.now) settings.entry))) result }
    {
        if self.has_ready_index() {
            return Ok(CowStr::Borrowed(Fault::AlreadyOpen.reply()));
        }
        match read_making(self.alloc, schema, settings) {
            Ok((schema, settings)) => answer_change(self.make(schema, settings)),
            Err(fault) => refusal(fault),
        }
    }

    /// Opens the index of the device's file, unless one is ready.
    fn open(&mut self) -> Result<CowStr<'static>, Fault>
        ensures answered { (s : steps.Session) → StandsFor self.old s
            → Replies self.old self.new s (Some requests.open_index) result }
        ensures honest { honest_of self.new ≡ honest_of self.old }
        ensures later { failures_of self.old ≤ failures_of self.new }
        ensures err { IfErr result (λ fault. IsTrue (stops fault)) }
        ensures kept { IsTrue (honest_of self.old)
            → IsUnwritten (Some requests.open_index) result
            → KeepsDeviceOf self.old self.new }
        ensures asks { IsTrue (honest_of self.old)
            → AsksOf A.knows_name A.analyze self.old.stage self.new.stage
            (Some requests.open_index) }
        ensures comes { ComesTo A.knows_name A.analyze self.old.stage self.new.stage
            (Some requests.open_index) result }
    {
        if self.has_ready_index() {
            return Ok(CowStr::Borrowed(Fault::AlreadyOpen.reply()));
        }
        answer_change(self.reopen())
    }

    /// Answers a request to the session's index.
    fn ask(&mut self, request: IndexRequest<'_>) -> Result<CowStr<'static>, Fault>
        ensures answered { (s : steps.Session) → StandsFor self.old s
            → Replies self.old self.new s (Some (index_request_of request.entry)) result }
        ensures honest { honest_of self.new ≡ honest_of self.old }
        ensures later { failures_of self.old ≤ failures_of self.new }
        ensures err { IfErr result (λ fault. IsTrue (stops fault)) }
        ensures kept { IsTrue (honest_of self.old)
            → IsUnwritten (Some (index_request_of request.entry)) result
            → KeepsDeviceOf self.old self.new }
        ensures asks { IsTrue (honest_of self.old)
            → AsksOf A.knows_name A.analyze self.old.stage self.new.stage
            (Some (index_request_of request.entry)) }
        ensures comes { ComesTo A.knows_name A.analyze self.old.stage self.new.stage
            (Some (index_request_of request.entry)) result }
    {
        match &mut self.stage {
            Some(Stage::Standing(index)) => answer(index, request),
            Some(Stage::Spare(_, _)) => Ok(CowStr::Borrowed(Fault::NotOpen.reply())),
            None => unreachable!(),
        }
    }

    /// Creates an index of `schema` and `settings`, in place of the session's index, if any.
    fn make(&mut self, schema: Schema, settings: Settings) -> Result<(), Fault>
        ensures left { (s : steps.Session) → StandsFor self.old s → steps.is_ready s.stage ≡ false
            → LeavesStage A.knows_name A.analyze s.analysis (steps.held_by s.stage) self.new.stage result
            (steps.created s.analysis.knows schema settings (steps.held_by s.stage)) }
        ensures honest { honest_of self.new ≡ honest_of self.old }
        ensures failures { HasCause (failures_of self.old) (failures_of self.new) result }
        ensures limit { ¬ IsErrOf result faults.Limit }
        ensures kept { IsTrue (honest_of self.old)
            → IfErr result (λ fault. fault ≢ faults.Device → KeepsDeviceOf self.old self.new) }
        ensures creates { IsTrue (honest_of self.old) → CreatesOf self.old.stage self.new.stage }
        ensures made { BothStand (λ old new. IsMade A.knows_name A.analyze (device_on old) (analyzer_on old)
            schema settings (new, result)) self.old.stage self.new.stage }
    {
        let Some(stage) = self.stage.take() else {
            unreachable!();
        };
        let (stage, change) = stage.create(self.alloc, schema, settings);
        self.stage = Some(stage);
        change
    }

    /// Opens the index of the device's file, in place of the session's index, if any.
    fn reopen(&mut self) -> Result<(), Fault>
        ensures left { (s : steps.Session) → StandsFor self.old s → steps.is_ready s.stage ≡ false
            → LeavesStage A.knows_name A.analyze s.analysis (steps.held_by s.stage) self.new.stage result
            (steps.opened s.analysis.knows (steps.held_by s.stage)) }
        ensures honest { honest_of self.new ≡ honest_of self.old }
        ensures failures { HasCause (failures_of self.old) (failures_of self.new) result }
        ensures limit { (s : steps.Session) → StandsFor self.old s → steps.is_ready s.stage ≡ false
            → ¬ IsErrOf result faults.Limit }
        ensures kept { IsTrue (honest_of self.old)
            → IfErr result (λ fault. fault ≢ faults.Device → KeepsDeviceOf self.old self.new) }
        ensures opens { IsTrue (honest_of self.old) → OpensOf self.old.stage self.new.stage }
        ensures read { BothStand (λ old new. IsRead A.knows_name A.analyze (device_on old) (analyzer_on old)
            (new, result)) self.old.stage self.new.stage }
    {
        let Some(stage) = self.stage.take() else {
            unreachable!();
        };
        let (stage, change) = stage.open(self.alloc);
        self.stage = Some(stage);
        change
    }

    /// Returns whether the session has an index that accepts every call.
    fn has_ready_index(&self) -> bool
        ensures stands { (s : steps.Session) → StandsFor self.now s → result ≡ steps.is_ready s.stage }
        ensures any { result ≡ takes_in self.now.stage }
    {
        match &self.stage {
            Some(stage) => stage.is_ready(),
            None => false,
        }
    }
}

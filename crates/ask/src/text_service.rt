//! The service of lines that also answers texts.

ghost use Rattle.ask.specs.Served.{IsAnswered};

use crate::further_request::{further_request, is_further, may_be_further};
use definitions::Fault;
use engine::parse_json;
use index::{Analyzer, Device, Session};
use serde_json::Value as Json;
use serve_lines::Service;
use std::alloc::Global;
use std::borrow::CowStr;

/// A session that also answers lines `ask`, by a text that a person writes, and `segments`, which tells what stands.
#[derive(Drop)]
pub struct TextService<D: Device, A: Analyzer> {
    alloc: Global,
    /// Taken out only while such a line is answered.
    session: Option<Session<D, A>>,
}

impl<D: Device + Drop, A: Analyzer + Drop> TextService<D, A> {
    /// Returns the service over `device`, in which no index is created or opened yet.
    pub fn new(alloc: Global, device: D, analyzer: A) -> TextService<D, A> {
        TextService {
            alloc,
            session: Some(Session::new(alloc, device, analyzer)),
        }
    }

    /// Answers a request of the session.
    fn answer_by_session(&mut self, line: &str) -> Result<CowStr<'static>, Fault>
        ensures { IsAnswered self.old self.new line.now result }
    {
        match &mut self.session {
            Some(session) => index::reply(session, line),
            None => Ok(CowStr::Borrowed(Fault::NotOpen.reply())),
        }
    }

    /// Answers the request in `json` that isn't one of an index's, by the index where there is one.
    fn answer_by_index(&mut self, json: &Json) -> Result<CowStr<'static>, Fault> {
        let Some(session) = self.session.take() else {
            return Ok(CowStr::Borrowed(Fault::NotOpen.reply()));
        };
        match session.into_index() {
            Ok(mut index) => {
                let reply = further_request(json).answer(self.alloc, &mut index);
                self.session = Some(Session::with_index(index));
                reply
            }
            Err(session) => {
                self.session = Some(session);
                Ok(CowStr::Borrowed(Fault::NotOpen.reply()))
            }
        }
    }
}

impl<D: Device + Drop, A: Analyzer + Drop> Service for TextService<D, A> {
    ghost use Rattle.ask.specs.Served.{IsServed};

    ghost replies = { IsServed };

    fn reply(&mut self, line: &str) -> Result<CowStr<'static>, Fault> {
        if !may_be_further(line) {
            return self.answer_by_session(line);
        }
        match parse_json(self.alloc, line)? {
            Some(json) if is_further(&json) => self.answer_by_index(&json),
            _ => self.answer_by_session(line),
        }
    }
}

//! The requests beside those of an index.

ghost use Rattle.std.specs.Prelude.{◌≡◌};
ghost use Rattle.ask.specs.Served as definitions;

use crate::question::Question;
use crate::text_replies::answer_line;
use definitions::Fault;
use index::{Analyzer, Device, Index};
use memchr::memmem;
use query_text::FieldScores;
use schema::{flag_or, has_only, number_at, text_at};
use serde_json::Value as Json;
use std::alloc::Global;
use std::borrow::CowStr;

/// A request beside those of an index.
#[derive(Clone, Copy, Debug)]
pub(crate) enum FurtherRequest<'a> {
    /// The best documents that a text finds.
    Ask {
        question: Question<'a>,
        start: u64,
        k: u64,
    },
    /// What stands in the index.
    Segments,
    /// A request of another form.
    Bad,
}

/// Whether a line may ask for something beside what an index is asked: it has the name of such a request.
pub(crate) fn may_be_further(line: &str) -> bool
    ensures { result ≡ definitions.may_be_further line.now }
{
    has_text(line, b"\"ask\"") || has_text(line, b"\"segments\"")
}

/// Whether `text` stands in `line`.
fn has_text(line: &str, text: &[u8]) -> bool
    ensures { result ≡ definitions.has_text line.now text.now }
{
    memmem::find(line.as_bytes(), text).is_some()
}

/// Whether `json` asks for something beside what an index is asked.
pub(crate) fn is_further(json: &Json) -> bool {
    matches!(text_at(json, "op"), Some("ask" | "segments"))
}

/// Reads a request beside those of an index.
pub(crate) fn further_request(json: &Json) -> FurtherRequest<'_> {
    let request = match text_at(json, "op") {
        Some("ask") => ask_in(json),
        Some("segments") if has_only(json, &["op"]) => Some(FurtherRequest::Segments),
        _ => None,
    };
    request.unwrap_or(FurtherRequest::Bad)
}

/// Reads the request of a text, whose best ten documents are asked for where nothing else is said.
fn ask_in(json: &Json) -> Option<FurtherRequest<'_>> {
    if !has_only(json, &["op", "text", "k", "from", "flat", "best_field"]) {
        return None;
    }
    let field_scores = if flag_or(json, "best_field", false)? {
        FieldScores::Best
    } else {
        FieldScores::Sum
    };
    Some(FurtherRequest::Ask {
        question: Question {
            text: text_at(json, "text")?,
            flat: flag_or(json, "flat", false)?,
            field_scores,
        },
        start: number_or(json, "from", 0)?,
        k: number_or(json, "k", 10)?,
    })
}

/// Returns the number at `key`; `absent` where the key is absent.
fn number_or(json: &Json, key: &str, absent: u64) -> Option<u64> {
    match json.get(key) {
        Some(_) => number_at(json, key),
        None => Some(absent),
    }
}

impl<'a> FurtherRequest<'a> {
    /// Answers it by `index`.
    pub(crate) fn answer<D: Device + Drop, A: Analyzer + Drop>(
        &self,
        alloc: Global,
        index: &mut Index<D, A>,
    ) -> Result<CowStr<'static>, Fault> {
        let answered = match self {
            FurtherRequest::Ask { question, start, k } => {
                answer_line(alloc, index, question, *start as usize, *k as usize)
            }
            FurtherRequest::Segments => segments_line(alloc, index),
            FurtherRequest::Bad => Err(Fault::BadRequest),
        };
        match answered {
            Ok(line) => Ok(CowStr::Owned(line)),
            Err(Fault::OutOfMemory) => Err(Fault::OutOfMemory),
            Err(fault) => Ok(CowStr::Borrowed(fault.reply())),
        }
    }
}

/// Returns the reply that tells how many documents and segments stand.
fn segments_line<D: Device + Drop, A: Analyzer + Drop>(
    alloc: Global,
    index: &Index<D, A>,
) -> Result<String, Fault> {
    index.check_open()?;
    let (docs, segments) = (index.num_docs(), index.num_segments());
    Ok(format!(in alloc; "{{\"docs\":{docs},\"segments\":{segments}}}")?)
}

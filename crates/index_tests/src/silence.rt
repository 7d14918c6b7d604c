//! An index whose analyzer finds no token: its documents stand, and no term is found.

use crate::silent_analyzer::Silent;
use common::MemoryDevice;
use index::run;
use std::alloc::Global;
use std::test::Fail;

// Documents with a title and without one, in two segments; queries; a merge and a deletion; the same queries.
const LINES: &str =
    r#"{"op":"create","schema":[{"name":"title","type":"text","options":{"stored":true,"indexing":{"record":"position","tokenizer":"silent"}}}]}
{"op":"add","doc":{"title":"the old sea"}}
{"op":"add","doc":{}}
{"op":"commit"}
{"op":"add","doc":{"title":["sea","wind"]}}
{"op":"commit"}
{"op":"search","k":9,"query":{"q":"all"}}
{"op":"count","query":{"q":"term","field":"title","value":"the old sea"}}
{"op":"count","query":{"q":"phrase_prefix","terms":[{"field":"title","value":"sea"},{"field":"title","value":""}]}}
{"op":"merge","from":0,"to":2}
{"op":"delete","term":{"field":"title","value":"sea"}}
{"op":"commit"}
{"op":"count","query":{"q":"all"}}
{"op":"count","query":{"q":"term","field":"title","value":"sea"}}
{"op":"count","query":{"q":"phrase","terms":[{"field":"title","value":"sea"},{"field":"title","value":"wind"}],"slop":9}}
"#;

const REPLIES: &str = r#"{"ok":true}
{"ok":true}
{"ok":true}
{"ok":true}
{"ok":true}
{"ok":true}
{"hits":[{"doc":{"title":["the old sea"]},"score":1},{"doc":{},"score":1},{"doc":{"title":["sea","wind"]},"score":1}]}
{"count":0}
{"count":0}
{"ok":true}
{"ok":true}
{"ok":true}
{"count":3}
{"count":0}
{"count":0}
"#;

// Whether the lines have these replies.
fn are_words_missed(alloc: Global) -> Result<bool, Fail> {
    let mut output = Vec::new(alloc);
    let device = MemoryDevice::new(alloc);
    run(alloc, &mut LINES.as_bytes(), &mut output, device, Silent)?;
    Ok(output.as_slice() == REPLIES.as_bytes())
}

#[test]
fn texts_without_tokens(rt: HostRuntime) -> Result<(), Fail> {
    assert!(rt; are_words_missed(rt.alloc())?);
    Ok(())
}

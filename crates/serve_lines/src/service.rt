//! Services that answer the lines.

ghost use Rattle.std.specs.Prelude.{ℕ, List, Result};
ghost use Rattle.std.specs.declared.alloc.Global.{Global};
ghost use Rattle.std.specs.declared.borrow.CowStr.{CowStr};
ghost use Rattle.definitions.specs.declared.fault.Fault.{Fault};

use definitions::Fault;
use std::borrow::CowStr;

/// A service that answers the lines of a run, one after the other.
pub trait Service {
    // What a reply does: from a service to the next one, to a text, and with what result.
    ghost replies: { Self → Self → List ℕ → Result (CowStr Global) Fault → Type 0 };

    /// Returns the reply to `line`.
    fn reply(&mut self, line: &str) -> Result<CowStr<'static>, Fault>
        ensures { replies self.old self.new line.now result };
}

//! Laws of lines: what a crash leaves at any moment of one, and what stands after a device failed in one.

ghost use Rattle.std.specs.Prelude.{◌≡◌, ◌⊎◌, Err, IsTrue, List, Result, Some, true, ℕ};
ghost use Rattle.std.specs.declared.alloc.Global.{Global};
ghost use Rattle.std.specs.declared.borrow.CowStr.{CowStr};
ghost use Rattle.definitions.specs.Analyzers.{Analyzer as Cut};
ghost use Rattle.definitions.specs.Calls as calls;
ghost use Rattle.definitions.specs.Requests.{open_index};
ghost use Rattle.definitions.specs.Schema.{Schema};
ghost use Rattle.definitions.specs.Settings.{Settings};
ghost use Rattle.definitions.specs.Step as steps;
ghost use Rattle.definitions.specs.Values.{Document};
ghost use Rattle.definitions.specs.declared.fault.Fault.{Fault};
ghost use Rattle.definitions.specs.declared.fault.Fault.TheVariants as faults;
ghost use Rattle.engine.specs.Files.{LeavesNone, LeavesOneOf};
ghost use Rattle.index.specs.Replied.{AreGiven, AreHeld, CrashLeaves, HasNoDocuments, IsReplied, LeavesOf};
ghost use Rattle.index.specs.Sessions.{MakesIndex, StandsFor, closed_session, honest_of, session_on};
ghost use Rattle.layouts.specs.RecordFiles.{IsOneOf};

use crate::session::Session;
use common::{Analyzer, Device};

/// States what a crash leaves at any moment of a line, from `old` to `new`, over an honest device. Where an index is
/// ready it is a file of what is committed before the line, or after it. Where a line opens an index, and what a crash
/// could leave before it was of one of two files, it is so at every moment.
pub fn a_crash_inside_a_line_leaves_one_of_two<D: Device, A: Analyzer>(
    old: &Session<D, A>,
    new: &Session<D, A>,
)
    ensures ready { (s : steps.Session) (schema : Schema) (settings : Settings) (x : calls.Index) (line image : List ℕ)
        (result : Result (CowStr Global) Fault)
        → IsTrue (honest_of old.now) → StandsFor old.now s → s.stage ≡ steps.index_of schema settings x
        → x.status ≡ calls.ready
        → IsReplied old.now new.now line result → CrashLeaves old.now new.now image
        → AreHeld s.analysis.analyze (steps.held_by s.stage) image
        ⊎ AreHeld s.analysis.analyze (steps.held_by (steps.after_line s line).stage) image }
    ensures open { (one other : List (List ℕ)) (line image : List ℕ) (result : Result (CowStr Global) Fault)
        → IsTrue (honest_of old.now) → LeavesOf old.now (IsOneOf one other)
        → steps.line_request line ≡ Some open_index
        → IsReplied old.now new.now line result → CrashLeaves old.now new.now image → IsOneOf one other image }
{}

/// States the same by lists. Where an index is ready, and every record of each image that a crash could leave before the
/// line gives its list, the last one what is committed, each image is so, or the last list is what is committed after
/// the line. Where a line makes or opens an index, and each image had one of two last lists, or was no index or had the
/// empty list, it stays so.
pub fn a_crash_inside_a_line_leaves_one_of_two_lists<D: Device, A: Analyzer>(
    old: &Session<D, A>,
    new: &Session<D, A>,
)
    ensures ready { (s : steps.Session) (line image : List ℕ) (result : Result (CowStr Global) Fault)
        → IsTrue (honest_of old.now) → StandsFor old.now s → steps.is_ready s.stage ≡ true
        → LeavesOf old.now (AreGiven s.analysis.analyze (steps.held_by s.stage))
        → IsReplied old.now new.now line result → CrashLeaves old.now new.now image
        → AreGiven s.analysis.analyze (steps.held_by s.stage) image
        ⊎ AreGiven s.analysis.analyze (steps.held_by (steps.after_line s line).stage) image }
    ensures one_of { (schema : Schema) (settings : Settings) (cut : Cut) (one other : List (List Document))
        (line image : List ℕ) (result : Result (CowStr Global) Fault)
        → IsTrue (honest_of old.now) → LeavesOf old.now (LeavesOneOf schema settings cut one other)
        → MakesIndex (steps.line_request line)
        → IsReplied old.now new.now line result → CrashLeaves old.now new.now image
        → LeavesOneOf schema settings cut one other image }
    ensures none { (cut : Cut) (line image : List ℕ) (result : Result (CowStr Global) Fault)
        → IsTrue (honest_of old.now) → LeavesOf old.now (LeavesNone cut) → MakesIndex (steps.line_request line)
        → IsReplied old.now new.now line result → CrashLeaves old.now new.now image → LeavesNone cut image }
{}

/// States what stands after a line that is answered `Device`, from `old` to `new`, over an honest device. A ready index
/// is closed. Where an index was to be made or opened, none stands. The session is over the one or the other of two
/// lists, or over no documents, if each image that a crash could leave before had one of these; and each has one still.
/// So an opening that is `Ok` then finds the one or the other.
pub fn a_device_that_fails_leaves_one_of_two<D: Device, A: Analyzer>(
    old: &Session<D, A>,
    new: &Session<D, A>,
)
    ensures ready { (s : steps.Session) (line : List ℕ)
        → IsTrue (honest_of old.now) → StandsFor old.now s → steps.is_ready s.stage ≡ true
        → LeavesOf old.now (AreGiven s.analysis.analyze (steps.held_by s.stage))
        → IsReplied old.now new.now line (Err faults.Device)
        → LeavesOf new.now (λ image. AreGiven s.analysis.analyze (steps.held_by s.stage) image
        ⊎ AreGiven s.analysis.analyze (steps.held_by (steps.after_line s line).stage) image)
        × (StandsFor new.now (closed_session s) ⊎ StandsFor new.now (closed_session (steps.after_line s line))) }
    ensures one_of { (s : steps.Session) (schema : Schema) (settings : Settings) (one other : List (List Document))
        (line : List ℕ)
        → IsTrue (honest_of old.now) → StandsFor old.now s → MakesIndex (steps.line_request line)
        → LeavesOf old.now (LeavesOneOf schema settings s.analysis.analyze one other)
        → IsReplied old.now new.now line (Err faults.Device)
        → LeavesOf new.now (LeavesOneOf schema settings s.analysis.analyze one other)
        × (StandsFor new.now (session_on s.analysis (steps.file_of schema settings one))
        ⊎ StandsFor new.now (session_on s.analysis (steps.file_of schema settings other))) }
    ensures none { (s : steps.Session) (line : List ℕ)
        → IsTrue (honest_of old.now) → StandsFor old.now s → MakesIndex (steps.line_request line)
        → LeavesOf old.now (LeavesNone s.analysis.analyze)
        → IsReplied old.now new.now line (Err faults.Device)
        → LeavesOf new.now (LeavesNone s.analysis.analyze)
        × ((held : steps.Held) × HasNoDocuments held × StandsFor new.now (session_on s.analysis held)) }
{}

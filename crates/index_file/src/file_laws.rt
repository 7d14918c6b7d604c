//! Laws of files that list segments.

ghost use Rattle.std.specs.Prelude.{◌++◌, ◌+◌, List, take, ℕ};
ghost use Rattle.definitions.specs.Analyzers.{Analyzer};
ghost use Rattle.definitions.specs.Schema.{Schema};
ghost use Rattle.definitions.specs.Settings.{Settings};
ghost use Rattle.definitions.specs.Values.{Document};
ghost use Rattle.layouts.specs.RecordFiles.{EndsAt};
ghost use Rattle.segment_definitions.specs.IndexFiles.{IsRecordFile};

/// States that a file stands for the same lists when it is cut after its closed gate, and when bytes follow it.
pub fn bytes_behind_the_closed_gate_change_no_list()
    ensures cut { (schema : Schema) (settings : Settings) (analyze : Analyzer) (content : List ℕ) (gate : ℕ)
        (bodies : List (List ℕ))
        (lists : List (List (List Document))) → EndsAt content gate bodies
        → IsRecordFile schema settings analyze content lists
        → IsRecordFile schema settings analyze (take (gate + 1) content) lists }
    ensures added { (schema : Schema) (settings : Settings) (analyze : Analyzer) (content more : List ℕ) (gate : ℕ)
        (bodies : List (List ℕ))
        (lists : List (List (List Document))) → EndsAt content gate bodies
        → IsRecordFile schema settings analyze content lists
        → IsRecordFile schema settings analyze (content ++ more) lists }
{}

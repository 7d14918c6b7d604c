//! Files of records that list segments.

ghost use Rattle.std.specs.Prelude.{[], ◌++◌, ◌∷◌, List, false, replicate, true, ℕ};
ghost use Rattle.definitions.specs.Analyzers.{raw_and_default};
ghost use Rattle.definitions.specs.Settings.{default_settings};
ghost use Rattle.layouts.specs.RecordFiles.{IsDamaged, records, sized_body};
ghost use Rattle.segment_definitions.specs.ListBodies.{Member, fresh, kept, segments_body};
ghost use Rattle.segment_definitions.specs.SegmentExamples.{HasByteEach, bare_bodies, bare_body, bare_segment, one_byte, replacing_bodies};
ghost use Rattle.segment_definitions.specs.IndexFiles.{AreBodies, AreMade, IsGroup, IsRecordFile, LeavesGroups, TakesSegments};

/// A file of three records: nothing, a group of one document, and that group without it. After the closed gate there
/// may be any bytes.
pub fn a_file_leaves_groups()
    ensures lists { IsRecordFile [] default_settings raw_and_default (records (bare_body ∷ bare_bodies) ++ 0 ∷ 165
        ∷ []) ([] ∷ (([] ∷ []) ∷ []) ∷ ([] ∷ []) ∷ []) }
    ensures first { IsRecordFile [] default_settings raw_and_default (records (bare_body ∷ []) ++ 0 ∷ []) ([] ∷ []) }
    ensures last { LeavesGroups [] default_settings raw_and_default (records (bare_body ∷ bare_bodies) ++ 0 ∷ 165
        ∷ []) ([] ∷ []) }
    ensures another { ¬ LeavesGroups [] default_settings raw_and_default (records (bare_body ∷ bare_bodies) ++ 0 ∷ 165
        ∷ []) (([] ∷ []) ∷ []) }
{}

/// A kept segment is one of the list just before, and not of an earlier one.
pub fn kept_segments_are_of_the_list_before()
    ensures left { AreMade HasByteEach [] replacing_bodies (one_byte 10 ∷ one_byte 11 ∷ one_byte 11 ∷ []) }
    ensures earlier { ¬ AreMade HasByteEach [] replacing_bodies (one_byte 10 ∷ one_byte 11 ∷ one_byte 10 ∷ []) }
    ensures nothing_before { (lists : List (List Member))
        → ¬ AreMade HasByteEach [] (segments_body (kept 0 ∷ []) ((true ∷ []) ∷ []) ∷ []) lists }
    ensures one_each { ¬ AreMade HasByteEach [] replacing_bodies (one_byte 10 ∷ one_byte 11 ∷ []) }
{}

/// A group is the living documents of its segment, each of which has a flag.
pub fn groups_are_of_the_living()
    ensures dead { ¬ IsGroup [] raw_and_default (bare_segment, false ∷ []) ([] ∷ []) }
    ensures alive { ¬ IsGroup [] raw_and_default (bare_segment, true ∷ []) [] }
    ensures flags { ¬ IsGroup [] raw_and_default (bare_segment, true ∷ true ∷ []) ([] ∷ []) }
{}

/// A body that lists documents is damage, and so is a record that is cut.
pub fn other_bodies_are_damaged()
    ensures byte_3 { IsDamaged TakesSegments (records (bare_body ∷ []) ++ 165
        ∷ (sized_body (3 ∷ replicate 8 0) ++ 0 ∷ [])) 37 }
    ensures cut { IsDamaged TakesSegments (records (bare_body ∷ []) ++ 165 ∷ []) 37 }
    ensures whole { (offset : ℕ) → ¬ IsDamaged TakesSegments (records (bare_body ∷ bare_bodies) ++ 0 ∷ 165 ∷ []) offset }
{}

/// A new segment of a body is in its layout; a single byte isn't.
pub fn new_segments_are_in_their_layout()
    ensures { ¬ AreBodies (bare_body ∷ segments_body (fresh (7 ∷ []) ∷ []) ((true ∷ []) ∷ []) ∷ []) }
{}

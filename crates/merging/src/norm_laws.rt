//! Laws of merged lengths, if members are segments of documents.

ghost use Rattle.std.specs.Prelude.{◌≡◌, List};
ghost use Rattle.definitions.specs.Alive.{Segment, live};
ghost use Rattle.definitions.specs.Analyzers.{Analyzer};
ghost use Rattle.definitions.specs.KeptLengths.{length_fields, norms_of};
ghost use Rattle.definitions.specs.Schema.{Schema};
ghost use Rattle.merging.specs.LivingNorms.{AreOf};
ghost use Rattle.merging.specs.MergedNorms.{merged_norms};
ghost use Rattle.merging.specs.declared.member_norms.MemberNorms.{MemberNorms};

/// States that the merged lengths are those of the living documents, one segment after another.
pub fn norms_are_those_of_the_living()
    ensures { (schema : Schema) (analyze : Analyzer) (members : List MemberNorms) (segments : List Segment)
        → AreOf schema analyze members segments
        → merged_norms (length_fields schema) members ≡ norms_of schema analyze (live segments) }
{}

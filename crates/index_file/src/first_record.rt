//! The first record of a file.

ghost use Rattle.std.specs.Prelude.{◌≡◌, ◌≢◌, IfErr, IfOk, None, OnOk, Some};
ghost use Rattle.definitions.specs.Making.{making_fault};
ghost use Rattle.definitions.specs.declared.fault.Fault.TheVariants as faults;
ghost use Rattle.layouts.specs.RecordBodies.{first_body, first_in};
ghost use Rattle.index_file.specs.Frames.{frame_bytes};

use crate::making_checks::check_making;
use crate::{finish_frame, put_first_body, start_frame};
use common::Analyzer;
use definitions::Fault;
use schema::Schema;
use settings::Settings;
use std::alloc::Global;

/// Encodes the frame of a first record, if an index can be made of `analyzer`, `schema` and `settings`.
pub fn first_frame<A: Analyzer>(
    alloc: Global,
    analyzer: &A,
    schema: &Schema,
    settings: &Settings,
) -> Result<Vec<u8>, Fault>
    ensures ok { IfOk result (λ frame. frame.items ≡ frame_bytes (first_body schema.now settings.now)) }
    ensures made { OnOk result (making_fault (A.knows_name analyzer.now) schema.now settings.now ≡ None) }
    ensures read_back { OnOk result (first_in (first_body schema.now settings.now) ≡ Some (schema.now, settings.now)) }
    ensures err { IfErr result (λ fault.
        fault ≢ faults.OutOfMemory → making_fault (A.knows_name analyzer.now) schema.now settings.now ≡ Some fault) }
{
    check_making(alloc, analyzer, schema, settings)?;
    let mut frame = start_frame(alloc)?;
    put_first_body(alloc, &mut frame, schema, settings)?;
    finish_frame(&mut frame)?;
    Ok(frame)
}

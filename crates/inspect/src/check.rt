//! Whether a file is sound.

ghost use Rattle.std.specs.Prelude.{IfNone, IfOk, IfSome, List, ℕ};
ghost use Rattle.index_file.specs.declared.index_file.IndexFile.{IndexFile as File};
ghost use Rattle.inspect.specs.Contents.{AreRecords, OpensTo};
ghost use Rattle.inspect.specs.Documents.{IsTold};
ghost use Rattle.inspect.specs.Reasons.{IsDamageOf};
ghost use Rattle.inspect.specs.Sound.{IsSound};
ghost use Rattle.inspect.specs.declared.contents.Opened.TheVariants.{Whole};

use crate::contents::{Contents, Opened, contents_of};
use crate::damage::{Damage, Reason};
use crate::document_damage::{DamagedDocument, first_damaged, record_of};
use crate::failure::Failure;
use crate::record_damage::damage_at;
use crate::records::Record;
use bytes::Bytes;
use index_file::IndexFile;
use std::alloc::Global;
use std::io::Write;

/// Writes `sound` if the file of these `bytes` opens and every document in it can be read, or which record is damaged,
/// and why.
pub(crate) fn check<W: Write>(alloc: Global, bytes: &Bytes, out: &mut W) -> Result<(), Failure> {
    match damage_of(alloc, bytes)? {
        Some(damage) => {
            writeln!(out, "{damage}")?;
            Err(Failure::Damaged)
        }
        None => {
            writeln!(out, "sound")?;
            Ok(())
        }
    }
}

/// Returns what is wrong with the file of these `bytes`, and `None` if it is sound.
fn damage_of(alloc: Global, bytes: &Bytes) -> Result<Option<Damage>, Failure>
    ensures some { IfOk result (λ found. IfSome found (IsDamageOf bytes.now)) }
    ensures none { IfOk result (λ found. IfNone found (IsSound bytes.now)) }
{
    let Contents { records, opened } = contents_of(alloc, bytes)?;
    match opened {
        Opened::Whole(file) => document_damage(alloc, &records, file),
        Opened::DamagedAt(gate) => {
            let damage = damage_at(alloc, bytes, records.len(), gate)?;
            Ok(Some(damage))
        }
    }
}

/// Returns the first document of `file` that can't be read, with the one of its `records` in which its segment is new.
fn document_damage(
    alloc: Global,
    records: &[Record<'_>],
    file: IndexFile,
) -> Result<Option<Damage>, Failure>
    requires { (bytes : List ℕ) × AreRecords bytes records.now (Whole file) }
    ensures some { (bytes : List ℕ) → AreRecords bytes records.now (Whole file)
        → IfOk result (λ found. IfSome found (IsDamageOf bytes)) }
    ensures none { (bytes : List ℕ) → OpensTo bytes file → IfOk result (λ found. IfNone found (IsSound bytes)) }
{
    let IndexFile {
        schema,
        members,
        ..
    } = file;
    let Some(document) = first_damaged(&schema, members)? else {
        return Ok(None);
    };
    let damage = told(alloc, records, document)?;
    Ok(Some(damage))
}

/// Returns `document`, which can't be read, with the one of `records` in which its segment is new.
fn told(alloc: Global, records: &[Record<'_>], document: DamagedDocument) -> Result<Damage, Failure>
    requires { (bytes : List ℕ) × (file : File) × AreRecords bytes records.now (Whole file)
        × IsTold file.schema file.members.items document }
    ensures { (bytes : List ℕ) (file : File) → AreRecords bytes records.now (Whole file)
        → IsTold file.schema file.members.items document → IfOk result (IsDamageOf bytes) }
{
    let Some((number, gate)) = record_of(alloc, records, document.segment.as_slice())? else {
        unreachable!()
    };
    let reason = Reason::Document {
        segment: document.number,
        doc: document.doc,
        unread: document.unread,
    };
    Ok(Damage {
        number,
        gate,
        reason,
    })
}

//! Alive sets, and their bytes.

use common::AliveBitSet;
use definitions::Fault;
use std::alloc::Global;
use std::test::Fail;

/// Whether a document is dead in the tests: every third one, and the last of 65.
fn is_dead(doc: u32) -> bool {
    doc % 3 == 1 || doc == 64
}

/// Kills a document of the set.
fn kill(alive: &mut AliveBitSet, doc: u32) {
    if (doc as usize) < alive.len() {
        alive.kill(doc);
    }
}

/// A set of a given number of documents, of which the dead ones are killed.
fn set_of(alloc: Global, max_doc: u32) -> Result<AliveBitSet, Fault> {
    let mut alive = AliveBitSet::for_max_doc(alloc, max_doc)?;
    for doc in 0..max_doc {
        if is_dead(doc) {
            kill(&mut alive, doc);
        }
    }
    Ok(alive)
}

/// How many documents, in four bytes, and then their flags in words of eight bytes, bit by bit.
fn bytes_of(alloc: Global, max_doc: u32) -> Result<Vec<u8>, Fault> {
    let mut bytes = Vec::new(alloc);
    bytes.extend_from_slice(&max_doc.to_le_bytes())?;
    for word in 0..(max_doc as u64 + 63) / 64 {
        for byte in 0..8 {
            let mut flags = 0u8;
            for bit in 0..8 {
                let doc = 64 * word + 8 * byte + bit;
                if doc < max_doc as u64 && !is_dead(doc as u32) {
                    flags |= 1 << bit;
                }
            }
            bytes.push(flags)?;
        }
    }
    Ok(bytes)
}

const LENGTHS: [u32; 7] = [0, 1, 63, 64, 65, 128, 1000];

/// Whether a set has its flags, and counts the documents that are alive.
fn has_its_flags(alive: &AliveBitSet, max_doc: u32) -> bool {
    let mut count = 0usize;
    let mut right = alive.len() == max_doc as usize;
    for doc in 0..max_doc {
        right &= (doc as usize) < alive.len() && alive.is_alive(doc) != is_dead(doc);
        if !is_dead(doc) {
            count = count.wrapping_add(1);
        }
    }
    right && alive.num_alive() == count
}

/// Whether sets of each length have their flags.
fn sets_have_flags(alloc: Global) -> Result<bool, Fault> {
    let mut right = true;
    for max_doc in LENGTHS {
        right &= has_its_flags(&set_of(alloc, max_doc)?, max_doc);
    }
    Ok(right)
}

#[test]
fn flags_of_documents(rt: HostRuntime) -> Result<(), Fail> {
    assert!(rt; sets_have_flags(rt.alloc())?);
    Ok(())
}

/// Whether document 69 of 70 is dead, and counted once.
fn is_last_dead(alive: &AliveBitSet) -> bool {
    alive.len() == 70
        && alive.num_alive() == 69
        && alive.first_alive_from(68) == Some(68)
        && alive.first_alive_from(69).is_none()
}

/// Whether a document that is killed twice is dead, and counted once.
fn one_document_dies(alloc: Global) -> Result<bool, Fault> {
    let mut alive = AliveBitSet::for_max_doc(alloc, 70)?;
    let all = alive.num_alive() == 70;
    kill(&mut alive, 69);
    let once = is_last_dead(&alive);
    kill(&mut alive, 69);
    Ok(all && once && is_last_dead(&alive))
}

#[test]
fn a_document_dies_once(rt: HostRuntime) -> Result<(), Fail> {
    assert!(rt; one_document_dies(rt.alloc())?);
    Ok(())
}

/// Whether a set has its bytes, and these are the set again.
fn set_is_read_back(alloc: Global, max_doc: u32) -> Result<bool, Fault> {
    let bytes = set_of(alloc, max_doc)?.to_bytes(alloc)?;
    let expected = bytes_of(alloc, max_doc)?;
    let read = AliveBitSet::from_bytes(alloc, &bytes)?;
    let again = read.to_bytes(alloc)?;
    Ok(
        bytes.as_slice() == expected.as_slice()
            && has_its_flags(&read, max_doc)
            && again.as_slice() == bytes.as_slice(),
    )
}

/// Whether sets of each length are read back.
fn sets_are_read_back(alloc: Global) -> Result<bool, Fault> {
    let mut right = true;
    for max_doc in LENGTHS {
        right &= set_is_read_back(alloc, max_doc)?;
    }
    Ok(right)
}

#[test]
fn bytes_of_sets(rt: HostRuntime) -> Result<(), Fail> {
    assert!(rt; sets_are_read_back(rt.alloc())?);
    Ok(())
}

/// Whether bytes stand for a set: as many words as the documents need, and no bit from their number on.
fn is_set(bytes: &[u8]) -> bool {
    let Some((count, flags)) = bytes.split_first_chunk::<4>() else {
        return false;
    };
    let max_doc = u32::from_le_bytes(*count) as usize;
    let mut past = false;
    for (i, byte) in flags.iter().enumerate() {
        for bit in 0..8 {
            past |= i.wrapping_mul(8).wrapping_add(bit) >= max_doc && *byte >> bit & 1 == 1;
        }
    }
    flags.len() == (max_doc + 63) / 64 * 8 && !past
}

/// Whether the bytes are those of a set that has them again; None where they are refused, but not as damaged.
fn reads(alloc: Global, bytes: &[u8]) -> Result<Option<bool>, Fault> {
    match AliveBitSet::from_bytes(alloc, bytes) {
        Ok(alive) => {
            let again = alive.to_bytes(alloc)?;
            Ok((again.as_slice() == bytes).then_some(true))
        }
        Err(Fault::Damaged(None)) => Ok(Some(false)),
        Err(_) => Ok(None),
    }
}

/// Whether the bytes of a set are damaged wherever they are cut.
fn cuts_are_damaged(alloc: Global, bytes: &[u8]) -> Result<bool, Fault> {
    let mut right = true;
    for len in 0..bytes.len() {
        right &= reads(alloc, &bytes[..len])? == Some(false);
    }
    Ok(right)
}

/// Whether the bytes of a set are one or none by the rule, whichever of them is that byte.
fn changes_are_judged(alloc: Global, bytes: &[u8], byte: u8) -> Result<bool, Fault> {
    let mut right = true;
    for (i, _) in bytes.iter().enumerate() {
        let mut changed = Vec::new(alloc);
        changed.extend_from_slice(bytes)?;
        if let Some(slot) = changed.get_mut(i) {
            *slot = byte;
        }
        right &= reads(alloc, &changed)? == Some(is_set(&changed));
    }
    Ok(right)
}

/// Whether sets are read by all their bytes alone.
fn bytes_are_judged(alloc: Global) -> Result<bool, Fault> {
    let mut right = true;
    for max_doc in [3, 64, 65] {
        let bytes = bytes_of(alloc, max_doc)?;
        right &= reads(alloc, &bytes)? == Some(true)
            && cuts_are_damaged(alloc, &bytes)?
            && changes_are_judged(alloc, &bytes, 0)?
            && changes_are_judged(alloc, &bytes, 0xff)?;
    }
    Ok(right)
}

#[test]
fn bytes_that_are_cut_or_changed(rt: HostRuntime) -> Result<(), Fail> {
    assert!(rt; bytes_are_judged(rt.alloc())?);
    Ok(())
}

/// Bytes, and whether they are those of a set.
const ROWS: [(&[u8], bool); 8] = [
    (b"", false),
    (b"\0\0\0\0", true),
    (b"\0\0\0\0\0", false),
    (b"\0\0\0\0\0\0\0\0\0\0\0\0", false),
    (b"\x02\0\0\0\x03\0\0\0\0\0\0\0", true),
    (b"\x02\0\0\0\x04\0\0\0\0\0\0\0", false),
    (b"\x02\0\0\0\0\0\0\0\0\0\0\x80", false),
    (b"\xff\xff\xff\xff\0\0\0\0\0\0\0\0", false),
];

/// Whether bytes are read or refused so.
fn rows_are_judged(alloc: Global) -> Result<bool, Fault> {
    let mut right = true;
    for (bytes, read) in ROWS {
        right &= reads(alloc, bytes)? == Some(read);
    }
    Ok(right)
}

#[test]
fn bytes_of_no_set(rt: HostRuntime) -> Result<(), Fail> {
    assert!(rt; rows_are_judged(rt.alloc())?);
    Ok(())
}

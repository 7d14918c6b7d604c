//! Stores of many slots: the slot with a number has the number's remainder by 13 as its length.

use crate::stores::reader;
use case_lines::{Arguments, Cell, Refusal, cells, flag, hex, number, numbers, triple};
use common::AliveBitSet;
use definitions::Fault;
use serde_json::Value;
use std::alloc::{AllocError, Global};
use store::{CacheStats, DocStoreFooter, SkipIndex, StoreReader, StoreWriter};

/// What an operation on such stores answers.
pub(crate) fn answer(
    alloc: Global,
    operation: &str,
    arguments: &Arguments,
) -> Result<Value, Refusal> {
    match operation {
        "bytes" => {
            let file = file_of(alloc, arguments.small_number(0)?, arguments.number(1)?)?;
            Ok(hex(alloc, &file)?)
        }
        "orders" => orders(alloc, arguments),
        "iterated" => iterated(alloc, arguments),
        "alive-each-seventh" => alive_each_seventh(alloc, arguments.small_number(0)?),
        "alive-block" => alive_block(alloc, 100),
        "stacked" => stacked(alloc, arguments.number(0)?),
        "open" => Ok(number(u64::from(reader(alloc, &arguments.bytes(alloc, 0)?, 1)?.num_docs()))),
        "read-or-damaged" => Ok(flag(is_read_or_damaged(alloc, &arguments.bytes(alloc, 0)?))),
        _ => Err(Refusal::NotAsked),
    }
}

/// The bytes of the slot with a number.
fn slot(alloc: Global, number: u32) -> Result<Vec<u8>, AllocError> {
    let mut bytes = Vec::new(alloc);
    for i in 0..number % 13 {
        bytes.push((number.wrapping_mul(31).wrapping_add(i) % 251) as u8)?;
    }
    Ok(bytes)
}

/// Adds a given number of slots, numbered from one on.
fn add(alloc: Global, writer: &mut StoreWriter, first: u32, count: u32) -> Result<(), Refusal> {
    for i in 0..count {
        writer.store_bytes(&slot(alloc, first.wrapping_add(i))?)?;
    }
    Ok(())
}

/// A writer of a given number of slots, numbered from one on.
fn writer_of(
    alloc: Global,
    first: u32,
    count: u32,
    block_size: u64,
) -> Result<StoreWriter, Refusal> {
    let mut writer = StoreWriter::new(alloc, block_size as usize);
    add(alloc, &mut writer, first, count)?;
    Ok(writer)
}

/// The file of a given number of slots, numbered from 0 on.
fn file_of(alloc: Global, count: u32, block_size: u64) -> Result<Vec<u8>, Refusal> {
    let writer = writer_of(alloc, 0, count, block_size)?;
    Ok(writer.close()?)
}

/// Whether the bytes are those of the slot with a number.
fn is_slot(alloc: Global, read: &[u8], doc: u32) -> Result<bool, AllocError> {
    Ok(read == slot(alloc, doc)?.as_slice())
}

/// How many of the slots have their bytes, in ascending, descending or mixed order.
fn count_read(
    alloc: Global,
    reader: &mut StoreReader,
    order: u32,
    count: u32,
) -> Result<u32, Refusal> {
    let mut right = 0u32;
    for i in 0..count {
        let doc = match order {
            0 => i,
            1 => count.wrapping_sub(1).wrapping_sub(i),
            _ => i.wrapping_mul(7919).checked_rem(count).unwrap_or(0),
        };
        if is_slot(alloc, &reader.get_document_bytes(doc)?, doc)? {
            right = right.wrapping_add(1);
        }
    }
    Ok(right)
}

/// How many of the slots have their bytes, in each of three orders.
fn counts_read(alloc: Global, reader: &mut StoreReader, count: u32) -> Result<[u32; 3], Refusal> {
    Ok([
        count_read(alloc, reader, 0, count)?,
        count_read(alloc, reader, 1, count)?,
        count_read(alloc, reader, 2, count)?,
    ])
}

/// Of a store of slots, with blocks of a size, read by a reader that keeps some of them: how many slots
/// there are, how many are read right in each of three orders, how often a block was asked for, and whether slots
/// past the last are refused, no more blocks are kept than that, and none is found where none is kept.
fn orders(alloc: Global, arguments: &Arguments) -> Result<Value, Refusal> {
    let count = arguments.small_number(0)?;
    let capacity = arguments.number(2)? as usize;
    let told = orders_of_slots(alloc, count, arguments.number(1)?, capacity)?;
    Ok(cells(alloc, &told)?)
}

/// What `orders` answers of a given number of slots.
fn orders_of_slots(
    alloc: Global,
    count: u32,
    block_size: u64,
    capacity: usize,
) -> Result<[Cell; 8], Refusal> {
    let file = file_of(alloc, count, block_size)?;
    orders_of_file(alloc, &file, count, capacity)
}

/// What `orders` answers of a file of a given number of slots.
fn orders_of_file(
    alloc: Global,
    file: &[u8],
    count: u32,
    capacity: usize,
) -> Result<[Cell; 8], Refusal> {
    let mut reader = reader(alloc, file, capacity)?;
    told_of_orders(alloc, &mut reader, count, capacity)
}

/// What `orders` answers of a reader.
fn told_of_orders(
    alloc: Global,
    reader: &mut StoreReader,
    count: u32,
    capacity: usize,
) -> Result<[Cell; 8], Refusal> {
    let [ascending, descending, mixed] = counts_read(alloc, reader, count)?;
    let refused = is_refused(reader, count) && is_refused(reader, u32::MAX);
    let stats = reader.cache_stats();
    let asked = stats.cache_hits.wrapping_add(stats.cache_misses);
    Ok([
        Cell::Number(u64::from(reader.num_docs())),
        Cell::Number(u64::from(ascending)),
        Cell::Number(u64::from(descending)),
        Cell::Number(u64::from(mixed)),
        Cell::Number(asked as u64),
        Cell::Flag(refused),
        Cell::Flag(stats.num_entries <= capacity),
        Cell::Flag(capacity > 0 || stats.cache_hits == 0),
    ])
}

/// Whether no store has a slot with that number.
fn is_refused(reader: &mut StoreReader, doc: u32) -> bool {
    matches!(reader.get_document_bytes(doc), Err(Fault::InvalidArgument))
}

/// How many blocks a store has.
fn count_blocks(alloc: Global, file: &[u8]) -> Result<usize, Refusal> {
    let (footer, body) = DocStoreFooter::extract_footer(file)?;
    let index = body.get(footer.offset as usize..).unwrap_or(b"");
    Ok(SkipIndex::open(alloc, index)?.checkpoints().len())
}

/// How many slots come in order with their bytes.
fn count_in_order(alloc: Global, reader: &mut StoreReader) -> Result<u32, Refusal> {
    let mut right = 0u32;
    for read in reader.iter(None) {
        if is_slot(alloc, &read?, right)? {
            right = right.wrapping_add(1);
        }
    }
    Ok(right)
}

/// Of a store of slots, with blocks of a size, iterated twice by a reader that keeps all of its blocks or
/// none: how many slots come right each time, and whether the first time looks up each block once, and the second
/// time finds it kept or looks it up again.
fn iterated(alloc: Global, arguments: &Arguments) -> Result<Value, Refusal> {
    let count = arguments.small_number(0)?;
    let told = walks_of_slots(alloc, count, arguments.number(1)?, arguments.flag(2)?)?;
    Ok(cells(alloc, &told)?)
}

/// What `iterated` answers of a given number of slots, by whether all blocks are kept.
fn walks_of_slots(
    alloc: Global,
    count: u32,
    block_size: u64,
    keeps: bool,
) -> Result<[Cell; 4], Refusal> {
    let file = file_of(alloc, count, block_size)?;
    walks_of_file(alloc, &file, keeps)
}

/// What `iterated` answers of a file, by whether all blocks are kept.
fn walks_of_file(alloc: Global, file: &[u8], keeps: bool) -> Result<[Cell; 4], Refusal> {
    let blocks = count_blocks(alloc, file)?;
    let (capacity, kept) = if keeps { (10000, blocks) } else { (0, 0) };
    let mut reader = reader(alloc, file, capacity)?;
    told_of_both(alloc, &mut reader, blocks, kept)
}

/// What `iterated` answers of a reader, by how many blocks there are and are kept.
fn told_of_both(
    alloc: Global,
    reader: &mut StoreReader,
    blocks: usize,
    kept: usize,
) -> Result<[Cell; 4], Refusal> {
    let [first, looked_up] = told_of_walk(alloc, reader, blocks, kept, 0)?;
    let [second, found] = told_of_walk(alloc, reader, blocks, kept, kept)?;
    Ok([first, looked_up, second, found])
}

/// How many slots come right, and whether a given number of blocks are then found kept, and the others looked up.
fn told_of_walk(
    alloc: Global,
    reader: &mut StoreReader,
    blocks: usize,
    kept: usize,
    hits: usize,
) -> Result<[Cell; 2], Refusal> {
    let misses = reader.cache_stats().cache_misses;
    let right = count_in_order(alloc, reader)?;
    let stats = reader.cache_stats();
    let looked_up = misses.wrapping_add(blocks.wrapping_sub(hits));
    let is_so = stats.num_entries == kept
        && stats.cache_hits == hits
        && stats.cache_misses == looked_up;
    Ok([Cell::Number(u64::from(right)), Cell::Flag(is_so)])
}

/// Where all of the first documents but each seventh from 3 on are dead, in a store of 100: the document behind the
/// last of those that come, and whether all have their bytes. Documents past those are dead.
fn alive_each_seventh(alloc: Global, max_doc: u32) -> Result<Value, Refusal> {
    let (told, _) = come_of_alive(alloc, 30, each_seventh(alloc, max_doc)?, 3, 7)?;
    Ok(cells(alloc, &told)?)
}

/// Where only the documents 40 and 41 of 100 are alive, each in a block of its own: the document behind the last of
/// those that come, whether all have their bytes, and how often a block was found and looked up.
fn alive_block(alloc: Global, max_doc: u32) -> Result<Value, Refusal> {
    let (told, stats) = come_of_alive(alloc, 0, one_block(alloc, max_doc)?, 40, 1)?;
    Ok(told_with_stats(alloc, &told, stats)?)
}

/// Those that come of 100 slots with blocks of a size.
fn come_of_alive(
    alloc: Global,
    block_size: u64,
    alive: AliveBitSet,
    first: u32,
    step: u32,
) -> Result<([Cell; 2], CacheStats), Refusal> {
    let file = file_of(alloc, 100, block_size)?;
    come_of(alloc, &file, &alive, first, step)
}

/// A row, and how often a block was found and looked up.
fn told_with_stats(alloc: Global, told: &[Cell], stats: CacheStats) -> Result<Value, AllocError> {
    let hits = number(stats.cache_hits as u64);
    let misses = number(stats.cache_misses as u64);
    triple(alloc, cells(alloc, told)?, hits, misses)
}

/// The first documents, of which each seventh from 3 on is alive.
fn each_seventh(alloc: Global, max_doc: u32) -> Result<AliveBitSet, AllocError> {
    let mut alive = AliveBitSet::for_max_doc(alloc, max_doc)?;
    for doc in 0..max_doc {
        kill_unless(&mut alive, doc, doc % 7 == 3);
    }
    Ok(alive)
}

/// The first documents, of which 40 and 41 are alive.
fn one_block(alloc: Global, max_doc: u32) -> Result<AliveBitSet, AllocError> {
    let mut alive = AliveBitSet::for_max_doc(alloc, max_doc)?;
    for doc in 0..max_doc {
        kill_unless(&mut alive, doc, doc / 2 == 20);
    }
    Ok(alive)
}

/// Kills a document, unless it lives.
fn kill_unless(alive: &mut AliveBitSet, doc: u32, lives: bool) {
    if !lives && (doc as usize) < alive.len() {
        alive.kill(doc);
    }
}

/// The document a step behind the last of those of a file that come, from one on, and whether all have their bytes;
/// and what was looked up.
fn come_of(
    alloc: Global,
    file: &[u8],
    alive: &AliveBitSet,
    first: u32,
    step: u32,
) -> Result<([Cell; 2], CacheStats), Refusal> {
    let mut reader = reader(alloc, file, 0)?;
    come_in_steps(alloc, &mut reader, alive, first, step)
}

/// The document a step behind the last of those of a reader that come, from one on, and whether all have their bytes;
/// and what was looked up.
fn come_in_steps(
    alloc: Global,
    reader: &mut StoreReader,
    alive: &AliveBitSet,
    first: u32,
    step: u32,
) -> Result<([Cell; 2], CacheStats), Refusal> {
    let mut doc = first;
    let mut right = true;
    for read in reader.iter(Some(alive)) {
        right = right && is_slot(alloc, &read?, doc)?;
        doc = doc.wrapping_add(step);
    }
    Ok((
        [Cell::Number(u64::from(doc)), Cell::Flag(right)],
        reader.cache_stats(),
    ))
}

/// Stacks stores on one of ten slots with blocks of a size, and adds three slots after each: how many slots there
/// are, and how many are read right in each of three orders.
fn stacked(alloc: Global, block_size: u64) -> Result<Value, Refusal> {
    let (num_docs, [ascending, descending, mixed]) = stacked_counts(alloc, block_size)?;
    Ok(numbers(alloc, &[num_docs, ascending, descending, mixed])?)
}

/// How many slots there are when stores are stacked, and how many are read right in each of three orders.
fn stacked_counts(alloc: Global, block_size: u64) -> Result<(u32, [u32; 3]), Refusal> {
    let mut writer = writer_of(alloc, 0, 10, block_size)?;
    let docs = stack_others(alloc, &mut writer)?;
    let num_docs = writer.num_docs();
    let file = writer.close()?;
    Ok((num_docs, counts_of(alloc, &file, docs)?))
}

/// Stacks stores of different sizes behind the first ten slots, and answers how many slots there are then.
fn stack_others(alloc: Global, writer: &mut StoreWriter) -> Result<u32, Refusal> {
    let mut docs = 10;
    for (count, size) in [(0, 5), (1, 0), (100, 1), (40, 16384), (0, 0), (300, 100)] {
        stack_other(alloc, writer, docs, count, size)?;
        docs = docs.wrapping_add(count).wrapping_add(3);
    }
    Ok(docs)
}

/// How many of a file's slots have their bytes, in each of three orders.
fn counts_of(alloc: Global, file: &[u8], docs: u32) -> Result<[u32; 3], Refusal> {
    let mut reader = reader(alloc, file, 3)?;
    counts_read(alloc, &mut reader, docs)
}

/// Stacks a store of a given number of slots from one on, and adds three slots after it.
fn stack_other(
    alloc: Global,
    writer: &mut StoreWriter,
    first: u32,
    count: u32,
    block_size: u64,
) -> Result<(), Refusal> {
    let other = writer_of(alloc, first, count, block_size)?.close()?;
    stack_file(alloc, writer, &other)?;
    add(alloc, writer, first.wrapping_add(count), 3)
}

/// Stacks the store of a file.
fn stack_file(alloc: Global, writer: &mut StoreWriter, file: &[u8]) -> Result<(), Refusal> {
    let other = reader(alloc, file, 0)?;
    Ok(writer.stack(&other)?)
}

/// Whether every slot of a store is read or refused as damaged, where the store itself isn't.
fn is_read_or_damaged(alloc: Global, file: &[u8]) -> bool {
    let mut reader = match reader(alloc, file, 1) {
        Ok(reader) => reader,
        Err(refusal) => return refusal == Refusal::Fault(Fault::Damaged(None)),
    };
    let mut good = true;
    for doc in 0..reader.num_docs().min(100) {
        match reader.get_document_bytes(doc) {
            Ok(_) => {}
            Err(fault) => good = good && fault == Fault::Damaged(None),
        }
    }
    good
}

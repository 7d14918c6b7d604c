//! The positions of a document among those of a term.

ghost use Rattle.std.specs.Prelude.{◌++◌, ◌+◌, ◌<◌, ◌≡◌, ◌≤◌, IsSome, OnErr, OnOk, drop, length, map, take, vec_capacity};
ghost use Rattle.docsets.specs.Entries.{highest};
ghost use Rattle.codes.specs.PositionPlaces.{places};
ghost use Rattle.codes.specs.UnpackedBlocks.{listed};

use codes::PositionReader;
use std::alloc::AllocError;

/// Appends `count` numbers from index `begin` on to `output`, which are positions by their differences; nothing if none
/// are read.
pub(crate) fn append_numbers(
    positions: &mut Option<PositionReader>,
    begin: u64,
    count: usize,
    output: &mut Vec<u32>,
) -> Result<(), AllocError>
    requires few { count ≤ 4294967295 }
    requires room { IsSome positions.old → begin + count ≤ length (listed positions.old) }
    ensures same { positions.new ≡ positions.old }
    ensures ok { OnOk result (output.new.items
        ≡ output.old.items ++ take count (drop begin (listed positions.old))) }
    ensures err { OnErr result (output.new.items ≡ output.old.items) }
    ensures full { OnErr result (vec_capacity output.old
        < length (output.old.items ++ take count (drop begin (listed positions.old)))) }
    ensures room { vec_capacity output.old ≤ vec_capacity output.new }
{
    let Some(reader) = positions else {
        return Ok(());
    };
    let start = output.len();
    output.resize(start + count, 0)?;
    reader.read(begin, &mut output[start..]);
    Ok(())
}

/// Appends `count` positions from index `begin` on, each plus `offset`, to `output`; nothing if none are read.
pub(crate) fn append_positions(
    positions: &mut Option<PositionReader>,
    begin: u64,
    count: usize,
    offset: u32,
    output: &mut Vec<u32>,
) -> Result<(), AllocError>
    requires few { count ≤ 4294967295 }
    requires room { IsSome positions.old → begin + count ≤ length (listed positions.old) }
    requires fits { highest (places 0 (take count (drop begin (listed positions.old)))) + offset ≤ 4294967295 }
    ensures same { positions.new ≡ positions.old }
    ensures ok { OnOk result (output.new.items
        ≡ output.old.items ++ map (λ p. p + offset) (places 0 (take count (drop begin (listed positions.old))))) }
    ensures err { OnErr result (output.new.items ≡ output.old.items) }
    ensures full { OnErr result (vec_capacity output.old
        < length (output.old.items ++ map (λ p. p + offset) (places 0
        (take count (drop begin (listed positions.old)))))) }
    ensures room { vec_capacity output.old ≤ vec_capacity output.new }
{
    match positions {
        Some(reader) => reader.append_places(begin, count, offset, output),
        None => Ok(()),
    }
}

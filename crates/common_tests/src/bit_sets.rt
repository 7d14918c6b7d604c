//! Sets of numbers.

use common::BitSet;
use std::alloc::{AllocError, Global};
use std::test::Fail;

const NUMBERS: [u32; 5] = [1, 5, 6, 7, 5112];

/// A number, and the first one of the set from there on.
const FIRST: [(u32, Option<u32>); 9] = [
    (0, Some(1)),
    (3, Some(5)),
    (7, Some(7)),
    (8, Some(5112)),
    (5112, Some(5112)),
    (5113, None),
    (9999, None),
    (10000, None),
    (u32::MAX, None),
];

/// Puts the numbers into a set.
fn insert_all(set: &mut BitSet) {
    for number in NUMBERS {
        if number < set.max_value() {
            set.insert(number);
        }
    }
}

/// Whether a set has the numbers and no others, and finds the first from each on.
fn has_the_numbers(set: &BitSet) -> bool {
    let mut right = set.len() == 5 && set.max_value() == 10000;
    for number in 0..20000 {
        right &= set.contains(number) == NUMBERS.contains(&number);
    }
    for (from, first) in FIRST {
        right &= set.first_from(from) == first;
    }
    right
}

/// Whether numbers that are put in twice are there once.
fn numbers_are_held(alloc: Global) -> Result<bool, AllocError> {
    let mut set = BitSet::with_max_value(alloc, 10000)?;
    insert_all(&mut set);
    let once = has_the_numbers(&set);
    insert_all(&mut set);
    Ok(once && has_the_numbers(&set))
}

#[test]
fn numbers_of_a_set(rt: HostRuntime) -> Result<(), Fail> {
    assert!(rt; numbers_are_held(rt.alloc())?);
    Ok(())
}

/// Whether a cleared set has no number, and takes the numbers as a new one does.
fn cleared_sets_are_empty(alloc: Global) -> Result<bool, AllocError> {
    let mut set = BitSet::with_max_value(alloc, 10000)?;
    insert_all(&mut set);
    set.clear();
    let empty = set.len() == 0 && set.first_from(0).is_none();
    insert_all(&mut set);
    Ok(empty && has_the_numbers(&set))
}

#[test]
fn cleared_sets(rt: HostRuntime) -> Result<(), Fail> {
    assert!(rt; cleared_sets_are_empty(rt.alloc())?);
    Ok(())
}

/// Whether the greatest number of a full set, taken out twice, is gone, and no other.
fn greatest_is_taken_out(alloc: Global, greatest: u32) -> Result<bool, AllocError> {
    let mut set = BitSet::with_max_value_and_full(alloc, greatest.saturating_add(1))?;
    let full = set.len() == greatest as usize + 1
        && set.contains(greatest)
        && !set.contains(greatest.saturating_add(1));
    let mut right = full;
    for _ in 0..2 {
        if greatest < set.max_value() {
            set.remove(greatest);
        }
        right &= set.len() == greatest as usize;
    }
    Ok(right && !set.contains(greatest))
}

/// Whether this holds at the ends of words.
fn numbers_leave(alloc: Global) -> Result<bool, AllocError> {
    let mut right = true;
    for greatest in [0, 62, 63, 64, 127, 999] {
        right &= greatest_is_taken_out(alloc, greatest)?;
    }
    Ok(right)
}

#[test]
fn numbers_are_taken_out(rt: HostRuntime) -> Result<(), Fail> {
    assert!(rt; numbers_leave(rt.alloc())?);
    Ok(())
}

/// Whether a set without room has nothing.
fn nothing_is_held(alloc: Global) -> Result<bool, AllocError> {
    let set = BitSet::with_max_value(alloc, 0)?;
    Ok(set.len() == 0 && !set.contains(0) && set.first_from(0).is_none())
}

#[test]
fn a_set_without_room(rt: HostRuntime) -> Result<(), Fail> {
    assert!(rt; nothing_is_held(rt.alloc())?);
    Ok(())
}

//! Positions, ascending, each once.

ghost use Rattle.std.specs.Prelude.{◌++◌, ◌+◌, ◌<◌, ◌≡◌, ◌≤◌, OnErr, OnOk, filter, length, not, vec_capacity};
ghost use Rattle.docsets.specs.Distinct.{Ascends, distinct, holds};

use std::alloc::AllocError;

/// Sorts `numbers`, and drops repeats.
pub(crate) fn sort_once(numbers: &mut Vec<u32>)
    ensures items { numbers.new.items ≡ distinct numbers.old.items }
    ensures capacity { vec_capacity numbers.new ≡ vec_capacity numbers.old }
{
    numbers.sort_unstable();
    numbers.dedup();
}

/// Counts `numbers`, each once.
fn count_once(numbers: &[u32]) -> usize
    ensures { result ≡ length (distinct numbers.now) }
{
    let mut count = 0;
    for i in 0..numbers.len() {
        if !numbers[..i].contains(&numbers[i]) {
            count += 1;
        }
    }
    count
}

/// Removes from `numbers` those that `held` has.
fn leave_out(numbers: &mut Vec<u32>, held: &[u32])
    ensures items { numbers.new.items ≡ filter (λ n. not (holds held.now n)) numbers.old.items }
    ensures capacity { vec_capacity numbers.new ≡ vec_capacity numbers.old }
{
    numbers.retain(|n| !held.contains(n));
}

/// Makes room in `output` for `numbers`. If it lacks room for all, those that it has are removed from `numbers`.
fn make_room(output: &mut Vec<u32>, numbers: &mut Vec<u32>) -> Result<(), AllocError>
    requires { Ascends 0 numbers.old.items }
    ensures fits { OnOk result (length output.new.items + length numbers.new.items ≤ vec_capacity output.new) }
    ensures same { OnOk result (distinct (output.new.items ++ numbers.new.items)
        ≡ distinct (output.old.items ++ numbers.old.items)) }
    ensures err { OnErr result (output.new.items ≡ output.old.items) }
    ensures full { OnErr result (vec_capacity output.old < length (distinct (output.old.items ++ numbers.old.items))) }
    ensures room { vec_capacity output.old ≤ vec_capacity output.new }
    ensures kept { vec_capacity numbers.new ≡ vec_capacity numbers.old }
{
    if output.capacity() - output.len() >= numbers.len() {
        return Ok(());
    }
    let held = count_once(output);
    leave_out(numbers, output);
    if output.capacity() - held < numbers.len() {
        output.reserve(numbers.len())?;
        return Ok(());
    }
    sort_once(output);
    Ok(())
}

/// Adds `numbers` to `output`, which is sorted, and has repeats dropped. Allocates only if `output` lacks the room.
pub(crate) fn join(output: &mut Vec<u32>, numbers: &mut Vec<u32>) -> Result<(), AllocError>
    ensures ok { OnOk result (output.new.items ≡ distinct (output.old.items ++ numbers.old.items)) }
    ensures err { OnErr result (output.new.items ≡ output.old.items) }
    ensures full { OnErr result (vec_capacity output.old < length (distinct (output.old.items ++ numbers.old.items))) }
    ensures room { vec_capacity output.old ≤ vec_capacity output.new }
    ensures kept { vec_capacity numbers.new ≡ vec_capacity numbers.old }
{
    sort_once(numbers);
    make_room(output, numbers)?;
    output.extend_from_slice(numbers)?;
    sort_once(output);
    Ok(())
}

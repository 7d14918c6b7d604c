//! Laws of calls: what an answer says of what the call left.

ghost use Rattle.std.specs.Prelude.{⊤, ◌||◌, ◌≡◌, ◌≢◌, ◌⊎◌, Err, None, Ok, Option, Result, Some, false, true, ℕ};
ghost use Rattle.definitions.specs.Calls.{Call, Configuration, Index, Leaves, after, call_fault, closed, commit_pending, is_add, is_commit, is_merge, is_search, only_reads, status_fault, writer_closed};
ghost use Rattle.definitions.specs.declared.fault.Fault.{Fault};
ghost use Rattle.definitions.specs.declared.fault.Fault.TheVariants as faults;

/// No call is refused by its status or its own tests for want of memory, by a limit, a device or damage.
pub fn no_call_is_refused_by_a_failure()
    ensures memory { (c : Configuration) (x : Index) (call : Call) → call_fault c x call ≢ Some faults.OutOfMemory }
    ensures limit { (c : Configuration) (x : Index) (call : Call) → call_fault c x call ≢ Some faults.Limit }
    ensures device { (c : Configuration) (x : Index) (call : Call) → call_fault c x call ≢ Some faults.Device }
    ensures damaged { (c : Configuration) (x : Index) (call : Call) (gate : Option ℕ)
        → call_fault c x call ≢ Some (faults.Damaged gate) }
{}

/// An answer says what its call left. A call that answers Ok isn't refused, and leaves what comes after it. A fault that
/// no want, limit or device has is the call's own refusal and changes nothing. `Device` comes in a commit or a merge alone,
/// and closes the index. Lack of memory changes nothing but in an add or a commit, where it may close the writer: nothing
/// else but a limit that these meet does. `WriterClosed` is the answer of a closed writer to every call that writes, and
/// no other answer is.
pub fn what_a_call_leaves()
    ensures answered { (c : Configuration) (x y : Index) (call : Call) → Leaves c x call (Ok tt) y
        → (call_fault c x call ≡ None) × (y ≡ record { state = after c x.state call; status = x.status }) }
    ensures refused { (c : Configuration) (x y : Index) (call : Call) (fault : Fault) → Leaves c x call (Err fault) y
        → fault ≢ faults.OutOfMemory → fault ≢ faults.Limit → fault ≢ faults.Device → fault ≢ faults.Damaged None
        → (call_fault c x call ≡ Some fault) × (y ≡ x) }
    ensures device { (c : Configuration) (x y : Index) (call : Call) → Leaves c x call (Err faults.Device) y
        → ((is_commit call || is_merge call) ≡ true) × (y ≡ record { state = x.state; status = closed }) }
    ensures damaged { (c : Configuration) (x y : Index) (call : Call) → Leaves c x call (Err (faults.Damaged None)) y
        → ((is_search call || is_merge call) ≡ true) × (y ≡ x) }
    ensures limit { (c : Configuration) (x y : Index) (call : Call) → Leaves c x call (Err faults.Limit) y
        → (((is_add call || is_merge call) ≡ true) × (y ≡ x))
        ⊎ (((is_add call || is_commit call) ≡ true) × (y ≡ record { state = x.state; status = writer_closed })) }
    ensures no_room { (c : Configuration) (x y : Index) (call : Call) → Leaves c x call (Err faults.OutOfMemory) y
        → ((status_fault x.status (only_reads call) ≡ None) × (is_commit call ≡ false) × (y ≡ x))
        ⊎ ((call_fault c x call ≡ None) × ((is_add call || is_commit call) ≡ true)
        × (y ≡ record { state = x.state; status = writer_closed })) }
    ensures memory_in_a_commit { (c : Configuration) (x y : Index)
        → Leaves c x commit_pending (Err faults.OutOfMemory) y
        → y ≡ record { state = x.state; status = writer_closed } }
    ensures state { (c : Configuration) (x y : Index) (call : Call) (fault : Fault) → Leaves c x call (Err fault) y
        → y.state ≡ x.state }
    ensures reads { (c : Configuration) (x y : Index) (call : Call) (answer : Result ⊤ Fault)
        → Leaves c x call answer y → only_reads call ≡ true → y ≡ x }
    ensures writer_closed { (c : Configuration) (x y : Index) (call : Call)
        → Leaves c x call (Err faults.WriterClosed) y
        → (x.status ≡ writer_closed) × (only_reads call ≡ false) × (y ≡ x) }
    ensures by_a_closed_writer { (c : Configuration) (x y : Index) (call : Call) (answer : Result ⊤ Fault)
        → Leaves c x call answer y
        → x.status ≡ writer_closed → only_reads call ≡ false → (answer ≡ Err faults.WriterClosed) × (y ≡ x) }
    ensures closing_the_writer { (c : Configuration) (x y : Index) (call : Call) (answer : Result ⊤ Fault)
        → Leaves c x call answer y
        → y.status ≡ writer_closed
        → (x.status ≡ writer_closed) ⊎ (((is_add call || is_commit call) ≡ true)
        × ((answer ≡ Err faults.OutOfMemory) ⊎ (answer ≡ Err faults.Limit))) }
    ensures closed { (c : Configuration) (x y : Index) (call : Call) (answer : Result ⊤ Fault)
        → Leaves c x call answer y → x.status ≡ closed → (answer ≡ Err faults.Closed) × (y ≡ x) }
{}

//! What a read gives after writes, and what a crash may leave of calls that aren't synced.

ghost use Rattle.std.specs.Prelude.{⊤, ◌-◌, ◌^◌, ◌≡◌, Err, Ok, codes, ℕ};
ghost use Rattle.definitions.specs.Disk.{HasCause, IsEither, IsImage, IsPartly, overwritten, settled, shortened, written};
ghost use Rattle.definitions.specs.declared.fault.Fault.TheVariants as faults;

/// A write lies over what stood there, and may go past the end.
pub fn writes_lie_over_what_stood_there()
    ensures inside { overwritten 1 (codes "X") (codes "abc") ≡ codes "aXc" }
    ensures over_the_end { overwritten 2 (codes "XY") (codes "abc") ≡ codes "abXY" }
    ensures at_the_end { overwritten 3 (codes "X") (codes "abc") ≡ codes "abcX" }
    ensures nothing { overwritten 1 (codes "") (codes "abc") ≡ codes "abc" }
{}

/// Of a write a crash may leave any byte in its range, and any length between those before it and after it.
pub fn part_of_a_write_may_be_left()
    ensures before { IsImage (codes "abXY") (written 2 2 (settled 3)) (codes "abc") }
    ensures after { IsImage (codes "abXY") (written 2 2 (settled 3)) (codes "abXY") }
    ensures in_part { IsImage (codes "abXY") (written 2 2 (settled 3)) (codes "ab?") }
    ensures outside { ¬ IsImage (codes "abXY") (written 2 2 (settled 3)) (codes "a?XY") }
    ensures shorter { ¬ IsImage (codes "abXY") (written 2 2 (settled 3)) (codes "ab") }
    ensures longer { ¬ IsImage (codes "abXY") (written 2 2 (settled 3)) (codes "abXYZ") }
{}

/// Of a cut a crash may leave any length between those before it and after it, with any byte past the cut.
pub fn part_of_a_cut_may_be_left()
    ensures before { IsImage (codes "ab") (shortened 2 (settled 4)) (codes "abcd") }
    ensures after { IsImage (codes "ab") (shortened 2 (settled 4)) (codes "ab") }
    ensures in_part { IsImage (codes "ab") (shortened 2 (settled 4)) (codes "ab?") }
    ensures outside { ¬ IsImage (codes "ab") (shortened 2 (settled 4)) (codes "a?") }
    ensures shorter { ¬ IsImage (codes "ab") (shortened 2 (settled 4)) (codes "a") }
    ensures longer { ¬ IsImage (codes "ab") (shortened 2 (settled 4)) (codes "abcde") }
{}

/// After a write that failed a read may give each byte as before or as asked, but no other one.
pub fn part_of_a_failed_write_may_be_read()
    ensures before { IsPartly (codes "abc") (codes "aXYZ") (codes "abc") }
    ensures after { IsPartly (codes "abc") (codes "aXYZ") (codes "aXYZ") }
    ensures torn { IsPartly (codes "abc") (codes "aXYZ") (codes "aXcZ") }
    ensures other_byte { ¬ IsPartly (codes "abc") (codes "aXYZ") (codes "aQcZ") }
    ensures other_place { ¬ IsPartly (codes "abc") (codes "aXYZ") (codes "XbcZ") }
    ensures shorter { ¬ IsPartly (codes "abc") (codes "aXYZ") (codes "ab") }
    ensures longer { ¬ IsPartly (codes "abc") (codes "aXYZ") (codes "aXYZZ") }
{}

/// After a cut that failed a read may give any length between those before it and after it, with the bytes before it.
pub fn part_of_a_failed_cut_may_be_read()
    ensures before { IsPartly (codes "abcd") (codes "ab") (codes "abcd") }
    ensures after { IsPartly (codes "abcd") (codes "ab") (codes "ab") }
    ensures in_part { IsPartly (codes "abcd") (codes "ab") (codes "abc") }
    ensures other_byte { ¬ IsPartly (codes "abcd") (codes "ab") (codes "abX") }
    ensures shorter { ¬ IsPartly (codes "abcd") (codes "ab") (codes "a") }
{}

/// One of two is the first or the second.
pub fn one_of_two_is_either()
    ensures first { IsEither {T = ℕ} 1 2 1 }
    ensures second { IsEither {T = ℕ} 1 2 2 }
    ensures neither { ¬ IsEither {T = ℕ} 1 2 3 }
{}

/// `Device` is answered only where the count of failures rose, or can't rise.
pub fn device_is_answered_where_the_failures_rose()
    ensures rose { HasCause {T = ⊤} 3 4 (Err faults.Device) }
    ensures stood { ¬ HasCause {T = ⊤} 3 3 (Err faults.Device) }
    ensures one_below_the_last { ¬ HasCause {T = ⊤} (2 ^ 64 - 2) (2 ^ 64 - 2) (Err faults.Device) }
    ensures last { HasCause {T = ⊤} (2 ^ 64 - 1) (2 ^ 64 - 1) (Err faults.Device) }
    ensures another_fault { HasCause {T = ⊤} 3 3 (Err faults.Limit) }
    ensures done { HasCause {T = ⊤} 3 3 (Ok tt) }
    ensures fell { ¬ HasCause {T = ⊤} 4 3 (Ok tt) }
{}

//! The indices of kept segments in the list before.

ghost use Rattle.std.specs.Prelude.{◌≡◌, map};
ghost use Rattle.index_file.specs.Parts.{part_of};
ghost use Rattle.index_file.specs.Places.{places_rise};

use crate::part::Part;

/// Returns whether the indices of kept segments ascend strictly, so that none is there twice, each below `len_before`.
pub fn places_follow(parts: &[Part<'_>], len_before: usize) -> bool
    ensures { result ≡ places_rise 0 len_before (map part_of parts.now) }
{
    let mut least = 0;
    for part in parts {
        if let Part::Kept(index) = part {
            let index = *index as usize;
            if index < least || index >= len_before {
                return false;
            }
            least = index + 1;
        }
    }
    true
}

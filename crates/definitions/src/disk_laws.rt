//! Laws of what a crash may leave on a disk.

ghost use Rattle.std.specs.Prelude.{◌<◌, ◌≡◌, ◌≤◌, List, length, slice_index, take, ℕ};
ghost use Rattle.definitions.specs.Disk.{IsImage, Unsynced, overwritten, settled, shortened, written};

/// After a sync a crash leaves what a read gives.
pub fn a_sync_leaves_one_image()
    ensures { (content image : List ℕ) → IsImage content (settled (length content)) image → image ≡ content }
{}

/// What a crash may leave before a write or a cut it may leave after it too, and a sync adds nothing: so a crash within a
/// call leaves what one before it or after it may leave.
pub fn only_a_sync_takes_images_away()
    ensures write { (at : ℕ) (bytes content : List ℕ) (u : Unsynced) → at ≤ length content → IsImage content u content
        → (image : List ℕ) → IsImage content u image
        → IsImage (overwritten at bytes content) (written at (length bytes) u) image }
    ensures cut { (len : ℕ) (content : List ℕ) (u : Unsynced) → len ≤ length content → (image : List ℕ)
        → IsImage content u image → IsImage (take len content) (shortened len u) image }
    ensures sync { (content : List ℕ) (u : Unsynced) → IsImage content u content → (image : List ℕ)
        → IsImage content (settled (length content)) image → IsImage content u image }
{}

/// A crash may leave what a read gives, after each call.
pub fn what_is_read_is_an_image()
    ensures write { (at : ℕ) (bytes content : List ℕ) (u : Unsynced) → at ≤ length content → IsImage content u content
        → ((i : ℕ) → slice_index bytes i < 256)
        → IsImage (overwritten at bytes content) (written at (length bytes) u) (overwritten at bytes content) }
    ensures cut { (len : ℕ) (content : List ℕ) (u : Unsynced) → len ≤ length content → IsImage content u content
        → IsImage (take len content) (shortened len u) (take len content) }
    ensures sync { (content : List ℕ) (u : Unsynced) → IsImage content u content
        → IsImage content (settled (length content)) content }
{}

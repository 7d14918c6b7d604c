//! The index of a field among ascending fields.

ghost use Rattle.std.specs.Prelude.{length, slice_index, ◌<◌, ◌≡◌, ◌≢◌, IfNone, IfSome, ℕ};
ghost use Rattle.layouts.specs.Deltas.{IsAscendingFrom};

/// Returns the index of `field`, where it is one of `fields`.
pub(crate) fn index_of(fields: &[u32], field: u32) -> Option<usize>
    requires { IsAscendingFrom 0 fields.now }
    ensures found { IfSome result (λ i. (i < length fields.now) × (slice_index fields.now i ≡ field)) }
    ensures none { IfNone result ((i : ℕ) → i < length fields.now → slice_index fields.now i ≢ field) }
{
    fields.binary_search(&field).ok()
}

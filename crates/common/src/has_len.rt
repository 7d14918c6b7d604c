//! Things that have a length.

ghost use Rattle.std.specs.Prelude.{◌==◌, ◌≡◌, ℕ};

/// Types whose length is known without a walk.
pub trait HasLen {
    ghost count: { Self → ℕ };

    /// Returns the number of elements.
    fn len(&self) -> usize
        ensures { result ≡ count self.now };

    /// Whether there are no elements.
    fn is_empty(&self) -> bool
        ensures { result ≡ (count self.now == 0) }
    {
        self.len() == 0
    }
}

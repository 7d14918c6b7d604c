//! Flags, which are joined by `|` to the options of fields.
ghost use Rattle.std.specs.Prelude.{◌≡◌};

use std::ops::BitOr;

/// Values are stored with their documents.
#[derive(Clone, Copy, Debug)]
pub struct StoredFlag;

/// Documents are found by their values, and lengths are kept.
#[derive(Clone, Copy, Debug)]
pub struct IndexedFlag;

/// Texts are read as numbers, and numbers as texts, where a field takes the other.
#[derive(Clone, Copy, Debug)]
pub struct CoerceFlag;

/// Kept as data, without effect.
#[derive(Clone, Copy, Debug)]
pub struct FastFlag;

/// A list of flags, the last one first.
#[derive(Clone, Copy, Debug)]
pub struct SchemaFlagList<Head, Tail> {
    pub head: Head,
    pub tail: Tail,
}

/// Values are stored with their documents.
pub const STORED: SchemaFlagList<StoredFlag, ()> = SchemaFlagList {
    head: StoredFlag,
    tail: (),
};

/// Documents are found by their values, and lengths are kept.
pub const INDEXED: SchemaFlagList<IndexedFlag, ()> = SchemaFlagList {
    head: IndexedFlag,
    tail: (),
};

/// Texts are read as numbers, and numbers as texts, where a field takes the other.
pub const COERCE: SchemaFlagList<CoerceFlag, ()> = SchemaFlagList {
    head: CoerceFlag,
    tail: (),
};

/// Kept as data, without effect.
pub const FAST: SchemaFlagList<FastFlag, ()> = SchemaFlagList {
    head: FastFlag,
    tail: (),
};

impl<OldHead, OldTail, Head> BitOr<SchemaFlagList<Head, ()>> for SchemaFlagList<OldHead, OldTail> {
    type Output = SchemaFlagList<Head, SchemaFlagList<OldHead, OldTail>>;

    ghost bitor_gives = { λ flags flag both. both ≡ record { head = flag.head; tail = flags } };

    fn bitor(
        self,
        flag: SchemaFlagList<Head, ()>,
    ) -> SchemaFlagList<Head, SchemaFlagList<OldHead, OldTail>> {
        SchemaFlagList {
            head: flag.head,
            tail: self,
        }
    }
}

/// A flag of the options `Options`, or a list of such flags.
pub trait SetsIn<Options> {
    ghost options_with: { Self → Options → Options };

    /// Sets the flags in `options`.
    fn set_in(self, options: Options) -> Options
        ensures { result ≡ options_with self options };
}

impl<Options> SetsIn<Options> for () {
    ghost options_with = { λ _ o. o };

    fn set_in(self, options: Options) -> Options {
        options
    }
}

impl<Options, Head: SetsIn<Options>, Tail: SetsIn<Options>> SetsIn<Options>
    for SchemaFlagList<Head, Tail> {
    ghost options_with = { λ flags o. Head.options_with flags.head (Tail.options_with flags.tail o) };

    fn set_in(self, options: Options) -> Options {
        self.head.set_in(self.tail.set_in(options))
    }
}

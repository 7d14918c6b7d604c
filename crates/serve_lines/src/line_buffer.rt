//! One line of the input, while it is read.

ghost use Rattle.std.specs.Prelude.{◌≡◌, ℕ, ◌≤◌, ◌⊎◌, ◌↔◌, List, [], None, Some, IfOk, IfErr, IsTrue, vec_len};
ghost use Rattle.definitions.specs.Lines.{max_line_len};

use definitions::Fault;
use simdutf8::from_utf8_baseline;
use std::alloc::Global;

const MAX_LINE_LEN: usize = 16777216;

/// What is kept of a line.
#[derive(Clone, Copy, Debug, PartialEq, Eq)]
pub(crate) enum Keeping {
    /// All of its bytes.
    Whole,
    /// None of them: it is longer than a line may be.
    TooLong,
    /// None of them: out of memory.
    NoMemory,
}

/// The bytes of one line. Their memory is used for the next line too.
#[derive(Drop)]
pub(crate) struct LineBuffer {
    pub(crate) bytes: Vec<u8>,
    pub(crate) keeping: Keeping,
    /// Whether the reader showed nothing beyond what was taken last, so that the next look at it
    /// may wait for more input.
    pub(crate) may_wait: bool,
    ghost within: { vec_len bytes ≤ max_line_len },
}

impl LineBuffer {
    ghost use Rattle.serve_lines.specs.Reading.{Adds, Holds};
    ghost use Rattle.definitions.specs.Replying.{line_refusal};
    ghost use Rattle.definitions.specs.declared.fault.Fault.TheVariants.{OutOfMemory};

    pub(crate) fn new(alloc: Global) -> Self {
        LineBuffer {
            bytes: Vec::new(alloc),
            keeping: Keeping::Whole,
            may_wait: true,
        }
    }

    /// Begins a line. The memory of the last one is kept.
    pub(crate) fn clear(&mut self)
        ensures { Holds self.new [] }
    {
        self.bytes.clear();
        self.keeping = Keeping::Whole;
    }

    /// Appends `part` to the bytes seen so far.
    pub(crate) fn add(&mut self, part: &[u8])
        ensures { Adds self.old self.new part.now }
    {
        if self.keeping != Keeping::Whole {
            return;
        }
        if part.len() > MAX_LINE_LEN - self.bytes.len() {
            self.bytes.clear();
            self.keeping = Keeping::TooLong;
        } else if self.bytes.extend_from_slice(part).is_err() {
            self.bytes.clear();
            self.keeping = Keeping::NoMemory;
        }
    }

    /// Whether no byte of the line was seen.
    pub(crate) fn is_empty(&self) -> bool
        ensures { (seen : List ℕ) → Holds self.now seen → IsTrue result ↔ (seen ≡ []) }
    {
        self.keeping == Keeping::Whole && self.bytes.is_empty()
    }

    /// Returns the line's text, or the refusal that answers it.
    pub(crate) fn text(&self) -> Result<&str, Fault>
        ensures ok { (seen : List ℕ) → Holds self.now seen
            → IfOk result (λ text. (text.now ≡ seen) × (line_refusal seen ≡ None)) }
        ensures err { (seen : List ℕ) → Holds self.now seen
            → IfErr result (λ fault. (fault ≡ OutOfMemory) ⊎ (line_refusal seen ≡ Some fault)) }
    {
        match self.keeping {
            Keeping::Whole => match from_utf8_baseline(&self.bytes) {
                Ok(text) => Ok(text),
                Err(_) => Err(Fault::BadRequest),
            },
            Keeping::TooLong => Err(Fault::LineTooLong),
            Keeping::NoMemory => Err(Fault::OutOfMemory),
        }
    }
}

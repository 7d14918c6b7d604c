//! Sinks of documents in blocks, without scores.

ghost use Rattle.std.specs.Prelude.{[], ◌≡◌, ◌≤◌, length, map};
ghost use Rattle.walks.specs.Blocks.{IsFedInBlocks};

use common::{DocId, TERMINATED};
use docsets::{COLLECT_BLOCK_BUFFER_LEN, DocSet};

/// A sink of documents in blocks, without scores.
pub trait BlockSink {
    ghost use Rattle.std.specs.Prelude.{List, ℕ};

    /// The state of a sink. No value of it is made.
    type State;

    // The state of the sink.
    ghost state: { Self → Self.State };

    // The state after one more block.
    ghost taken: { Self.State → List ℕ → Self.State };

    /// Takes a block of `docs`, at least one.
    fn collect_block(&mut self, docs: &[DocId])
        requires { 1 ≤ length docs.now }
        ensures { state self.new ≡ taken (state self.old) docs.now };
}

/// Feeds all documents of `docset` to `sink`, in order, in blocks of at most 64.
pub fn for_each_docset_buffered<D: DocSet, K: BlockSink>(docset: &mut D, sink: &mut K)
    ensures fed { IsFedInBlocks K.taken (K.state sink.old) (map (λ e. e.doc) (D.entries docset.old))
        (K.state sink.new) }
    ensures done { D.entries docset.new ≡ [] }
{
    let mut buffer = [0; COLLECT_BLOCK_BUFFER_LEN];
    while docset.doc() != TERMINATED {
        let filled = docset.fill_buffer(&mut buffer);
        sink.collect_block(&buffer[..filled]);
    }
}

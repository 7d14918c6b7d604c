//! The replacement of segments by one.

ghost use Rattle.std.specs.Prelude.{◌<◌, ◌≡◌, ◌≤◌, length, option_to_list};
ghost use Rattle.index_state.specs.Merges.{replaced};

use segment::Segment;

/// Replaces `segments[from..to]` by `segment`, or by none. It takes no memory.
pub(crate) fn replace_range(
    segments: &mut Vec<Segment>,
    from: usize,
    to: usize,
    segment: Option<Segment>,
)
    requires some { from < to }
    requires within { to ≤ length segments.old.items }
    ensures { segments.new.items ≡ replaced from to (option_to_list segment) segments.old.items }
{
    let Some(segment) = segment else {
        segments.drain(from..to);
        return;
    };
    segments[from] = segment;
    segments.drain(from + 1..to);
}

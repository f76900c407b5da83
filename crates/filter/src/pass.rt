// What the carriers' filters share in one pass. The struct's ghost fields say that its parts fit one another.

ghost use Rattle.std.specs.Prelude.{◌≡◌, ◌*◌, ◌<◌, length};
ghost use Rattle.level.specs.Lengths.{memory_length};
ghost use Rattle.track.specs.Append.{span_end};
ghost use Rattle.fir.specs.Fir.{IsTaps};
ghost use Rattle.filter.specs.Filtered.{FilterFits};

use crate::Spans;
use level::Layout;
use track::Span;

// n > 0 new values for each carrier, from position `next` on, where the tracks of those spans end: by a turn book and
// the receiver's taps of the layout, of a sample track of that span.
#[derive(Clone, Copy)]
pub struct Pass<'a> {
    pub layout: Layout,
    pub book: &'a [f64],
    pub taps: &'a [f64],
    pub samples: Span,
    pub spans: Spans,
    pub next: u64,
    pub n: usize,
    ghost fits: { FilterFits layout (2 * memory_length layout) (length book.now) samples spans n },
    ghost taps_are: { IsTaps layout taps.now },
    ghost next_is: { next ≡ span_end spans.filtered },
    ghost some: { 0 < n },
}

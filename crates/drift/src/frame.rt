// What the symbols by drift rows are read from. The struct's ghost fields say that its parts fit one another.

ghost use Rattle.std.specs.Prelude.{length};
ghost use Rattle.fir.specs.Fir.{IsTaps};
ghost use Rattle.drift.specs.Rows.{SamplesFit, DriftRows};

use dat::PhasorTable;
use refusal::Position;
use track::Span;

// A frame at t: its samples, a track of that span in a receiver's memory, the drift rows that turn them, the receiver's
// taps of the layout, and the phasors. Memory, rows and phasors are complex numbers, two f64 each.
#[derive(Clone, Copy)]
pub struct DriftFrame<'a> {
    pub phasors: PhasorTable<'a>,
    pub memory: &'a [f64],
    pub samples: Span,
    pub rows: &'a [f64],
    pub taps: &'a [f64],
    pub t: Position,
    ghost samples_fit: { SamplesFit phasors.layout (length memory.now) samples },
    ghost rows_fit: { DriftRows phasors.layout rows.now t.0 },
    ghost taps_are: { IsTaps phasors.layout taps.now },
}

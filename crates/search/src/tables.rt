// What chi reads: the tracks in the memory, and where in them the marks and the kept cells stand.

use dot::Table;
use refusal::Position;
use track::Span;

// The memory, and the spans of its tracks of steps and of their powers, which are the same for all carriers.
#[derive(Clone, Copy)]
pub struct Tracks<'a> {
    pub memory: &'a [f64],
    pub step: Span,
    pub power: Span,
}

// The tables of chi's two sums over a memory, each with a row for every carrier, and the tracks' base.
#[derive(Clone, Copy)]
pub struct FlatTables<'m, 'a> {
    pub memory: &'m [f64],
    pub marks: Table<'a>,
    pub cells: Table<'a>,
    pub carriers: usize,
    pub base: Position,
}

// What a sender and its receiver share.
ghost use Rattle.std.specs.Prelude.{◌≡◌, ◌+◌, ◌*◌, ◌<◌, ◌≤◌, length, vec_len, IfOk};
ghost use Rattle.level.specs.Rows.{IsLayout};
ghost use Rattle.level.specs.Sized.{Sized};
ghost use Rattle.replay_inputs.specs.Table.{entries, row_numbers};

use crate::generator::Generator;
use crate::lent::LentTables;
use complex::Complex;
use level::Layout;
use std::alloc::{AllocError, Global};

// The layout, the turn book, the marker table and the phasors.
#[derive(Drop)]
pub struct Tables {
    pub layout: Layout,
    pub book: Vec<f64>,
    pub markers: Vec<u16>,
    pub phasors: Vec<f64>,
    ghost is_layout: { IsLayout layout },
}

impl Tables {
    // The tables of a layout, carrier by carrier from the generator.
    pub fn drawn(alloc: Global, l: Layout, generator: &mut Generator) -> Result<Tables, AllocError>
        requires { IsLayout l }
        ensures { IfOk result (λ t. (t.layout ≡ l) × (vec_len t.book ≡ 6000)) }
    {
        let mut book = vec![in alloc; 0.0; 6000]?;
        let mut markers = vec![in alloc; 0u16; entries(l)]?;
        let mut phasors = vec![in alloc; 0.0; 2 * (l.nc * l.nsym)]?;
        draw(l, generator, &mut book, &mut markers, &mut phasors);
        Ok(Tables {
            layout: l,
            book,
            markers,
            phasors,
        })
    }

    pub fn lent(&self) -> LentTables<'_>
        ensures { (result.layout ≡ self.now.layout) × (length result.book.now ≡ vec_len self.now.book) }
    {
        LentTables {
            layout: self.layout,
            book: &self.book,
            markers: &self.markers,
            phasors: &self.phasors,
        }
    }
}

// The turn book, then the marker table and the phasors of a layout from the generator, as many as there is room for.
pub fn draw(
    l: Layout,
    generator: &mut Generator,
    book: &mut [f64],
    markers: &mut [u16],
    phasors: &mut [f64],
)
    requires { Sized l × (length book.old ≡ 6000) × (length markers.old ≡ entries l) }
{
    turn_book(book);
    draw_markers(l, generator, markers);
    draw_phasors(book, generator, phasors);
}

// The turn book: 3,000 numbers of size 0.9999, each turned by -2π / 3000 from the one before.
fn turn_book(out: &mut [f64])
    requires { length out.old ≡ 6000 }
{
    let turn = Complex {
        re: 0.9999978067553793,
        im: -0.002094393571219374,
    };
    let mut z = Complex {
        re: 0.9999,
        im: 0.0,
    };
    for k in 0..3000 {
        complex::put(out, k, z);
        z = z * turn;
    }
}

// The entries of a marker table: a value and a flag for each marker and symbol of each carrier.
pub fn entries(l: Layout) -> usize
    requires { Sized l }
    ensures { result ≡ entries l }
{
    l.nc * (l.markers + l.nsym)
}

// The numbers of the rows of so many frames.
pub fn row_numbers(l: Layout, frames: usize) -> usize
    requires { IsLayout l × (frames ≤ 4) }
    ensures { result ≡ row_numbers l frames }
{
    2 * (l.nc * l.row_len(frames))
}

// Marker value i of a carrier: a draw from the i-th of as many equal parts of the frame as there are markers.
fn value(l: Layout, i: usize, generator: &mut Generator) -> usize
    requires { Sized l × (i < l.markers) }
    ensures { (5 ≤ result) × (result + 4 ≤ l.spf) }
{
    let q = (l.spf - 8) / l.markers;
    5 + i * q + generator.draw(q)
}

// Value v of carrier c at place i, and its flag.
fn mark(l: Layout, c: usize, i: usize, v: usize, out: &mut [u16])
    requires { Sized l × (c < l.nc) × (i < l.markers) × (5 ≤ v) × (v + 4 ≤ l.spf)
        × (length out.old ≡ entries l) }
{
    out[c * l.markers + i] = v as u16;
    out[l.nc * l.markers + (c * l.nsym + (v - 2))] = 1;
}

// The marker table of a layout, in entries that are all 0.
pub fn draw_markers(l: Layout, generator: &mut Generator, out: &mut [u16])
    requires { Sized l × (length out.old ≡ entries l) }
{
    for c in 0..l.nc {
        for i in 0..l.markers {
            let v = value(l, i, generator);
            mark(l, c, i, v, out);
        }
    }
}

// As many phasors as there is room for, each an entry of the turn book.
fn draw_phasors(book: &[f64], generator: &mut Generator, out: &mut [f64])
    requires { length book.now ≡ 6000 }
{
    for k in 0..out.len() / 2 {
        let entry = generator.draw(3000);
        complex::put(out, k, complex::get(book, entry));
    }
}

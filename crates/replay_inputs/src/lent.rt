// What is sent, over lent memory: a heap's, or a program's own arrays, where it takes nothing from the heap.
ghost use Rattle.std.specs.Prelude.{◌≡◌, ◌*◌, ◌<◌, ◌≤◌, length, IfOk};
ghost use Rattle.refusal.specs.Outcome.{answered};
ghost use Rattle.level.specs.Layout.{chosen};
ghost use Rattle.level.specs.Rows.{IsLayout};
ghost use Rattle.carrier_rows.specs.Symbols.{sending};
ghost use Rattle.psk.specs.Send.{Modulated};
ghost use Rattle.replay_inputs.specs.Table.{row_numbers};

use crate::generator::Generator;
use crate::tables;
use complex::Complex;
use level::Layout;
use refusal::Refusal;

// How many samples late a signal is.
const LEAD: usize = 700;

// A layout and its tables.
#[derive(Clone, Copy)]
pub struct LentTables<'a> {
    pub layout: Layout,
    pub book: &'a [f64],
    pub markers: &'a [u16],
    pub phasors: &'a [f64],
    ghost is_layout: { IsLayout layout },
}

impl<'a> LentTables<'a> {
    // Sends frames of drawn bits: the payload and draws are filled one after the other from the generator.
    pub fn send(
        &self,
        frames: usize,
        generator: &mut Generator,
        payload: &mut [u8],
        draws: &mut [u8],
        rows: &mut [f64],
    ) -> Result<(), Refusal>
        requires { frames ≤ 4 }
        ensures { Modulated self.now.layout.bandwidth self.now.layout.rec (sending self.now.markers.now
            self.now.phasors.now frames payload.new draws.new) rows.old rows.new result }
    {
        let l = self.layout;
        generator.fill(2, payload);
        generator.fill(if l.bps == 1 { 2 } else { 4 }, draws);
        psk::modulate(
            l.bandwidth,
            l.rec,
            self.markers,
            self.phasors,
            frames as u32,
            payload,
            draws,
            rows,
        )
    }
}

// What is sent, by which tables, and the generator after its draws.
#[derive(Clone, Copy)]
pub struct LentSending<'a> {
    pub tables: LentTables<'a>,
    pub frames: usize,
    pub rows: &'a [f64],
    pub generator: Generator,
    ghost book_len: { length tables.book.now ≡ 6000 },
    ghost frames_most: { frames ≤ 4 },
    ghost rows_len: { length rows.now ≡ row_numbers tables.layout frames },
}

impl<'a> LentSending<'a> {
    // What carrier c brings to sample n: its row's symbol for 32 samples each, the lead and its stagger late, turned
    // to the carrier.
    fn carrier_part(&self, c: usize, n: usize) -> Complex
        requires { c < self.now.tables.layout.nc }
    {
        let l = self.tables.layout;
        let from = LEAD + l.stagger(c) as usize;
        let len = l.row_len(self.frames);
        if n < from || len <= (n - from) / 32 {
            return complex::zero();
        }
        let turn = l.carrier_hz(c) * (n % 3000) as u64 % 3000;
        let w = complex::get(self.tables.book, turn as usize).conj();
        complex::get(self.rows, c * len + (n - from) / 32) * w
    }

    // Sample n with no noise: the carriers' parts in order.
    pub fn sample(&self, n: usize) -> Complex {
        let mut z = complex::zero();
        for c in 0..self.tables.layout.nc {
            z = z + self.carrier_part(c, n);
        }
        z
    }

    // As many samples as there is room for, two numbers each, with noise on each number.
    pub fn noisy(&self, out: &mut [f64]) {
        for n in 0..out.len() / 2 {
            complex::put(out, n, self.sample(n));
        }
        let mut generator = self.generator;
        generator.add_noise(out);
    }
}

// Memory for what is sent: of each at least what the layout and the frames ask.
pub struct Room<'a> {
    pub book: &'a mut [f64],
    pub markers: &'a mut [u16],
    pub phasors: &'a mut [f64],
    pub payload: &'a mut [u8],
    pub draws: &'a mut [u8],
    pub rows: &'a mut [f64],
}

// The first n of a memory's numbers; refused where it has fewer.
pub fn first<'a, T>(memory: &'a mut [T], n: usize) -> Result<&'a mut [T], Refusal>
    ensures { IfOk result (λ part. length part.now ≡ n) }
{
    if memory.len() < n {
        return Err(Refusal::Buffer);
    }
    Ok(&mut memory[..n])
}

impl<'a> Room<'a> {
    // Frames in the layout of a bandwidth and a record, from seed 1 on: the tables, payload and draws one after the
    // other. Too little memory is refused.
    pub fn send(self, bandwidth: u32, rec: u32, frames: usize) -> Result<LentSending<'a>, Refusal>
        requires { frames ≤ 4 }
        ensures { IfOk result (λ s. (chosen bandwidth rec ≡ answered s.tables.layout) × (s.frames ≡ frames)) }
    {
        let Room {
            book,
            markers,
            phasors,
            payload,
            draws,
            rows,
        } = self;
        let l = level::choose(bandwidth, rec)?;
        let book = first(book, 6000)?;
        let markers = first(markers, tables::entries(l))?;
        let phasors = first(phasors, 2 * (l.nc * l.nsym))?;
        let payload = first(payload, frames * l.n)?;
        let draws = first(draws, l.nc * (8 + frames))?;
        let rows = first(rows, tables::row_numbers(l, frames))?;
        let mut generator = Generator { state: 1 };
        tables::draw(l, &mut generator, book, markers, phasors);
        let tables = LentTables {
            layout: l,
            book,
            markers,
            phasors,
        };
        tables.send(frames, &mut generator, payload, draws, rows)?;
        Ok(LentSending {
            tables,
            frames,
            rows,
            generator,
        })
    }
}

// Frames of drawn bits as symbol rows, and these as samples, 700 samples late.
ghost use Rattle.std.specs.Prelude.{◌≡◌, ◌*◌, ◌<◌, ◌≤◌, length, vec_len, IfOk};
ghost use Rattle.level.specs.Rows.{IsLayout};
ghost use Rattle.replay_inputs.specs.Table.{row_numbers};

use crate::failure::Failure;
use crate::generator::Generator;
use crate::lent::LentSending;
use crate::tables::{Tables, row_numbers};
use std::alloc::{AllocError, Global};

// What is sent, by which tables, and the generator after its draws.
#[derive(Drop)]
pub struct Sending {
    pub tables: Tables,
    pub frames: usize,
    pub payload: Vec<u8>,
    pub rows: Vec<f64>,
    pub generator: Generator,
    ghost book_len: { vec_len tables.book ≡ 6000 },
    ghost frames_most: { frames ≤ 4 },
    ghost rows_len: { vec_len rows ≡ row_numbers tables.layout frames },
}

impl Sending {
    // Frames in the layout of a bandwidth and a record, from seed 1 on: the tables, payload and draws one after the
    // other.
    pub fn new(alloc: Global, bandwidth: u32, rec: u32, frames: usize) -> Result<Sending, Failure>
        requires { frames ≤ 4 }
    {
        let l = level::choose(bandwidth, rec)?;
        let mut generator = Generator { state: 1 };
        let tables = Tables::drawn(alloc, l, &mut generator)?;
        let mut payload = vec![in alloc; 0u8; frames * l.n]?;
        let mut draws = vec![in alloc; 0u8; l.nc * (8 + frames)]?;
        let mut rows = vec![in alloc; 0.0; row_numbers(l, frames)]?;
        tables.lent().send(frames, &mut generator, &mut payload, &mut draws, &mut rows)?;
        Ok(Sending {
            tables,
            frames,
            payload,
            rows,
            generator,
        })
    }

    fn lent(&self) -> LentSending<'_> {
        LentSending {
            tables: self.tables.lent(),
            frames: self.frames,
            rows: &self.rows,
            generator: self.generator,
        }
    }

    // So many samples with no noise, two numbers each.
    pub fn clean(&self, alloc: Global, samples: usize) -> Result<Vec<f64>, AllocError>
        ensures { IfOk result (λ v. vec_len v ≡ 2 * samples) }
    {
        let sent = self.lent();
        let mut out = Vec::new(alloc);
        for n in 0..samples {
            let z = sent.sample(n);
            out.push(z.re)?;
            out.push(z.im)?;
        }
        Ok(out)
    }

    // The same with noise on each number.
    pub fn noisy(&self, alloc: Global, samples: usize) -> Result<Vec<f64>, AllocError>
        ensures { IfOk result (λ v. vec_len v ≡ 2 * samples) }
    {
        let mut out = self.clean(alloc, samples)?;
        let mut generator = self.generator;
        generator.add_noise(&mut out);
        Ok(out)
    }
}

// The generator of all inputs.
ghost use Rattle.std.specs.Prelude.{◌≡◌, ◌+◌, ◌*◌, ◌/◌, ◌%◌, ◌^◌, ◌<◌, ◌≤◌};

// The generator's next state, modulo 2^64.
pub fn next(x: u64) -> u64
    ensures { result ≡ (x * 6364136223846793005 + 1442695040888963407) % 2 ^ 64 }
{
    x.wrapping_mul(6364136223846793005)
        .wrapping_add(1442695040888963407)
}

// A draw below m from a state: its upper 31 bits, modulo m.
pub fn draw(x: u64, m: usize) -> usize
    requires { 0 < m }
    ensures { (result ≡ x / 2 ^ 33 % m) × (result < m) }
{
    (x / 0x2_0000_0000 % m as u64) as usize
}

#[derive(Clone, Copy)]
pub struct Generator {
    pub state: u64,
}

impl Generator {
    // The next draw below m.
    pub fn draw(&mut self, m: usize) -> usize
        requires { 0 < m }
        ensures { result < m }
    {
        self.state = next(self.state);
        draw(self.state, m)
    }

    // As many draws below `size` as there is room for.
    pub fn fill(&mut self, size: usize, out: &mut [u8])
        requires { (0 < size) × (size ≤ 256) }
    {
        for x in out {
            *x = self.draw(size) as u8;
        }
    }

    // Noise between -8 and 8 from the next state's upper 31 bits: 2^-31 of them times 16, less 8.
    pub fn noise(&mut self) -> f64 {
        self.state = next(self.state);
        let upper = (self.state / 0x2_0000_0000) as u32;
        upper as f64 * 0.0000000004656612873077393 * 16.0 - 8.0
    }
    // Noise on each number.
    pub fn add_noise(&mut self, out: &mut [f64]) {
        for x in out {
            *x += self.noise();
        }
    }
}

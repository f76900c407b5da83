// Complex numbers as two planes, which a loop over them reads and writes several at a time.

ghost use Rattle.std.specs.Prelude.{◌≤◌};

// `count` complex numbers, with room for N: their real parts, and their imaginary parts.
#[derive(Drop)]
pub struct Planes<const N: usize> {
    pub count: usize,
    pub re: [f64; N],
    pub im: [f64; N],
    ghost within: { count ≤ N },
}

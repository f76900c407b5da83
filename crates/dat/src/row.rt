// The entries of one carrier: conditions 4 and 5 on its values and its flags.

ghost use Rattle.std.specs.Prelude.{◌≡◌, false, ◌<◌, replicate};
ghost use Rattle.refusal.specs.Any.{any};
ghost use Rattle.dat.specs.Tables.{bad_value, wrong_value, bad_flag};
ghost use Rattle.dat.specs.Flags.{flags_set};
ghost use Rattle.dat.specs.Accepted.{InTable};

use level::Layout;

// A carrier of a table that has the right length.
#[derive(Clone, Copy)]
pub struct Row<'a> {
    pub layout: Layout,
    pub table: &'a [u16],
    pub carrier: usize,
    ghost in_table: { InTable layout table.now carrier },
}

impl<'a> Row<'a> {
    fn bad_value(&self, k: usize) -> bool
        requires { k < self.now.layout.markers }
        ensures { result ≡ bad_value self.now.layout self.now.table.now self.now.carrier k }
    {
        let from = self.carrier * self.layout.markers;
        let entry = self.table[from + k];
        let v = entry as usize;
        v < 5 || self.layout.spf - 4 < v || self.table[from..from + k].contains(&entry)
    }

    pub fn has_bad_value(&self) -> bool
        ensures { result ≡ any (bad_value self.now.layout self.now.table.now self.now.carrier)
            self.now.layout.markers }
    {
        for k in 0..self.layout.markers {
            if self.bad_value(k) {
                return true;
            }
        }
        false
    }

    // Sets to 1 the entries of the symbols that the values mark.
    fn set_values(&self, set: &mut [u16])
        requires { (wrong_value self.now.layout self.now.table.now ≡ false) × (set.old ≡ replicate 452 0) }
        ensures { set.new ≡ flags_set self.now.layout self.now.table.now self.now.carrier }
    {
        let from = self.carrier * self.layout.markers;
        for k in 0..self.layout.markers {
            let v = self.table[from + k] as usize;
            set[v] = 1;
        }
    }

    fn bad_flag(&self, set: &[u16], j: usize) -> bool
        requires { (set.now ≡ flags_set self.now.layout self.now.table.now self.now.carrier)
            × (j < self.now.layout.nsym) }
        ensures { result ≡ bad_flag self.now.layout self.now.table.now self.now.carrier j }
    {
        let l = self.layout;
        self.table[l.nc * l.markers + (self.carrier * l.nsym + j)] != set[j + 2]
    }

    // Looks at every flag, with no branch: flags are many and seldom bad.
    fn bad_flags(&self, set: &[u16]) -> bool
        requires { set.now ≡ flags_set self.now.layout self.now.table.now self.now.carrier }
        ensures { result ≡ any (bad_flag self.now.layout self.now.table.now self.now.carrier) self.now.layout.nsym }
    {
        let mut bad = false;
        for j in 0..self.layout.nsym {
            if self.bad_flag(set, j) {
                bad = true;
            }
        }
        bad
    }

    pub fn has_bad_flag(&self) -> bool
        requires { wrong_value self.now.layout self.now.table.now ≡ false }
        ensures { result ≡ any (bad_flag self.now.layout self.now.table.now self.now.carrier) self.now.layout.nsym }
    {
        let mut set = [0u16; 452];
        self.set_values(&mut set);
        self.bad_flags(&set)
    }
}

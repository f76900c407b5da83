// Tables that a call may read: what conditions 3 to 7 leave. A struct's ghost fields say that its tables are accepted.

ghost use Rattle.std.specs.Prelude.{◌≡◌, ◌<◌};
ghost use Rattle.level.specs.Rows.{IsLayout};
ghost use Rattle.dat.specs.Accepted.{Markers, Phasors};
ghost use Rattle.dat.specs.Tables.{marked};

use level::Layout;

// A marker table that conditions 3 to 5 accept: nc rows of marker values, then nc rows of nsym flags.
#[derive(Clone, Copy)]
pub struct MarkerTable<'a> {
    pub layout: Layout,
    pub entries: &'a [u16],
    ghost accepted: { Markers layout entries.now },
}

// Phasors that conditions 6 and 7 accept: nc rows of nsym.
#[derive(Clone, Copy)]
pub struct PhasorTable<'a> {
    pub layout: Layout,
    pub values: &'a [f64],
    ghost accepted: { Phasors layout values.now },
}

// The tables of one of the fifteen layouts, all accepted.
#[derive(Clone, Copy)]
pub struct Tables<'a> {
    pub layout: Layout,
    pub markers: &'a [u16],
    pub phasors: &'a [f64],
    ghost is_layout: { IsLayout layout },
    ghost markers_ok: { Markers layout markers.now },
    ghost phasors_ok: { Phasors layout phasors.now },
}

impl<'a> MarkerTable<'a> {
    // Whether symbol s of carrier c is marked: what its flag says.
    pub fn is_mark(&self, c: usize, s: usize) -> bool
        requires { (c < self.now.layout.nc) × (s < self.now.layout.nsym) }
        ensures { result ≡ marked self.now.layout self.now.entries.now c s }
    {
        if s < 2 {
            return false;
        }
        let l = self.layout;
        self.entries[l.nc * l.markers + (c * l.nsym + (s - 2))] != 0
    }
}

impl<'a> Tables<'a> {
    pub fn marker_table(&self) -> MarkerTable<'a>
        ensures { (result.layout ≡ self.now.layout) × (result.entries.now ≡ self.now.markers.now) }
    {
        MarkerTable {
            layout: self.layout,
            entries: self.markers,
        }
    }

    pub fn phasor_table(&self) -> PhasorTable<'a>
        ensures { (result.layout ≡ self.now.layout) × (result.values.now ≡ self.now.phasors.now) }
    {
        PhasorTable {
            layout: self.layout,
            values: self.phasors,
        }
    }
}

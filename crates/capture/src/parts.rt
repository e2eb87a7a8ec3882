// The lister while it goes over blocks: its station is taken apart, since a lister is long to copy and most records change little of it.
ghost use Rattle.std.specs.Prelude.{◌≡◌, ℕ, ◌≤◌};
ghost use Rattle.apart.specs.declared.columns.Columns.{Columns};
ghost use Rattle.beacon.specs.Beacons.{quiet_limit};
ghost use Rattle.capture.specs.CodeTerms.Parts.{lister_of, PartsOf};
ghost use Rattle.capture.specs.Listers.{without, Sound};

use crate::Lister;
use apart::{Apart, Columns};

// Blocks, damaged blocks among them, and the station that is followed, if one is. A flag beside it as in `Lister`: the columns hold a part of the station.
// An Option of the other part would be taken apart at each turn of `put_blocks`.
#[derive(Clone, Copy)]
pub struct Parts {
    pub blocks: u64,
    pub damaged: u64,
    pub active: bool,
    pub apart: Apart,
}

impl Parts {
    // Kept field by field, here and in `whole`: a Lister in it would bring the schedules along, which are long to copy.
    // The parts of a lister, with its station's schedules in the columns.
    pub fn of(lister: Lister, columns: &mut Columns) -> Parts
        requires { Sound lister }
        ensures { PartsOf lister result columns.new }
    {
        Parts {
            blocks: lister.blocks,
            damaged: lister.damaged,
            active: lister.active,
            apart: Apart::of(lister.station, columns),
        }
    }

    // The lister after so many lines.
    pub fn whole(self, lines: u64, columns: &Columns) -> Lister
        requires { self.apart.count ≤ quiet_limit }
        ensures { result ≡ lister_of self lines columns.now }
    {
        Lister {
            lines,
            blocks: self.blocks,
            damaged: self.damaged,
            active: self.active,
            station: self.apart.whole(columns),
        }
    }

    // There is no station until the next start, whatever the columns hold.
    pub fn without(self) -> Parts
        ensures same { (n : ℕ) (c : Columns) → lister_of result n c ≡ without (lister_of self n c) }
        ensures no_schedule { result.apart.count ≡ 0 }
    {
        Parts {
            active: false,
            apart: Apart::nobody(),
            ..self
        }
    }
}

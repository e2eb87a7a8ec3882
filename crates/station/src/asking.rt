// Asking to send (document 01, "The station"): it costs the schedules in use, not the units asked about.
ghost use Rattle.std.specs.Prelude.{◌≡◌};
ghost use Rattle.station.specs.Asking.{permission_number, first_quiet, permission_of};
ghost use Rattle.station.specs.Clear.{clear_until};
ghost use Rattle.station.specs.Validity.{Valid};

use crate::Station;

// What asking to send answers, in the order of document 01's numbers.
#[derive(Clone, Copy)]
pub enum Permission {
    Granted,
    // A switch of mode 1 is pending.
    SwitchSilences,
    // The first unit is quiet.
    QuietNow,
    // A later unit before the pending switch, if any, is quiet.
    QuietLater,
    // The switch lies before the end of the units.
    SwitchBefore,
    // No units, or too many.
    WrongLength,
}

impl Permission {
    // The answer's number.
    // Kept as a match like the number of a refusal, so that both are read in one way.
    pub fn number(self) -> u8
        ensures { result ≡ permission_number self }
    {
        match self {
            Permission::Granted => 0,
            Permission::SwitchSilences => 1,
            Permission::QuietNow => 2,
            Permission::QuietLater => 3,
            Permission::SwitchBefore => 4,
            Permission::WrongLength => 5,
        }
    }
}

impl Station {
    // The first quiet unit from the clock on and before `to`, or the unit after them: the clock's where something runs on, or the first that a
    // schedule in use covers. Each schedule is looked at once, and only as far as those before it left open.
    #[tactic(auto, using(crate::proofs::InUse::looks))]
    fn first_quiet(self, to: u64) -> u64
        requires { Valid self }
        ensures { result ≡ first_quiet self to }
    {
        let from = u64::from(self.clock);
        if to <= from || from < self.until {
            return from;
        }
        let mut first = to;
        for schedule in &self.schedules[..self.count] {
            first = schedule.first_covered(from, first);
        }
        first
    }

    // Up to which moment a question is granted, as far as any question reaches, and stays so while nothing but the clock changes: the first quiet
    // unit, or the pending switch. A switch of mode 1 leaves nothing.
    #[tactic(auto, unfolding(crate::specs::Clear::clear_until))]
    pub fn clear_until(self) -> u64
        requires { Valid self }
        ensures { result ≡ clear_until self }
    {
        let first = u64::from(self.clock);
        if pending::silences(self.pending) {
            return first;
        }
        self.first_quiet(pending::up_to(self.pending, first + u64::from(Station::UNIT_LIMIT)))
    }

    // Whether the units from the clock on, so many, may be used to send.
    #[tactic(auto, using(crate::proofs::Ways::ways))]
    pub fn ask(self, units: u32) -> Permission
        requires { Valid self }
        ensures { result ≡ permission_of self units }
    {
        if units == 0 || Station::UNIT_LIMIT < units {
            return Permission::WrongLength;
        }
        let first = u64::from(self.clock);
        let end = first + u64::from(units);
        if pending::silences(self.pending) {
            return Permission::SwitchSilences;
        }
        let to = pending::up_to(self.pending, end);
        let quiet = self.first_quiet(to);
        if quiet == first {
            return Permission::QuietNow;
        }
        if quiet < to {
            return Permission::QuietLater;
        }
        if pending::comes_before(self.pending, end) {
            return Permission::SwitchBefore;
        }
        Permission::Granted
    }
}

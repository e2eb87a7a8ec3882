// The answers of every call (document 01, "Answer numbers"; 02, One, Five and Six): accepted, or one of twenty-six refusals, and where a frame broke.
#![tactic(auto)]

ghost use Rattle.std.specs.Prelude.{◌≡◌};
ghost use Rattle.answer.specs.Faults.{fault_at, fault_nowhere, verdict_offset};
ghost use Rattle.answer.specs.Numbers.{number_of, answer_number, verdict_number};

// A refusal, in the order of the table.
#[derive(Clone, Copy)]
pub enum Refusal {
    // The frame is under 24 octets, or a fixed field of its body is missing.
    TooShort,
    // The frame is over 2,336 octets.
    TooLong,
    // Version, type, subtype, a flag or the fragment number is not one that is read.
    ForeignHeader,
    // SA or BSSID is not the AP, or DA is neither the station nor all ones. In an IBSS: BSSID is not the station's, SA is a group, or DA is neither.
    // In a table of stations (02, Six): DA is neither a station that is joined nor all ones.
    ForeignAddress,
    // The category is not 0, or the action is over 4.
    ForeignAction,
    // An element's header or contents run past the end.
    ElementCut,
    // In an action frame: the required element is absent.
    ElementAbsent,
    // The length of an element is wrong.
    WrongLength,
    // A value that the rules forbid.
    ForbiddenValue,
    // A second 32, 35 or 37 in one frame, in an IBSS also 41, or a measurement token used twice.
    Repeated,
    // One Quiet element more than a frame may have.
    TooManyQuiets,
    // The beacon's interval is not the station's.
    OtherInterval,
    // The buffer is shorter than what is to be written.
    BufferShort,
    // The clock would pass its limit, or the advance is too long.
    PastClock,
    // A station cannot be started so.
    BadStart,
    // A record that cannot be written, impossible readings, an index past the last, a centre past the table.
    Impossible,
    // A block of the capture is damaged.
    BlockDamaged,
    // No reply is due.
    NoReplyDue,
    // A capture record comes with no station started.
    NoStation,
    // A capture record is malformed.
    RecordMalformed,
    // In an action frame: another element stands where one is required.
    OtherElement,
    // In an action frame of one element: octets are left over after it.
    LeftOver,
    // In an IBSS: an announcement by any but a known DFS owner.
    ForeignAnnouncement,
    // In a table of stations: no row is free.
    NoFreeRow,
    // In a table of stations: the address is joined already.
    AlreadyJoined,
    // In a table of stations: the address is not joined.
    NotJoined,
}

impl Refusal {
    // The refusal's number in the table.
    // Kept as a match: the edit `other_and_left_over_exchanged`, which must fail, exchanges two of its lines.
    pub fn number(self) -> u8
        ensures { result ≡ number_of self }
    {
        match self {
            Refusal::TooShort => 1,
            Refusal::TooLong => 2,
            Refusal::ForeignHeader => 3,
            Refusal::ForeignAddress => 4,
            Refusal::ForeignAction => 5,
            Refusal::ElementCut => 6,
            Refusal::ElementAbsent => 7,
            Refusal::WrongLength => 8,
            Refusal::ForbiddenValue => 9,
            Refusal::Repeated => 10,
            Refusal::TooManyQuiets => 11,
            Refusal::OtherInterval => 12,
            Refusal::BufferShort => 13,
            Refusal::PastClock => 14,
            Refusal::BadStart => 15,
            Refusal::Impossible => 16,
            Refusal::BlockDamaged => 17,
            Refusal::NoReplyDue => 18,
            Refusal::NoStation => 19,
            Refusal::RecordMalformed => 20,
            Refusal::OtherElement => 21,
            Refusal::LeftOver => 22,
            Refusal::ForeignAnnouncement => 23,
            Refusal::NoFreeRow => 24,
            Refusal::AlreadyJoined => 25,
            Refusal::NotJoined => 26,
        }
    }
}

// The number of what a call answers: 0 for accepted, and else the refusal's.
pub fn number(answer: Result<(), Refusal>) -> u8
    ensures { result ≡ answer_number answer }
{
    match answer {
        Ok(()) => 0,
        Err(refusal) => refusal.number(),
    }
}

// Why a frame is refused, and where it broke: so many octets stand before the one at fault. None is at fault where the frame is too short, too long or not
// for this station (1 to 4).
#[derive(Clone, Copy)]
pub struct Fault {
    pub refusal: Refusal,
    pub offset: Option<usize>,
}

impl Fault {
    // At the octet that has so many before it.
    pub fn at(refusal: Refusal, offset: usize) -> Fault
        ensures { result ≡ fault_at offset refusal }
    {
        Fault {
            refusal,
            offset: Some(offset),
        }
    }

    // At no octet.
    pub fn nowhere(refusal: Refusal) -> Fault
        ensures { result ≡ fault_nowhere refusal }
    {
        Fault {
            refusal,
            offset: None,
        }
    }
}

// Kept beside number: it reads the refusal out of a Fault, and one over a trait of both would be longer.
// The number of what a call answers that is handed a frame: 0 for accepted, and else the refusal's.
pub fn verdict_number(verdict: Result<(), Fault>) -> u8
    ensures { result ≡ verdict_number verdict }
{
    match verdict {
        Ok(()) => 0,
        Err(fault) => fault.refusal.number(),
    }
}

// Where the frame broke.
pub fn verdict_offset(verdict: Result<(), Fault>) -> Option<usize>
    ensures { result ≡ verdict_offset verdict }
{
    match verdict {
        Ok(()) => None,
        Err(fault) => fault.offset,
    }
}

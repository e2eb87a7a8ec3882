// What a line asks for, by its first word, and by the second too where it begins a scene.

// What a scene plays.
#[derive(Clone, Copy)]
pub enum Subject {
    Station,
    Ibss,
    Table,
}

// How a call gives a frame.
#[derive(Clone, Copy)]
pub enum Form {
    Whole,
    Action,
    Beacon,
    Probe,
}

// To which request a reply is asked for.
#[derive(Clone, Copy)]
pub enum Reply {
    Tpc,
    Measurement,
}

#[derive(Clone, Copy)]
pub enum Verb {
    Scene(Subject),
    At,
    Start,
    Advance,
    Join,
    Leave,
    Tick,
    Ask,
    Channel,
    Clock,
    Constraint,
    Pending,
    Owner,
    Row,
    Take(Form),
    Read(Form),
    Pair,
    Reply(Reply),
    Contents,
    Write,
    Centre,
    Signed,
    Busy,
    Densities,
    Unknown,
}

// Each verb by its word: what begins a scene, brings it on, hands a frame to it, or asks what it keeps; then what reads a frame or replies to it without a
// station, and what asks for an element or a number.
const VERBS: [(&[u8], Verb); 33] = [
    (b"scene station", Verb::Scene(Subject::Station)),
    (b"scene ibss", Verb::Scene(Subject::Ibss)),
    (b"scene table", Verb::Scene(Subject::Table)),
    (b"at", Verb::At),
    (b"start", Verb::Start),
    (b"advance", Verb::Advance),
    (b"join", Verb::Join),
    (b"leave", Verb::Leave),
    (b"tick", Verb::Tick),
    (b"frame", Verb::Take(Form::Whole)),
    (b"action", Verb::Take(Form::Action)),
    (b"beacon", Verb::Take(Form::Beacon)),
    (b"probe", Verb::Take(Form::Probe)),
    (b"ask", Verb::Ask),
    (b"channel", Verb::Channel),
    (b"clock", Verb::Clock),
    (b"constraint", Verb::Constraint),
    (b"pending", Verb::Pending),
    (b"owner", Verb::Owner),
    (b"row", Verb::Row),
    (b"read-frame", Verb::Read(Form::Whole)),
    (b"read-action", Verb::Read(Form::Action)),
    (b"read-beacon", Verb::Read(Form::Beacon)),
    (b"read-probe", Verb::Read(Form::Probe)),
    (b"pair", Verb::Pair),
    (b"reply-tpc", Verb::Reply(Reply::Tpc)),
    (b"reply-measurement", Verb::Reply(Reply::Measurement)),
    (b"contents", Verb::Contents),
    (b"write", Verb::Write),
    (b"centre", Verb::Centre),
    (b"signed", Verb::Signed),
    (b"busy", Verb::Busy),
    (b"densities", Verb::Densities),
];

pub fn verb_of(word: &[u8]) -> Verb {
    VERBS
        .iter()
        .find(|entry| entry.0 == word)
        .map_or(Verb::Unknown, |entry| entry.1)
}

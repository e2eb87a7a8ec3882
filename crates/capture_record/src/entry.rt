// What a record notes, by its kind (document 01: 1 advance (2), 2 frame, 3 ask (2), 4 start (15: own address, AP, channel, B)).
ghost use Rattle.std.specs.Prelude.{◌≡◌};
ghost use Rattle.capture_record.specs.Entries.{settings_of, entry_told, entry_means};

// A frame's octets and a start's settings stay in the contents.
// What is malformed is kept as a case: `entry_means` says so, and the list notes it as a record.
#[derive(Clone, Copy)]
pub enum Entry {
    // An unknown kind, or a wrong length.
    Malformed,
    Start,
    Advance(u16),
    Frame,
    Ask(u16),
}

// What a station is started with.
#[derive(Clone, Copy)]
pub struct Settings {
    pub own: [u8; 6],
    pub ap: [u8; 6],
    pub channel: u8,
    pub interval: u16,
}

// The settings in the contents of a start.
pub fn settings_in(contents: &[u8]) -> Settings
    ensures { result ≡ settings_of contents.now }
{
    Settings {
        own: octets::address_at(contents, 0),
        ap: octets::address_at(contents, 6),
        channel: octets::octet_at(contents, 12),
        interval: octets::number16(contents, 13),
    }
}

// A record by its kind and its contents.
#[tactic(auto, unfolding(crate::specs::Entries::entry_means))]
pub fn entry_of(kind: u8, contents: &[u8]) -> Entry
    ensures { entry_told contents.now result ≡ entry_means kind contents.now }
{
    match (kind, contents.len()) {
        (1, 2) => Entry::Advance(octets::number16(contents, 0)),
        (2, _) => Entry::Frame,
        (3, 2) => Entry::Ask(octets::number16(contents, 0)),
        (4, 15) => Entry::Start,
        _ => Entry::Malformed,
    }
}

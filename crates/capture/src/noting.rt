// What the list says of a record (document 01, "Capture blocks and the evening list"): its word, its answer, and the station after it. No lister is put
// together for it, which costs more than most records do: a question and an advance put the station alone together.
ghost use Rattle.std.specs.Prelude.{◌≡◌, true, false, List, ℕ, ◌≤◌, Err};
ghost use Rattle.answer.specs.declared.Refusal.{Refusal};
ghost use Rattle.apart.specs.Apart.{whole_of};
ghost use Rattle.apart.specs.declared.columns.Columns.{Columns};
ghost use Rattle.beacon.specs.Beacons.{quiet_limit};
ghost use Rattle.capture_record.specs.declared.entry.Entry.{Entry};
ghost use Rattle.pen.specs.declared.words.Word.{Word};
ghost use Rattle.station.specs.Clear.{Clear};
ghost use Rattle.station.specs.Validity.{Valid};
ghost use Rattle.capture.specs.CodeTerms.Parts.{lister_of, noted_with, asked, FollowedAs, NotedAs};
ghost use Rattle.capture.specs.Listers.{without, Sound};
ghost use Rattle.capture.specs.declared.response.Response.{Response};

use crate::parts::Parts;
use crate::response::Response;
use answer::Refusal;
use apart::{Apart, Columns};
use capture_record::Entry;
use pen::Word;
use station::Station;

// What a line tells of a record, the lister after it, and until when it is known to be clear then.
// The answer is kept as its number, as `pen::put_told` takes it, which says why.
#[derive(Clone, Copy)]
pub struct Noted {
    pub word: Word,
    pub number: u8,
    pub offset: Option<usize>,
    pub parts: Parts,
    pub clear: u64,
}

impl Parts {
    // The line that tells this word and this answer, and leaves these parts.
    fn told(self, word: Word, answer: Response, clear: u64) -> Noted
        ensures { result ≡ noted_with word answer self clear }
    {
        Noted {
            word,
            number: answer.number(),
            offset: answer.offset(),
            parts: self,
            clear,
        }
    }

    // A record that is refused with no station after it: a malformed one, or a start.
    fn dropped(self, word: Word, refusal: Refusal) -> Noted
        ensures told { result ≡ noted_with word (Response.Call (Err refusal)) result.parts 0 }
        ensures same { (n : ℕ) (c : Columns) → lister_of result.parts n c ≡ without (lister_of self n c) }
        ensures no_schedule { result.parts.apart.count ≡ 0 }
    {
        self.without().told(word, Response::Call(Err(refusal)), 0)
    }

    // A malformed record is 20 with a station or without.
    fn malformed(self) -> Noted
        ensures told { result ≡ noted_with Word.Record (Response.Call (Err Refusal.RecordMalformed)) result.parts 0 }
        ensures same { (n : ℕ) (c : Columns) → lister_of result.parts n c ≡ without (lister_of self n c) }
        ensures no_schedule { result.parts.apart.count ≡ 0 }
    {
        self.dropped(Word::Record, Refusal::RecordMalformed)
    }

    // A record that comes with no station started: nothing changes.
    fn unstarted(self, word: Word) -> Noted
        ensures { result ≡ noted_with word (Response.Call (Err Refusal.NoStation)) self 0 }
    {
        self.told(word, Response::Call(Err(Refusal::NoStation)), 0)
    }

    // A call that leaves this station.
    #[tactic(auto, using(apart::proofs::Parts::put_back_valid))]
    fn followed(
        self,
        word: Word,
        answer: Response,
        station: Station,
        columns: &mut Columns,
    ) -> Noted
        requires { Valid station }
        ensures { FollowedAs self word answer station result columns.new }
    {
        let parts = Parts {
            active: true,
            apart: Apart::of(station, columns),
            ..self
        };
        parts.told(word, answer, 0)
    }

    // A start, refused or accepted.
    fn start(self, contents: &[u8], columns: &mut Columns) -> Noted
        ensures { (n : ℕ) → NotedAs (lister_of self n columns.old) contents.now Entry.Start result columns.new }
    {
        let settings = capture_record::settings_in(contents);
        match Station::start(
            settings.own,
            settings.ap,
            settings.interval,
            settings.channel,
        ) {
            Ok(station) => self.followed(Word::Start, Response::Call(Ok(())), station, columns),
            Err(refusal) => self.dropped(Word::Start, refusal),
        }
    }

    // An advance of the station, refused or accepted.
    #[tactic(auto, using(apart::proofs::Parts::few_rows))]
    fn advance(self, units: u16, columns: &mut Columns) -> Noted
        requires valid { Valid (whole_of self.apart columns.old) }
        requires started { self.active ≡ true }
        ensures { (n : ℕ) (contents : List ℕ) → NotedAs (lister_of self n columns.old) contents (Entry.Advance units) result columns.new }
    {
        let stepped = self.apart.whole(columns).advance(u32::from(units));
        let answer = Response::Call(stepped.answer);
        self.followed(Word::Advance, answer, stepped.station, columns)
    }

    // A question to the station. Until when it is known to be clear is worked out, since more questions may follow.
    #[tactic(auto, using(apart::proofs::Parts::few_rows, station::proofs::Clearing::until_clear))]
    fn ask(self, units: u16, columns: &Columns) -> Noted
        requires { Valid (whole_of self.apart columns.now) }
        ensures asked { result ≡ asked (whole_of self.apart columns.now) units self result.clear }
        ensures clears { Clear (whole_of self.apart columns.now) result.clear }
    {
        let station = self.apart.whole(columns);
        let answer = Response::Question(station.ask(u32::from(units)));
        self.told(Word::Ask, answer, station.clear_until())
    }

    // Any record but the frames that a station hears. A start needs no station.
    pub fn note(self, entry: Entry, contents: &[u8], columns: &mut Columns) -> Noted
        requires few { self.apart.count ≤ quiet_limit }
        requires sound { (n : ℕ) → Sound (lister_of self n columns.old) }
        requires unheard { entry ≡ Entry.Frame → self.active ≡ false }
        ensures { (n : ℕ) → NotedAs (lister_of self n columns.old) contents.now entry result columns.new }
    {
        match entry {
            Entry::Malformed => self.malformed(),
            Entry::Start => self.start(contents, columns),
            Entry::Advance(units) if self.active => self.advance(units, columns),
            Entry::Ask(units) if self.active => self.ask(units, columns),
            Entry::Advance(_) => self.unstarted(Word::Advance),
            Entry::Ask(_) => self.unstarted(Word::Ask),
            Entry::Frame => self.unstarted(Word::Frame),
        }
    }
}

// The scenes as they go on.
ghost use Rattle.std.specs.Prelude.{◌≤◌, length, IfOk};
ghost use Rattle.run_scenes.specs.Stages.{ValidStage};

use crate::{AP, CHANNEL, INTERVAL, OWN, played};
use member::Member;
use scene::call::Call;
use scene::line;
use scene::line::Line;
use scene::page::Page;
use scene::verb::{Subject, Verb};
use station::Station;
use std::io;
use std::io::{Read, Write};
use table::Table;

// How many octets of the input are taken at a time.
const ROOM: usize = 65536;

// Where they stand: what the present scene plays, all three that can be played, and the line so far.
#[derive(Clone, Copy)]
pub struct Stage {
    pub subject: Subject,
    pub station: Station,
    pub member: Member,
    pub table: Table,
    pub line: Line,
}

// The beginning of a scene: all three starts are accepted.
#[tactic(auto, unfolding(station::specs::Starting::start_means, table::specs::Tables::start_means, answer::specs::Checks::checked))]
fn fresh(subject: Subject) -> Stage
    ensures { ValidStage result }
{
    Stage {
        subject,
        station: Station::start(OWN, AP, INTERVAL, CHANNEL).unwrap(),
        member: Member::start(OWN, AP, INTERVAL, CHANNEL).unwrap(),
        table: Table::start(AP, INTERVAL).unwrap(),
        line: line::begun(),
    }
}

// The stage after a call.
// Kept as a match: only as a scene is read it is known which of the three is played, and `Played`
// has calls over any writer, so no `dyn` holds one.
fn after<W: Write>(page: &mut Page<W>, mut stage: Stage, call: Call) -> Stage
    requires { ValidStage stage }
    ensures { ValidStage result }
{
    if let Verb::Scene(subject) = call.verb {
        return fresh(subject);
    }
    match stage.subject {
        Subject::Station => stage.station = played::run(page, stage.station, call),
        Subject::Ibss => stage.member = played::run(page, stage.member, call),
        Subject::Table => stage.table = played::run(page, stage.table, call),
    }
    stage
}

fn scenes<W: Write>(page: &mut Page<W>, mut stage: Stage, text: &[u8]) -> Stage
    requires { ValidStage stage }
    ensures { ValidStage result }
{
    let mut line = stage.line;
    let mut at = 0;
    // Kept as `while`: how far a line is read only the line knows.
    while at < text.len() {
        let read = line.read(page, text, at);
        at = read.at;
        if let Some(call) = read.call {
            stage = after(page, stage, call);
            line.after_call(page, call.expected);
        }
    }
    Stage { line, ..stage }
}

// Reads until the buffer is full or the input ends: a pipe may deliver any amount at a time.
// Kept beside the one of `list`: there a read that failed still says how many octets came.
fn fill<R: Read>(input: &mut R, buffer: &mut [u8]) -> io::Result<usize>
    ensures { IfOk result (λ count. count ≤ length buffer.old) }
{
    let mut done = 0;
    // Kept as `while`: each read brings any amount.
    while done < buffer.len() {
        let more = input.read(&mut buffer[done..])?;
        if more == 0 {
            return Ok(done);
        }
        done += more;
    }
    Ok(done)
}

// By the buffer, to the end of the input. Where a read fails nothing more is played.
// A proved loop has to end, and nothing says that the input does: there are not so many buffers.
pub fn play<R: Read, W: Write>(page: &mut Page<W>, input: &mut R) {
    let mut text = [0u8; ROOM];
    let mut stage = fresh(Subject::Station);
    for _ in 0..u64::MAX {
        match fill(input, &mut text) {
            Ok(0) => return,
            Ok(count) => stage = scenes(page, stage, &text[0..count]),
            Err(error) => return page.fail(error),
        }
        if page.has_failed() {
            return;
        }
    }
}

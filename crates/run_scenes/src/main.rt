// Runs the library through the scenes of standard input, and writes them again with the answers that it finds: each line as it stands, up to its =
// where it has one, and after that the answer. The text of the scenes is `stdout` beside this program, each call with the answer expected; tools/scenes
// writes `stdin` from it, without the answers. So the line in which what is written differs from `stdout` is the line of the call.
//
// A line is a remark, which begins with #, or a call: a verb, its numbers, which other words only name, and = where an answer is expected. Numbers
// that are left out are 0. All of standard input is taken, and lines of any length. What cannot be run is told in words: a verb that the scene does not
// know, an element that is unknown, a moment that is gone, a call with more than 127 numbers.
//
//   scene station, scene ibss, scene table: the scene's name follows. It begins with a station (document 01), a station of an IBSS (document 02, Five) or a table
//     with no row joined (document 02, Six). The station is 2 0 0 0 0 1, the AP or the BSSID 2 0 0 0 0 9, the beacon interval 100, the channel 36
//
// An address is named by its first and its last octet, and the others are 0. Octets in an answer that are alike, eight or more of them, are told as one and how many
// they are, as in 0*312.
//
// In every scene, and before the first:
//
//   at: the moment that the clock is brought to, by advances or ticks
//   clock: what it tells
//   frame: how many octets it has, and the octets, which are cut there or followed by zeros
//   action: the octets after the header. beacon, probe: the octets after the timestamp, which is 7. Before them an IBSS's scene has the last octet of the sender's
//     address, whose first is 2, and a table's the receiver's address, where a first octet of 255 stands for all ones
//   contents: an element's ID, beacon interval, octets of its contents
//   write: an element's ID, room of the buffer, place in it, and its fields in the order of the element. Of 40 the beacon interval stands in front of them.
//     Of 38 they are token, type, what is asked (0 enable, 1 measure, 2 not interpreted), and of that two bits or channel, start and duration; of 39
//     token, type, what is said (0 late, 1 incapable, 2 refused, 3 basic, 4 CCA, 5 RPI, 6 not interpreted), map or busy fraction, channel, start, duration
//     and eight densities
//   centre: a channel. signed: an octet. busy: time in µs, duration in TU
//   densities: the first six times in µs, which are alike, the last two, duration in TU
//
// Of a station, also one of an IBSS:
//
//   start: beacon interval, first octet of the own address, first octet of the AP's address or the BSSID, channel
//   advance, ask: units
//   channel, constraint: what the station keeps. pending: 0, or the moment of the switch, its mode and its channel
//   read-frame, read-action, read-beacon, read-probe: a frame that is read and which the station does not hear
//
// Of an IBSS:
//
//   owner: 0, or the address, the recovery interval, the miss count, and 1 where a beacon from the owner was accepted since the latest TBTT
//   pair: an index, and a beacon: the pair of its element 41
//
// Of a table:
//
//   start: beacon interval, first octet of the AP's address
//   join: an address, and the channel. leave: an address
//   tick: units. ask: units, an address
//   row: an address. Its answer is 26, or 0 and what the station keeps: clock, channel, constraint, pending switch
//
// Of a station, where it takes no part, and of a table:
//
//   reply-tpc: room of the buffer, zeros after the frame's octets, power and margin as octets, the frame's octets
//   reply-measurement: room, zeros, clock, which a table has itself, index, what is found (0 refused, 1 a map, 2 a busy time, 3 times), the map or the busy time,
//     eight times, the frame's octets
//
// Of a start, an advance and `at` nothing is expected where they only make a scene ready, and nothing told unless they are refused. Frames come from the
// AP of a scene's beginning, or in its IBSS, and are read with its addresses and its interval. A scene more needs no proof.
#![tactic(auto)]

mod frames;
mod kept;
mod members;
mod played;
mod stage;
mod stations;
mod tables;

use scene::page::Page;
use std::io;

// The scenes' station, its AP or its IBSS, the beacon interval and the channel.
const OWN: [u8; 6] = [2, 0, 0, 0, 0, 1];

const AP: [u8; 6] = [2, 0, 0, 0, 0, 9];

const INTERVAL: u16 = 100;

const CHANNEL: u8 = 36;

fn main(rt: HostRuntime) -> io::Result<()> {
    let mut page = Page::begun(rt.stdout());
    stage::play(&mut page, &mut rt.stdin());
    page.ended()
}

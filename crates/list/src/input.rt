// Reading the input, a buffer at a time.
ghost use Rattle.std.specs.Prelude.{length};
ghost use Rattle.list.specs.Program.{Within};

use std::io::Read;

// What stands at the front of a buffer.
#[derive(Clone, Copy)]
pub enum Filled {
    // As many octets as it has room for.
    Full,
    // So many, and then the input ended.
    Ended(usize),
    // So many, and then a read failed.
    Failed(usize),
}

// Reads until the buffer is full, the input ends or a read fails: a pipe may deliver any amount at a time.
pub fn fill<R: Read>(from: &mut R, buffer: &mut [u8]) -> Filled
    ensures { Within result (length buffer.old) }
{
    let mut done = 0;
    // Kept as `while`: each read brings any amount.
    while done < buffer.len() {
        match from.read(&mut buffer[done..]) {
            Ok(0) => return Filled::Ended(done),
            Ok(more) => done += more,
            Err(_) => return Filled::Failed(done),
        }
    }
    Filled::Full
}

// What the program writes, up to its first failure. After that it stays as it is.
ghost use Rattle.std.specs.Prelude.{◌≡◌, Err, OnErr, OnOk, is_err};

use std::io;
use std::io::Write;

#[derive(Drop)]
pub struct Page<W: Write> {
    out: W,
    // How it went so far. After an error nothing more is written.
    outcome: io::Result<()>,
}

impl<W: Write> Page<W> {
    pub fn begun(out: W) -> Page<W> {
        Page {
            out,
            outcome: Ok(()),
        }
    }

    pub fn text(&mut self, word: &[u8])
        ensures { OnErr self.old.outcome (self.new ≡ self.old) }
    {
        if self.outcome.is_ok() {
            self.outcome = self.out.write_all(word);
        }
    }

    pub fn decimal(&mut self, n: u64)
        ensures { OnErr self.old.outcome (self.new ≡ self.old) }
    {
        if self.outcome.is_ok() {
            self.outcome = write!(self.out, "{n}");
        }
    }

    // Only the first failure is kept.
    pub fn fail(&mut self, error: io::Error)
        ensures first { OnErr self.old.outcome (self.new ≡ self.old) }
        ensures kept { OnOk self.old.outcome (self.new.outcome ≡ Err error) }
    {
        if self.outcome.is_ok() {
            self.outcome = Err(error);
        }
    }

    pub fn has_failed(&self) -> bool
        ensures { result ≡ is_err self.now.outcome }
    {
        self.outcome.is_err()
    }

    // How it went.
    pub fn ended(&self) -> io::Result<()>
        ensures { result ≡ self.now.outcome }
    {
        self.outcome
    }
}

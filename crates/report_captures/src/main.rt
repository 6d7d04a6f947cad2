// Reads a file of captures on standard input, and writes its report to standard output (document 02, request 11).
#![tactic(auto)]

ghost use Rattle.std.specs.Prelude.{◌≡◌, ◌+◌, ◌%◌, ◌^◌, ◌≤◌, length, take, IfOk, OnErr};
ghost use Rattle.tally.specs.Noted.{StaysLent};
ghost use Rattle.captures.specs.Standing.{Feeds};
ghost use Rattle.report_captures.specs.Filled.{Filled, Stopped, Printed};

use captures::Progress;
use std::io;
use std::io::{IsTerminal, Read, Stderr, Stdin};
use tally::Tally;

// Where the file is read from, and how many bytes of it were read: 2 ^ 64 are 0 again. That is told on standard error, where it is shown.
#[derive(Clone, Copy)]
struct Input {
    from: Stdin,
    to: Stderr,
    shown: bool,
    total: u64,
}

impl Input {
    // How far the file was read; at the end, after a filling of size 0, the line is empty again.
    fn tell(self, size: usize) -> io::Result<()> {
        if !self.shown {
            return Ok(());
        }
        if size == 0 {
            return self.to.write_all(b"\r                                \r");
        }
        self.to.write_all(b"\r")?;
        self.to.print(self.total)?;
        self.to.write_all(b" bytes read")
    }

    // Fills the reading buffer once, and gives the size of the filling; 0 at the file's end. Here alone is read, and here it is counted, so that what was read cannot be
    // lost unseen.
    fn fill(&mut self, part: &mut [u8]) -> io::Result<usize>
        ensures ok { IfOk result (λ n. (n ≤ length part.new) × (self.new.total ≡ (self.old.total + n) % 2 ^ 64)) }
        ensures err { OnErr result (length part.new ≡ length part.old) }
    {
        let mut from = self.from;
        let size = from.read(part)?;
        self.total = self.total.wrapping_add(size as u64);
        self.tell(size)?;
        Ok(size)
    }
}

// Takes what a filling read: the bytes at the front of the buffer.
fn take_filling(
    part: &[u8],
    size: usize,
    p: Progress,
    kept: &mut [u8; 1472],
    tally: &mut Tally,
) -> Progress
    ensures same { StaysLent tally.old tally.new }
    ensures feeds { Feeds (take size part.now) p kept.old tally.old.verdicts.now tally.old.held.now tally.old.bytes.now result kept.new tally.new.verdicts.now tally.new.held.now tally.new.bytes.now }
{
    captures::feed(message::part(part, 0, size), p, kept, tally)
}

// Fills and takes until the file ends. Nothing says that a file does, so the fillings are counted. Where a read or a write fails, what was taken before stands.
fn fill_all(
    input: &mut Input,
    part: &mut [u8],
    kept: &mut [u8; 1472],
    tally: &mut Tally,
) -> io::Result<Progress>
    requires { input.old.total ≡ 0 }
    ensures same { StaysLent tally.old tally.new }
    ensures ok { IfOk result (λ p. Filled kept.old tally.old.verdicts.now tally.old.held.now tally.old.bytes.now input.new.total p kept.new tally.new.verdicts.now tally.new.held.now tally.new.bytes.now) }
    ensures err { OnErr result (Stopped kept.old tally.old.verdicts.now tally.old.held.now tally.old.bytes.now kept.new tally.new.verdicts.now tally.new.held.now tally.new.bytes.now) }
{
    let mut p = captures::begin();
    for _ in 0..u64::MAX {
        let size = input.fill(part)?;
        if size == 0 {
            return Ok(p);
        }
        p = take_filling(part, size, p, kept, tally);
    }
    Ok(p)
}

// Puts the report of the file at the front of the text, which stays where a read or a write fails, and gives the report's length. The reading buffer has 64 KiB.
fn reported(input: &mut Input, part: &mut [u8], text: &mut [u8; 16384]) -> io::Result<usize>
    requires { input.old.total ≡ 0 }
    ensures ok { IfOk result (λ n. Printed input.new.total text.old n text.new) }
    ensures err { OnErr result (text.new ≡ text.old) }
{
    let mut kept = [0u8; 1472];
    let mut verdicts = [0u64; 8];
    let mut held = [0u64; 256];
    let mut bytes = [0u64; 256];
    let mut tally = Tally {
        verdicts: &mut verdicts,
        held: &mut held,
        bytes: &mut bytes,
    };
    let p = fill_all(input, part, &mut kept, &mut tally)?;
    Ok(report::report(p, &verdicts, &held, &bytes, text))
}

fn main(rt: HostRuntime) -> io::Result<()> {
    let mut part = [0u8; 65536];
    let mut text = [0u8; 16384];
    let to = rt.stderr();
    let mut input = Input {
        from: rt.stdin(),
        to,
        shown: to.is_terminal(),
        total: 0,
    };
    let size = reported(&mut input, &mut part, &mut text)?;
    rt.write_all(&text[..size])
}

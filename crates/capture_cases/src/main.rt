// Reads files of captures from standard input, lends each in parts to the calls that C links, and prints what they report (tests/captures/README.md).
#![tactic(auto)]

ghost use Rattle.std.specs.Prelude.{◌<◌};

use console::{Run, one, word};
use dhcpopt_captures::PlainProgress;
use message::part;
use std::io;
use std::io::Stdout;

// The bytes of a part: 0 stands for what is given at once, which is never more.
fn whole_or(size: usize) -> usize
    ensures { 0 < result }
{
    match size {
        0 => 65536,
        _ => size,
    }
}

// A report of n bytes, and a sum of the bytes of the buffer past it.
fn print(to: Stdout, text: &[u8; 16384], n: usize) -> io::Result<()> {
    word(to, part(text, 0, n))?;
    one(to, b"rest sum", console::sum(part(text, n, text.len())))?;
    word(to, b"\n-\n")
}

// A file while it is taken: where reading is, how many bytes a part has, and what is lent to the calls.
#[derive(Drop)]
struct Taken {
    progress: PlainProgress,
    size: usize,
    kept: [u8; 1472],
    verdicts: [u64; 8],
    held: [u64; 256],
    sums: [u64; 256],
}

impl Taken {
    // Another file begins, which is lent in parts of so many bytes.
    fn begin(&mut self, size: usize) {
        self.progress = dhcpopt_captures::dhcpopt_captures_begin(
            &mut self.verdicts,
            &mut self.held,
            &mut self.sums,
        );
        self.size = size;
    }

    // Lends one part.
    fn lend(&mut self, given: &[u8]) {
        self.progress = dhcpopt_captures::dhcpopt_captures_feed(
            given,
            self.progress,
            &mut self.kept,
            &mut self.verdicts,
            &mut self.held,
            &mut self.sums,
        );
    }

    // Lends the bytes in parts; where there are none, one part without bytes.
    fn feed(&mut self, given: &[u8]) {
        if given.is_empty() {
            self.lend(given);
        }
        for part in given.chunks(whole_or(self.size)) {
            self.lend(part);
        }
    }

    // The same bytes again and again.
    fn feed_times(&mut self, given: &[u8], times: usize) {
        for _ in 0..times {
            self.feed(given);
        }
    }

    // The report, in a buffer that holds 0, 1, 2 and so on before.
    fn show(&self, to: Stdout) -> io::Result<()> {
        let mut text = [0u8; 16384];
        console::fill(&mut text, 0);
        let n = dhcpopt_captures::dhcpopt_captures_report(
            self.progress,
            &self.verdicts,
            &self.held,
            &self.sums,
            &mut text,
        );
        print(to, &text, n)
    }

    // What comes of a file: 0, a file begins, in parts of as many bytes as rise; 1, it goes on with the given bytes; 2, with these as many times; 3, with the rising bytes; any other call reports it.
    fn take(&mut self, to: Stdout, call: u8, given: &[u8], rising: &[u8]) -> io::Result<()> {
        match call {
            0 => self.begin(rising.len()),
            1 => self.feed(given),
            2 => self.feed_times(given, rising.len()),
            3 => self.feed(rising),
            _ => self.show(to)?,
        }
        Ok(())
    }
}

// A file of which nothing was taken yet, lent at once.
fn begun() -> Taken {
    let mut verdicts = [0u64; 8];
    let mut held = [0u64; 256];
    let mut sums = [0u64; 256];
    let progress = dhcpopt_captures::dhcpopt_captures_begin(&mut verdicts, &mut held, &mut sums);
    Taken {
        progress,
        size: 0,
        kept: [0; 1472],
        verdicts,
        held,
        sums,
    }
}

// The steps, one after another, on the file that is taken.
#[derive(Drop)]
struct Cases {
    to: Stdout,
    taken: Taken,
}

impl Run for Cases {
    fn run(&mut self, call: u8, _name: &[u8], given: &[u8], rising: &mut [u8]) -> io::Result<()> {
        self.taken.take(self.to, call, given, rising)
    }
}

// At most 5,000 steps are read.
fn main(rt: HostRuntime) -> io::Result<()> {
    let mut name = [0u8; 1];
    let mut given = [0u8; 65536];
    let mut rising = [0u8; 65536];
    let mut cases = Cases {
        to: rt.stdout(),
        taken: begun(),
    };
    console::each(
        rt.stdin(),
        5000,
        &mut name,
        &mut given,
        &mut rising,
        &mut cases,
    )
}

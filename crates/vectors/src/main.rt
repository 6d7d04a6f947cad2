// Reads messages from standard input, and prints what the calls answer for each (tests/vectors/README.md).
#![tactic(auto)]

mod extra;
mod indexes;
mod names;
mod print;

use console::Run;
use cursor::Options;
use std::io;
use std::io::Stdout;

// Every code, as a known set.
const ALL: [u64; 4] = [u64::MAX; 4];

// The lookup of each option, in reading order; of a refused message the copy of one.
fn lookups(to: Stdout, m: &[u8]) -> io::Result<()> {
    let Ok(found) = message::find(m, 52) else {
        return print::copy_whole(to, m, 53);
    };
    let options = Options {
        m,
        over: found.over,
        at: cursor::first(),
    };
    for item in options {
        print::look_up(to, m, ALL, item.code)?;
    }
    Ok(())
}

// The lines of one message.
fn one(to: Stdout, m: &[u8]) -> io::Result<()> {
    let mut text = [0u8; 16384];
    let n = listing::list(m, &mut text);
    to.write_all(&text[..n])?;
    print::present(to, dhcpopt_reader::dhcpopt_present(m))?;
    lookups(to, m)?;
    let mut sheet = [0u8; 2048];
    print::records(to, m, &mut sheet)?;
    print::profile(to, m)?;
    println!(to; "-")
}

// The lines of each message; its call, its name and what is lent are not used.
#[derive(Drop)]
struct Cases {
    to: Stdout,
}

impl Run for Cases {
    fn run(&mut self, _call: u8, _name: &[u8], m: &[u8], _out: &mut [u8]) -> io::Result<()> {
        one(self.to, m)
    }
}

// At most 2,000 messages are read.
fn main(rt: HostRuntime) -> io::Result<()> {
    let mut name = [0u8; 1];
    let mut given = [0u8; 1600];
    let mut out = [0u8; 1];
    let to = rt.stdout();
    console::each(
        rt.stdin(),
        2000,
        &mut name,
        &mut given,
        &mut out,
        &mut Cases { to },
    )?;
    extra::lines(to)
}

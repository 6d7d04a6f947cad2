// Reads grouped files and sheets from standard input, makes the call asked for on each, and prints what it gave (tests/grouped/README.md).
#![tactic(auto)]

use console::Run;
use filled::PlainFilled;
use message::part;
use std::io;
use std::io::Stdout;

// The lines of a refusal, with the buffer as it is then.
fn refused(to: Stdout, number: u32, place: usize, out: &[u8]) -> io::Result<()> {
    println!(to; "refused {number} {place}")?;
    println!(to; "buffer sum {}", console::sum(out))
}

// The lines of what a call gave: the bytes, and a sum of those behind them.
fn given(to: Stdout, g: PlainFilled, out: &[u8]) -> io::Result<()> {
    if g.refusal != 0 {
        return refused(to, g.refusal, g.place, out);
    }
    println!(to; "given {}", g.size)?;
    print!(to; "bytes ")?;
    console::hex(to, part(out, 0, g.size))?;
    println!(to; "\nrest sum {}", console::sum(part(out, g.size, out.len())))
}

// The lines of a check.
fn checked(to: Stdout, f: &[u8], out: &[u8]) -> io::Result<()> {
    let c = dhcpopt_writer::dhcpopt_check_grouped(f);
    if c.refusal != 0 {
        return refused(to, c.refusal, c.place, out);
    }
    println!(to; "passed")
}

// One call: 0 checks, 1 chooses, 2 moves a sheet, any other goes back; and its lines.
fn call(to: Stdout, which: u8, f: &[u8], class: &[u8], out: &mut [u8]) -> io::Result<()> {
    match which {
        0 => checked(to, f, out),
        1 => given(to, dhcpopt_writer::dhcpopt_choose(f, class, out), out),
        2 => given(to, dhcpopt_writer::dhcpopt_group(f, out), out),
        _ => given(to, dhcpopt_writer::dhcpopt_ungroup(f, out), out),
    }
}

// The lines of each case, the last one too.
#[derive(Drop)]
struct Cases {
    to: Stdout,
}

impl Run for Cases {
    fn run(&mut self, which: u8, class: &[u8], file: &[u8], out: &mut [u8]) -> io::Result<()> {
        call(self.to, which, file, class, out)?;
        println!(self.to; "-")
    }
}

// At most 4,000 cases are read.
fn main(rt: HostRuntime) -> io::Result<()> {
    let mut class = [0u8; 300];
    let mut file = [0u8; 5000];
    let mut out = [0u8; 5000];
    console::each(
        rt.stdin(),
        4000,
        &mut class,
        &mut file,
        &mut out,
        &mut Cases { to: rt.stdout() },
    )
}

// Reads vendor information and relay information, and sheets of their items, from standard input, and prints what the calls that C links give of each (tests/items/README.md).
#![tactic(auto)]

use console::Run;
use dhcpopt_reader::{PlainId, PlainRelay};
use filled::PlainFilled;
use message::part;
use std::io;
use std::io::Stdout;

// What was given: the bytes, or the refusal; and a sum of the bytes of the buffer past them.
fn shown(to: Stdout, g: PlainFilled, out: &[u8]) -> io::Result<()> {
    if g.refusal != 0 {
        print!(to; "refused {} {}", g.refusal, g.place)?;
    } else {
        print!(to; "given {} ", g.size)?;
        console::hex(to, part(out, 0, g.size))?;
    }
    println!(to; " rest sum {}", console::sum(part(out, g.size, out.len())))
}

// Whether what was read back, or its refusal, is the sheet.
fn same(to: Stdout, sheet: &[u8], g: PlainFilled, out: &[u8]) -> io::Result<()> {
    if g.refusal != 0 {
        println!(to; "back refused {} {}", g.refusal, g.place)
    } else if sheet == part(out, 0, g.size) {
        println!(to; "back same")
    } else {
        println!(to; "back differs")
    }
}

// Whether the items that were written read as the sheet.
fn back(to: Stdout, sheet: &[u8], bytes: &[u8]) -> io::Result<()> {
    let mut out = [0u8; 4096];
    let g = dhcpopt_reader::dhcpopt_vendor_records(bytes, &mut out);
    same(to, sheet, g, &out)
}

fn read(to: Stdout, bytes: &[u8], out: &mut [u8]) -> io::Result<()> {
    let g = dhcpopt_reader::dhcpopt_vendor_records(bytes, out);
    shown(to, g, out)
}

fn write(to: Stdout, sheet: &[u8], out: &mut [u8]) -> io::Result<()> {
    let g = dhcpopt_writer::dhcpopt_vendor_write(sheet, out);
    shown(to, g, out)?;
    if g.refusal == 0 {
        back(to, sheet, part(out, 0, g.size))?;
    }
    Ok(())
}

// A circuit id or remote id: its start and length, or that it is absent; no data start at 0.
fn id(to: Stdout, name: &str, id: PlainId) -> io::Result<()> {
    if id.start == 0 {
        println!(to; "{name} absent")
    } else {
        println!(to; "{name} {} {}", id.start, id.length)
    }
}

// How many bytes the sub-options gave, or the refusal.
fn records(r: PlainRelay) -> PlainFilled {
    PlainFilled {
        refusal: r.refusal,
        size: r.size,
        place: r.place,
    }
}

// Whether the sub-options that were written read as the sheet.
fn relay_back(to: Stdout, sheet: &[u8], bytes: &[u8]) -> io::Result<()> {
    let mut out = [0u8; 4096];
    let r = dhcpopt_reader::dhcpopt_relay_records(bytes, &mut out);
    same(to, sheet, records(r), &out)
}

fn relay_read(to: Stdout, bytes: &[u8], out: &mut [u8]) -> io::Result<()> {
    let r = dhcpopt_reader::dhcpopt_relay_records(bytes, out);
    shown(to, records(r), out)?;
    if r.refusal == 0 {
        id(to, "circuit", r.circuit)?;
        id(to, "remote", r.remote)?;
    }
    Ok(())
}

// As `write`: with the two calls as parameters it would be no shorter.
fn relay_write(to: Stdout, sheet: &[u8], out: &mut [u8]) -> io::Result<()> {
    let g = dhcpopt_writer::dhcpopt_relay_write(sheet, out);
    shown(to, g, out)?;
    if g.refusal == 0 {
        relay_back(to, sheet, part(out, 0, g.size))?;
    }
    Ok(())
}

// The lines of one case but the last: 0 reads items, 1 writes them; 2 reads sub-options, any other call writes them.
fn case(to: Stdout, call: u8, bytes: &[u8], out: &mut [u8]) -> io::Result<()> {
    match call {
        0 => read(to, bytes, out),
        1 => write(to, bytes, out),
        2 => relay_read(to, bytes, out),
        _ => relay_write(to, bytes, out),
    }
}

// The lines of each case, the last one too.
#[derive(Drop)]
struct Cases {
    to: Stdout,
}

impl Run for Cases {
    fn run(&mut self, call: u8, _name: &[u8], bytes: &[u8], out: &mut [u8]) -> io::Result<()> {
        case(self.to, call, bytes, out)?;
        println!(self.to; "-")
    }
}

// At most 2,000 cases are read.
fn main(rt: HostRuntime) -> io::Result<()> {
    let mut name = [0u8; 1];
    let mut given = [0u8; 5000];
    let mut out = [0u8; 5000];
    console::each(
        rt.stdin(),
        2000,
        &mut name,
        &mut given,
        &mut out,
        &mut Cases { to: rt.stdout() },
    )
}

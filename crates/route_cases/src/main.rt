// Reads data of option 121, routes to write and messages from standard input, and prints what the calls on classless routes that C links give of each (tests/routes/README.md).
#![tactic(auto)]

use console::Run;
use dhcpopt_routes::{PlainIgnored, PlainRoute};
use filled::PlainFilled;
use message::part;
use std::io;
use std::io::Stdout;

// A known set of every code, by words; 121 is bit 57 of the second.
const EVERY: u64 = u64::MAX;

const BIT_121: u64 = 1 << 57;

// A step: the route and the place behind it, or that there is none, and the place.
fn shown_step(to: Stdout, s: PlainRoute) -> io::Result<()> {
    if s.given == 0 {
        println!(to; "done {}", s.next)
    } else {
        println!(to;
            "route {} {} {} {}",
            s.destination, s.width, s.router, s.next
        )
    }
}

// The walk from the first byte on. No data of 5,000 bytes have more than 1,000 routes.
fn walk(to: Stdout, bytes: &[u8]) -> io::Result<()> {
    let mut at: usize = 0;
    for _ in 0..1001 {
        let s = dhcpopt_routes::dhcpopt_route_step(bytes, at);
        shown_step(to, s)?;
        if s.given == 0 {
            break;
        }
        at = s.next;
    }
    Ok(())
}

fn step(to: Stdout, bytes: &[u8], at: usize) -> io::Result<()> {
    shown_step(to, dhcpopt_routes::dhcpopt_route_step(bytes, at))
}

// What was given: the bytes, or the refusal; and a sum of the bytes of the buffer past them.
fn shown(to: Stdout, g: PlainFilled, out: &[u8]) -> io::Result<()> {
    if g.refusal != 0 {
        print!(to; "refused {} {}", g.refusal, g.place)?;
    } else {
        print!(to; "given {} ", g.size)?;
        console::hex(to, part(out, 0, g.size))?;
    }
    println!(to; " rest sum {}", console::sum(part(out, g.size, out.len())))
}

fn write(to: Stdout, bytes: &[u8], out: &mut [u8]) -> io::Result<()> {
    let g = dhcpopt_routes::dhcpopt_routes_write(bytes, out);
    shown(to, g, out)?;
    if g.refusal == 0 {
        walk(to, part(out, 0, g.size))?;
    }
    Ok(())
}

fn shown_ignored(to: Stdout, x: PlainIgnored) -> io::Result<()> {
    if x.refusal != 0 {
        println!(to; "refused {} {}", x.refusal, x.place)
    } else if x.ignored == 1 {
        println!(to; "yes")
    } else {
        println!(to; "no")
    }
}

// Whether 3 and 33 are ignored, where these codes are known.
fn ignored(to: Stdout, bytes: &[u8], known: [u64; 4]) -> io::Result<()> {
    let [a, b, c, d] = known;
    shown_ignored(
        to,
        dhcpopt_routes::dhcpopt_routes_ignored(bytes, a, b, c, d),
    )
}

// The lines of one case but the last: 0 walks, 1 writes and walks what was written, 2 to 4 ask whether 3 and 33 are ignored (2: every code is known; 3: 121 alone; 4: every code but
// 121), any other call steps at the place that the room names.
fn case(to: Stdout, call: u8, bytes: &[u8], out: &mut [u8]) -> io::Result<()> {
    match call {
        0 => walk(to, bytes),
        1 => write(to, bytes, out),
        2 => ignored(to, bytes, [EVERY, EVERY, EVERY, EVERY]),
        3 => ignored(to, bytes, [0, BIT_121, 0, 0]),
        4 => ignored(to, bytes, [EVERY, EVERY - BIT_121, EVERY, EVERY]),
        _ => step(to, bytes, out.len()),
    }
}

// The lines of each case, the last one too.
#[derive(Drop)]
struct Cases {
    to: Stdout,
}

impl Run for Cases {
    fn run(&mut self, call: u8, _name: &[u8], bytes: &[u8], out: &mut [u8]) -> io::Result<()> {
        case(self.to, call, bytes, out)?;
        println!(self.to; "-")
    }
}

// At most 2,000 cases are read.
fn main(rt: HostRuntime) -> io::Result<()> {
    let mut name = [0u8; 1];
    let mut given = [0u8; 5000];
    let mut out = [0u8; 5000];
    console::each(
        rt.stdin(),
        2000,
        &mut name,
        &mut given,
        &mut out,
        &mut Cases { to: rt.stdout() },
    )
}

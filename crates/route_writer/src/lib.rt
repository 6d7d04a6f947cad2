// The writer of classless routes (document 02, request 14; RFC 3442): nine bytes a route (width, destination, router) become the data of option 121.
#![tactic(auto)]

ghost use Rattle.std.specs.Prelude.{◌≡◌, not, ◌+◌, ◌≤◌, eqb, length, get_or, drop};
ghost use Rattle.std.proofs.Math.Option.{none};
ghost use Rattle.options.specs.Kinds.{width_bytes};
ghost use Rattle.options.specs.Routes.{cleared, faulty_from, first_faulty, one_route, route_bytes, write_routes};
ghost use Rattle.buffer.specs.Written.{Written};
ghost use Rattle.filled.specs.Fill.{Fills};
ghost use Rattle.route_writer.specs.Measure.{faulty_at, measured};

use refusal::{Refusal, Rule};

// Whether x has a bit past the width w. In 64 bits, so that a width of 32 moves all of them out of the low 32; those past the width stay there.
fn set_past(x: u32, w: u8) -> bool
    requires { w ≤ 32 }
    ensures { result ≡ not (eqb (cleared w x) x) }
{
    ((x as u64) << w) % 4294967296 != 0
}

// Whether the route that s begins with has a wide width or set bits past it, or is cut short.
fn is_faulty(s: &[u8]) -> bool
    ensures { result ≡ faulty_at s.now }
{
    if s.len() < 9 {
        return true;
    }
    let w = s[0];
    if 32 < w {
        return true;
    }
    set_past(num::first32(&s[1..5]), w)
}

// One pass that judges and measures: how many bytes the routes take, if none is faulty.
// It counts places, since over chunks of nine the writer takes more instructions than plain C.
fn measure(s: &[u8]) -> Result<usize, Refusal>
    ensures { result ≡ measured (first_faulty s.now) (length (route_bytes 0 s.now)) }
{
    if s.is_empty() {
        return Err(Rule::BadRoute.at(0));
    }
    let mut at: usize = 0;
    let mut k: usize = 0;
    let mut size: usize = 0;
    while at < s.len() {
        if is_faulty(&s[at..]) {
            return Err(Rule::BadRoute.at(k));
        }
        size = size + (route_data::width_bytes(s[at]) + 5);
        at = at + 9;
        k = k + 1;
    }
    Ok(size)
}

// Lays the route that s begins with over out from o on, and gives the place behind it.
fn put_route(out: &mut [u8], o: usize, s: &[u8]) -> usize
    requires { (9 ≤ length s.now) × (get_or s.now 0 0 ≤ 32) × (o + (width_bytes (get_or s.now 0 0) + 5) ≤ length out.old) }
    ensures { Written out.old o (one_route (get_or s.now 0 0) (drop 1 s.now)) result out.new }
{
    let n = route_data::width_bytes(s[0]);
    let five = o + 5;
    let e = o + 1 + n;
    let z = e + 4;
    // The router goes over what is left off of the destination: so the compiler knows the size of both copies.
    buffer::copy(&mut out[o..five], &s[0..5]);
    buffer::copy(&mut out[e..z], &s[5..9]);
    z
}

// One pass that writes routes without fault, from the start of out on. Gives how many bytes.
fn put_routes(out: &mut [u8], s: &[u8]) -> usize
    requires { (faulty_from 0 0 s.now ≡ none) × (length (route_bytes 0 s.now) ≤ length out.old) }
    ensures { Written out.old 0 (route_bytes 0 s.now) result out.new }
{
    let mut o: usize = 0;
    for route in s.chunks_exact(9) {
        o = put_route(out, o, route);
    }
    o
}

// The data of option 121 from nine bytes a route, in the buffer out: one pass that judges and measures, then one that writes. A refusal changes no byte.
pub fn write(s: &[u8], out: &mut [u8]) -> Result<usize, Refusal>
    ensures { Fills (write_routes s.now out.old) result out.new }
{
    let size = measure(s)?;
    let room = out.len();
    if room < size {
        return Err(Rule::NoRoom.at(room));
    }
    Ok(put_routes(out, s))
}

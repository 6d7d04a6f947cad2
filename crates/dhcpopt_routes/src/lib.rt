// Classless routes for C (document 02, request 14; RFC 3442): the walk over the data of option 121, whether 3 and 33 are ignored, and the writer of such data. A library of
// its own, so that no other call is compiled otherwise.
#![tactic(auto)]

ghost use Rattle.std.specs.Prelude.{◌≡◌, [], ◌∷◌};
ghost use Rattle.options.specs.CodeSet.{marked};
ghost use Rattle.options.specs.Routes.{route_step, ignored, write_routes};
ghost use Rattle.filled.specs.Plain.{plain_filled};
ghost use Rattle.dhcpopt_routes.specs.Plain.{plain_route, plain_ignored, answers_kind, RouteByCase, IgnoredByCase, IgnoredKept, RoutesKept};

use filled::PlainFilled;
use routes::Entry;

// given: 1 where there is a route, and next is the place behind it; else 0, the numbers are 0, and next is the place asked for.
#[repr(C)]
#[derive(Clone, Copy)]
pub struct PlainRoute {
    pub given: u32,
    pub destination: u32,
    pub width: u32,
    pub router: u32,
    pub next: usize,
}

// refusal: 0 where the call says whether 3 and 33 are ignored, 1 or 0; else its number, with its place.
#[repr(C)]
#[derive(Clone, Copy)]
pub struct PlainIgnored {
    pub refusal: u32,
    pub ignored: u32,
    pub place: usize,
}

// Each struct has the numbers that the rules give each case; no refusal has number 0, and none changes a byte.
pub fn proved()
    ensures { RouteByCase × IgnoredByCase × IgnoredKept × RoutesKept }
{}

// The route at a place of the data of option 121, and the place behind it; or done, at the end or at a faulty route.
#[unsafe(no_mangle)]
pub extern "C" fn dhcpopt_route_step(bytes: &[u8], at: usize) -> PlainRoute
    ensures { result ≡ plain_route at (route_step bytes.now at) }
{
    match routes::step_at(bytes, at) {
        Some(Entry { route, next }) => PlainRoute {
            given: 1,
            destination: route.destination,
            width: u32::from(route.width),
            router: route.router,
            next,
        },
        None => PlainRoute {
            given: 0,
            destination: 0,
            width: 0,
            router: 0,
            next: at,
        },
    }
}

// 1 for the statuses of an answer with a kind: a number, or a part. They are numbers, since the answer is the one that C gets.
fn answered(status: u32) -> u32
    ensures { result ≡ answers_kind status }
{
    u32::from(matches!(status, 3 | 4))
}

// Whether 3 and 33 are ignored, given the set of known codes: by the lookup of 121, whose number and place of a refusal, or of what is broken, are given on.
#[unsafe(no_mangle)]
pub extern "C" fn dhcpopt_routes_ignored(
    m: &[u8],
    k0: u64,
    k1: u64,
    k2: u64,
    k3: u64,
) -> PlainIgnored
    ensures { result ≡ plain_ignored (ignored (marked (k0 ∷ k1 ∷ k2 ∷ k3 ∷ [])) m.now) }
{
    let a = dhcpopt_reader::dhcpopt_lookup(m, k0, k1, k2, k3, 121);
    PlainIgnored {
        refusal: a.refusal,
        ignored: answered(a.status),
        place: a.place,
    }
}

// The data of option 121 from nine bytes a route (width, destination, router), at the front of the buffer out.
#[unsafe(no_mangle)]
pub extern "C" fn dhcpopt_routes_write(s: &[u8], out: &mut [u8]) -> PlainFilled
    ensures { (result ≡ plain_filled (write_routes s.now out.old).answer) × (out.new ≡ (write_routes s.now out.old).buffer) }
{
    PlainFilled::from(route_writer::write(s, out))
}

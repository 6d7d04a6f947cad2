// The calls of dhcpopt_routes for C, as a static library: each calls the library's function of its name, whose signature and clauses it has.
// Written by tests/exports.py.
#![tactic(auto)]

ghost use Rattle.std.specs.Prelude.{◌≡◌, [], ◌∷◌};
ghost use Rattle.options.specs.CodeSet.{marked};
ghost use Rattle.options.specs.Routes.{route_step, ignored, write_routes};
ghost use Rattle.filled.specs.Plain.{plain_filled};
ghost use Rattle.dhcpopt_routes.specs.Plain.{plain_route, plain_ignored};

use dhcpopt_routes::{PlainIgnored, PlainRoute};
use filled::PlainFilled;

// The route at a place of the data of option 121, and the place behind it; or done, at the end or at a faulty route.
#[unsafe(no_mangle)]
pub extern "C" fn dhcpopt_route_step(bytes: &[u8], at: usize) -> PlainRoute
    ensures { result ≡ plain_route at (route_step bytes.now at) }
{
    dhcpopt_routes::dhcpopt_route_step(bytes, at)
}

// Whether 3 and 33 are ignored, given the set of known codes: by the lookup of 121, whose number and place of a refusal, or of what is broken, are given on.
#[unsafe(no_mangle)]
pub extern "C" fn dhcpopt_routes_ignored(
    m: &[u8],
    k0: u64,
    k1: u64,
    k2: u64,
    k3: u64,
) -> PlainIgnored
    ensures { result ≡ plain_ignored (ignored (marked (k0 ∷ k1 ∷ k2 ∷ k3 ∷ [])) m.now) }
{
    dhcpopt_routes::dhcpopt_routes_ignored(m, k0, k1, k2, k3)
}

// The data of option 121 from nine bytes a route (width, destination, router), at the front of the buffer out.
#[unsafe(no_mangle)]
pub extern "C" fn dhcpopt_routes_write(s: &[u8], out: &mut [u8]) -> PlainFilled
    ensures { (result ≡ plain_filled (write_routes s.now out.old).answer) × (out.new ≡ (write_routes s.now out.old).buffer) }
{
    dhcpopt_routes::dhcpopt_routes_write(s, out)
}

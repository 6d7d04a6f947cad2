// The routes in the data of option 121 (document 02, request 14; RFC 3442): each a width byte, the width's whole and begun bytes of destination, and four bytes of router.
#![tactic(auto)]

ghost use Rattle.std.specs.Prelude.{◌≡◌, drop};
ghost use Rattle.options.specs.Kinds.{width_bytes, routes_fault_value};
ghost use Rattle.refusal.specs.Refused.{fault_or_none};
ghost use Rattle.route_data.specs.Route.{fault_here};

use refusal::Fault;

// How many bytes of its destination a route has: its width's whole and begun ones.
pub fn width_bytes(w: u8) -> usize
    ensures { result ≡ width_bytes w }
{
    (num::wide(w) + 7) / 8
}

// What is at fault with the route at a place: its value for a width over 32, its length where it is cut short or there is none.
pub fn route_fault(d: &[u8], at: usize) -> Option<Fault>
    ensures { fault_or_none result ≡ fault_here (drop at d.now) }
{
    if d.len() <= at {
        return Some(Fault::Length);
    }
    let w = d[at];
    if 32 < w {
        return Some(Fault::Value);
    }
    if d.len() - at < width_bytes(w) + 5 {
        return Some(Fault::Length);
    }
    None
}

// The first fault of the routes, one behind the other; none where they fill the data.
pub fn first_fault(d: &[u8]) -> Option<Fault>
    ensures { fault_or_none result ≡ routes_fault_value 0 d.now }
{
    let mut at: usize = 0;
    // No iterator: how far a step goes is read from the bytes.
    while at < d.len() {
        if let Some(fault) = route_fault(d, at) {
            return Some(fault);
        }
        let size = width_bytes(d[at]) + 5;
        at = at + size;
    }
    None
}

// The walk over the data of option 121, classless routes (document 02, request 14; RFC 3442): a reader remembers the data it was opened on and its place in it.
#![tactic(auto)]

ghost use Rattle.std.specs.Prelude.{◌≡◌};
ghost use Rattle.options.specs.Routes.{cleared, route_step};
ghost use Rattle.routes.specs.Walk.{step_by, ReaderGivesTheRoutes, EntryKeepsTheStep, DoneGivesNothing};

// A route (document 02, request 14): its addresses are numbers, and the destination has no bit past the width.
#[derive(Clone, Copy, Debug, PartialEq, Eq)]
pub struct Route {
    pub destination: u32,
    pub width: u8,
    pub router: u32,
}

// What stands at a place of the data (document 02, request 14): a route, and the place behind it.
#[derive(Clone, Copy, Debug, PartialEq, Eq)]
pub struct Entry {
    pub route: Route,
    pub next: usize,
}

// The data and a place in them (document 02, request 14). Its routes are those from the place on.
#[derive(Clone, Copy, Debug)]
pub struct RouteReader<'a> {
    pub list: &'a [u8],
    pub at: usize,
}

// x with the bits past the width w cleared. In 64 bits, so that a width of 0 clears all 32.
pub fn cleared(x: u32, w: u8) -> u32
    ensures { result ≡ cleared w x }
{
    if 32 <= w {
        return x;
    }
    let k = 32 - w as u32;
    (((x as u64) >> k) << k) as u32
}

// One step at any place of any data (document 02, request 14): the route there, or none at the end or at a faulty route. The iterator leaves the work to it.
pub fn step_at(list: &[u8], at: usize) -> Option<Entry>
    ensures { step_by result ≡ route_step list.now at }
{
    if let Some(_) = route_data::route_fault(list, at) {
        return None;
    }
    let width = list[at];
    let start = at + 1;
    let end = start + route_data::width_bytes(width);
    let next = end + 4;
    // Four bytes are there in any case: those that the destination has not are the router's, and cleared.
    let destination = cleared(num::first32(&list[start..start + 4]), width);
    let router = num::first32(&list[end..next]);
    let route = Route {
        destination,
        width,
        router,
    };
    Some(Entry { route, next })
}

impl<'a> Iterator for RouteReader<'a> {
    ghost use Rattle.routes.specs.Walk.{Steps, bytes_left};

    type Item = Route;

    ghost next_gives = { Steps };

    ghost remaining = { bytes_left };

    // The reader's next route, and the reader moved on; or none, and the reader stays where it is (document 02, request 14).
    fn next(&mut self) -> Option<Route> {
        let entry = step_at(self.list, self.at)?;
        self.at = entry.next;
        Some(entry.route)
    }
}

// The statements of specs/ hold.
pub fn proved()
    ensures { ReaderGivesTheRoutes × EntryKeepsTheStep × DoneGivesNothing }
{}

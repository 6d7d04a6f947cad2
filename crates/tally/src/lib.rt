// The tally of messages (document 02, request 11): what one message more adds to it. The caller lends the numbers.
#![tactic(auto)]

ghost use Rattle.std.specs.Prelude.{◌≡◌, ◌<◌, ◌++◌, take};
ghost use Rattle.options.specs.Reading.{read_message};
ghost use Rattle.options.specs.CodeSet.{with_mark};
ghost use Rattle.options.specs.Kinds.{first32};
ghost use Rattle.options.specs.Captures.{lease_time};
ghost use Rattle.message.specs.Active.{active_options};
ghost use Rattle.message.specs.Scan.{told_of, scan_of};
ghost use Rattle.cursor.specs.Cursor.{first_position};
ghost use Rattle.gather.specs.Joined.{joined_from};
ghost use Rattle.lookup.specs.Found.{InPieces};
ghost use Rattle.refusal.specs.Refused.{number_of};
ghost use Rattle.records.specs.FieldRecords.{ActiveEnds};
ghost use Rattle.records.specs.Places.{Stands};
ghost use Rattle.tally.specs.Noted.{time_in_value, widened_by, Raises, only_at, end_marks_value, Reaches, CountsOptions, StaysLent, Notes, Noted};

use message::Scanned;
use refusal::Rule;

// The smallest and the largest lease time.
#[derive(Clone, Copy)]
pub struct Lease {
    pub smallest: u32,
    pub largest: u32,
}

// The numbers that the caller lends: the messages accepted, and those refused by 1 to 7; by code, the accepted messages that hold it, and their data bytes.
#[derive(Drop)]
pub struct Tally<'a> {
    pub verdicts: &'a mut [u64; 8],
    pub held: &'a mut [u64; 256],
    pub bytes: &'a mut [u64; 256],
}

// Raises one of the numbers, if there is one at k; a sum over 64 bits wraps. With as many messages as are taken none does.
pub fn raise(numbers: &mut [u64], k: usize, n: u64)
    ensures { Raises (only_at k n) numbers.old numbers.new }
{
    if k < numbers.len() {
        numbers[k] = std::num::wrapping_add_u64(numbers[k], n);
    }
}

// The marks of pads and END: so one test tells them and the codes that were met from a code that is met first.
fn end_marks() -> [u64; 4]
    ensures { result ≡ end_marks_value }
{
    [1, 0, 0, 9223372036854775808]
}

// This and the next two that count take the numbers they change and not the tally: so no contract has to say that the verdicts stay.

// Counts the first piece of a code in an accepted message, of n bytes.
fn count_first(
    code: u8,
    n: usize,
    met: &mut [u64; 4],
    held: &mut [u64; 256],
    bytes: &mut [u64; 256],
)
    ensures { (code < 256) × (met.new ≡ with_mark met.old code) × Raises (only_at code 1) held.old held.new × Raises (only_at code n) bytes.old bytes.new }
{
    let k = num::wide(code);
    raise(held, k, 1);
    raise(bytes, k, n as u64);
    codeset::insert(met, code);
}

// Counts a further piece: its bytes alone.
fn count_further(code: u8, n: usize, bytes: &mut [u64; 256])
    ensures { (code < 256) × Raises (only_at code n) bytes.old bytes.new }
{
    raise(bytes, num::wide(code), n as u64);
}

// The first place from a place on where no pad stands.
fn past_pads(m: &[u8], over: u32, from: usize) -> usize
    requires { Stands over m.now from }
    ensures { Reaches over m.now from result }
{
    let mut i = from;
    // A `while`: an iterator would test at each pad for the end of the message, before which END stands.
    while m[i] == 0 {
        i = i + 1;
    }
    i
}

// Counts the options of an accepted message; `over` is the value of its option 52 (0: it has none). Nothing is tested that the walk which judged the message has
// tested.
fn count_options(m: &[u8], over: u32, held: &mut [u64; 256], bytes: &mut [u64; 256])
    requires { ActiveEnds over m.now }
    ensures { CountsOptions (active_options over m.now) held.old held.new bytes.old bytes.new }
{
    let mut met = end_marks();
    let mut i: usize = 240;
    // No iterator: how far a step goes is read from the bytes.
    loop {
        let c = m[i];
        if !codeset::has(&met, c) {
            let n = num::wide(m[i + 1]);
            count_first(c, n, &mut met, held, bytes);
            i = i + 2 + n;
        } else {
            if c == 255 {
                let Some(next) = records::next_place(over, i) else {
                    return;
                };
                i = next;
            } else {
                if c == 0 {
                    i = past_pads(m, over, i + 1);
                } else {
                    let n = num::wide(m[i + 1]);
                    count_further(c, n, bytes);
                    i = i + 2 + n;
                }
            }
        }
    }
}

// The lease times with that of one message more, if it has one.
pub fn widen(lease: Option<Lease>, time: Option<u32>) -> Option<Lease>
    ensures { result ≡ widened_by time lease }
{
    let Some(t) = time else {
        return lease;
    };
    match lease {
        Some(l) => Some(Lease {
            smallest: t.min(l.smallest),
            largest: t.max(l.largest),
        }),
        None => Some(Lease {
            smallest: t,
            largest: t,
        }),
    }
}

// The number of two parts end to end.
fn both_time(a: &[u8], b: &[u8]) -> u32
    ensures { result ≡ first32 (a.now ++ b.now) }
{
    num::be32(
        lookup::byte_of_both(a, b, 0),
        lookup::byte_of_both(a, b, 1),
        lookup::byte_of_both(a, b, 2),
        lookup::byte_of_both(a, b, 3),
    )
}

// The number that the pieces of option 51 begin with, gathered.
fn gathered_time(m: &[u8], over: u32) -> u32
    ensures { result ≡ first32 (take 4 (joined_from over m.now first_position 51)) }
{
    let mut head = [0u8; 4];
    let h = gather::gather(m, over, cursor::first(), 51, &mut head, 0);
    num::first32(&head[..h])
}

// The same, where there are several: two are read where they stand, as in a lookup.
fn joined_time(m: &[u8], w: Scanned) -> u32
    requires { InPieces m.now 51 (told_of w) }
    ensures { result ≡ first32 (joined_from w.over m.now first_position 51) }
{
    let first = message::part(m, w.start, num::wide(m[w.start - 1]));
    let last = message::part(m, w.last + 2, num::wide(m[w.last + 1]));
    if first.len() + last.len() == w.whole {
        return both_time(first, last);
    }
    gathered_time(m, w.over)
}

// The lease time of an accepted message, of which w tells where option 51 stands: it is well-formed where its pieces have four bytes together.
fn time_in(m: &[u8], w: Scanned) -> Option<u32>
    requires { told_of w ≡ scan_of 51 m.now }
    ensures { result ≡ time_in_value (lease_time (read_message m.now)) }
{
    if w.whole != 4 {
        return None;
    }
    let start = w.start;
    if w.last + 2 != start {
        return Some(joined_time(m, w));
    }
    let end = start + 4;
    Some(num::first32(&m[start..end]))
}

impl Tally<'_> {
    // Notes one message, and gives its lease time.
    pub fn note(&mut self, m: &[u8]) -> Option<u32>
        ensures same { StaysLent self.old self.new }
        ensures notes { Notes (read_message m.now) self.old.verdicts.now self.old.held.now self.old.bytes.now result self.new.verdicts.now self.new.held.now self.new.bytes.now }
    {
        match message::find(m, 51) {
            Ok(w) => {
                raise(self.verdicts, 0, 1);
                count_options(m, w.over, self.held, self.bytes);
                time_in(m, w)
            }
            Err(refusal) => {
                self.refuse(refusal.rule);
                None
            }
        }
    }

    // Notes a message that is refused by a rule.
    pub fn refuse(&mut self, rule: Rule)
        ensures same { StaysLent self.old self.new }
        ensures raises { Raises (only_at (number_of rule) 1) self.old.verdicts.now self.new.verdicts.now × (self.new.held.now ≡ self.old.held.now) × (self.new.bytes.now ≡ self.old.bytes.now) }
    {
        raise(self.verdicts, rule.number() as usize, 1);
    }
}

// Notes one message in any numbers. With others than eight, 256 and 256 nothing is noted.
pub fn note(m: &[u8], verdicts: &mut [u64], held: &mut [u64], bytes: &mut [u64]) -> Option<u32>
    ensures { Noted (read_message m.now) verdicts.old held.old bytes.old result verdicts.new held.new bytes.new }
{
    let verdicts = verdicts.as_mut_array::<8>()?;
    let held = held.as_mut_array::<256>()?;
    let bytes = bytes.as_mut_array::<256>()?;
    let mut tally = Tally {
        verdicts,
        held,
        bytes,
    };
    tally.note(m)
}

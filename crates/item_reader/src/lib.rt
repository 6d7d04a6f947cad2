// Inside an option: the items of vendor information, option 43 (document 02, request 05; RFC 2132, 8.4), and the sub-options of relay information,
// option 82 (request 09; RFC 3046), read as records.
#![tactic(auto)]

ghost use Rattle.std.specs.Prelude.{◌≡◌, ◌≤◌, length, eqb, IfErr};
ghost use Rattle.options.specs.SubOptions.{sub_options};
ghost use Rattle.options.specs.Vendor.{items_in, vendor_records_value};
ghost use Rattle.options.specs.Relay.{relay_records_value};
ghost use Rattle.buffer.specs.Written.{Written};
ghost use Rattle.filled.specs.Fill.{Fills};
ghost use Rattle.item_reader.specs.Laid.{pad_or_end_value, walk_of, item_bytes, NonePast};
ghost use Rattle.options.specs.Relay as asked;
ghost use Rattle.refusal.specs.declared.Rule.TheVariants.{BadLength};
ghost use Rattle.item_reader.specs.Walked.{id_of, first_id, id_after, walked_by, walked_of, WalkedByCase};
ghost use Rattle.item_reader.specs.Reads.{ReadAs, IdByCase};

use refusal::{Refusal, Rule};

// The statements of specs/ hold: the numbers of an id, and of what the walk gives, are those of each case.
pub fn proved()
    ensures { IdByCase × WalkedByCase }
{}

// Whether a code is a pad or END: so where items are marked by them, as those of vendor information; never among sub-options.
fn pad_or_end<const MARKED: bool>(c: u8) -> bool
    ensures { result ≡ pad_or_end_value MARKED c }
{
    MARKED && (c == 0 || c == 255)
}

// Lays the records of the items of f over out from its start on, and gives the place after them: as `records` goes through a field. The walk that judged f
// has found that no item runs past, so that is not tested again.
fn put_items<const MARKED: bool>(f: &[u8], out: &mut [u8]) -> usize
    requires { NonePast (walk_of MARKED f.now 0) × (length (item_bytes (walk_of MARKED f.now 0)) ≤ length out.old) }
    ensures { Written out.old 0 (item_bytes (walk_of MARKED f.now 0)) result out.new }
{
    let mut o = 0;
    let mut i: usize = 0;
    // No iterator: how far a step goes is read from the bytes.
    while i < f.len() {
        let c = f[i];
        if pad_or_end::<MARKED>(c) {
            if c == 255 {
                return o;
            }
            i = i + 1;
        } else {
            let j = i + 2;
            // The item's size, which its record exceeds by 1.
            let k = num::wide(f[i + 1]) + 2;
            let e = i + k;
            let next = o + k + 1;
            record_writer::put_record(&mut out[o..next], c, &f[j..e]);
            o = next;
            i = e;
        }
    }
    o
}

// The items of the bytes of an option 43, each as a record in the buffer out: one walk that judges and measures, then one that writes.
pub fn vendor_records(f: &[u8], out: &mut [u8]) -> Result<usize, Refusal>
    ensures { Fills (vendor_records_value f.now out.old) result out.new }
{
    let size = message::items(f)?;
    let room = out.len();
    if room < size {
        return Err(Rule::NoRoom.at(room));
    }
    Ok(put_items::<true>(f, out))
}

// Start and length of the data of a sub-option.
#[derive(Clone, Copy)]
pub struct Id {
    pub start: usize,
    pub length: usize,
}

// The first sub-option with a code, after one more of that code.
fn first(met: Option<Id>, here: Id) -> Option<Id>
    ensures { id_of result ≡ first_id (id_of met) (asked.named here.start here.length) }
{
    met.or(Some(here))
}

// Circuit id and remote id, each the first of its code.
#[derive(Clone, Copy)]
struct Ids {
    circuit: Option<Id>,
    remote: Option<Id>,
}

impl Ids {
    // The same after a sub-option with the code c.
    fn after(self, c: u8, here: Id) -> Ids
        ensures circuit { id_of result.circuit ≡ id_after (id_of self.circuit) (eqb c 1) here.start here.length }
        ensures remote { id_of result.remote ≡ id_after (id_of self.remote) (eqb c 2) here.start here.length }
    {
        match c {
            1 => Ids {
                circuit: first(self.circuit, here),
                remote: self.remote,
            },
            2 => Ids {
                circuit: self.circuit,
                remote: first(self.remote, here),
            },
            _ => self,
        }
    }
}

// What the reader answers: how many bytes of records there are, and the two ids.
#[derive(Clone, Copy)]
pub struct Read {
    pub size: usize,
    pub circuit: Option<Id>,
    pub remote: Option<Id>,
}

// Walks the sub-options once. The record of each has one byte more than it. One that runs past the bytes is refused, at its offset.
fn walk(f: &[u8]) -> Result<Read, Refusal>
    ensures told { walked_by result ≡ walked_of (items_in (sub_options 0 0 f.now)) }
    ensures rule { IfErr result (λ r. r.rule ≡ BadLength) }
{
    let mut count: usize = 0;
    let mut ids = Ids {
        circuit: None,
        remote: None,
    };
    let mut at: usize = 0;
    // No iterator: how far a step goes is read from the bytes.
    while at < f.len() {
        let j = at + 2;
        if f.len() < j {
            return Err(Rule::BadLength.at(at));
        }
        let n = num::wide(f[at + 1]);
        let e = j + n;
        if f.len() < e {
            return Err(Rule::BadLength.at(at));
        }
        let here = Id {
            start: j,
            length: n,
        };
        ids = ids.after(f[at], here);
        count = count + 1;
        at = e;
    }
    Ok(Read {
        size: f.len() + count,
        circuit: ids.circuit,
        remote: ids.remote,
    })
}

// The sub-options of the bytes of an option 82, each as a record in the buffer out: one walk that judges, measures and finds the ids, then one that writes.
pub fn relay_records(f: &[u8], out: &mut [u8]) -> Result<Read, Refusal>
    ensures { ReadAs (relay_records_value f.now out.old) result out.new }
{
    if f.len() == 0 {
        return Err(Rule::BadLength.at(0));
    }
    let read = walk(f)?;
    let room = out.len();
    if room < read.size {
        return Err(Rule::NoRoom.at(room));
    }
    let size = put_items::<false>(f, out);
    Ok(Read {
        size,
        circuit: read.circuit,
        remote: read.remote,
    })
}

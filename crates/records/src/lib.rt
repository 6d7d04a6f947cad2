// The records of a message (document 01, What is asked of a message): every option but 52 in reading order, written to a lent buffer.
#![tactic(auto)]

ghost use Rattle.std.specs.Prelude.{◌≡◌, Ok, true, cond, [], ◌+◌, ◌<◌, ◌≤◌, ◌^◌, ltb, length, set};
ghost use Rattle.options.specs.Answers as answers;
ghost use Rattle.buffer.specs.Written.{laid, Written};
ghost use Rattle.options.specs.Answers.{record_bytes};
ghost use Rattle.options.specs.CodeSet.{count_of};
ghost use Rattle.message.specs.Scan.{survey_of, told_of};
ghost use Rattle.message.specs.Active.{active_options};
ghost use Rattle.filled.specs.Fill.{Fills};
ghost use Rattle.records.specs.FieldRecords.{short_record, option_record, field_ends, field_records, ActiveEnds, active_records};
ghost use Rattle.records.specs.Places.{field_at, sname_place_value, next_place_value, some_place, Stands, Meets, joined_at};
ghost use Rattle.records.specs.JoinedRecords.{Small, long_record, first_record, counted, Tells, sheet_by, sheet_from, only52, needed, held};

use message::Scanned;
use refusal::{Refusal, Rule};

// Lays one record over out from at on. Data of an option has fewer than 256 bytes, so the length's high byte is 0.
// The part lent to `copy` is as long as body: so the compiler sees that the data fits, and drops its test.
fn put_record(out: &mut [u8], at: usize, code: u8, body: &[u8])
    requires { (at + 3 + length body.now ≤ length out.old) × (length body.now < 256) }
    ensures { out.new ≡ laid out.old at (short_record code body.now) }
{
    out[at] = code;
    out[at + 1] = 0;
    out[at + 2] = body.len() as u8;
    let a = at + 3;
    let e = a + body.len();
    buffer::copy(&mut out[a..e], body);
}

// The same for an option that may be 52, which is no record. Gives the place after what is laid.
fn put_option(out: &mut [u8], at: usize, code: u8, body: &[u8]) -> usize
    requires { (at + length (option_record code body.now) ≤ length out.old) × (length body.now < 256) }
    ensures { Written out.old at (option_record code body.now) result out.new }
{
    if code == 52 {
        return at;
    }
    put_record(out, at, code, body);
    at + 3 + body.len()
}

// Lays the records of a field's options over out from at on, and gives the place after them. The field has its END, which the walk that judged it
// has found: so every item is within the field, and that is not tested again.
fn put_field(f: &[u8], out: &mut [u8], at: usize) -> usize
    requires { (field_ends true f.now ≡ true) × (at + length (field_records true f.now) ≤ length out.old) }
    ensures { Written out.old at (field_records true f.now) result out.new }
{
    let mut o = at;
    let mut i: usize = 0;
    // No iterator: how far a step goes is read from the bytes.
    loop {
        let c = f[i];
        if c == 255 {
            return o;
        }
        if c == 0 {
            i = i + 1;
        } else {
            let j = i + 2;
            let e = j + num::wide(f[i + 1]);
            o = put_option(out, o, c, &f[j..e]);
            i = e;
        }
    }
}

// The same for a field that may be inactive.
fn put_if(on: bool, f: &[u8], out: &mut [u8], at: usize) -> usize
    requires { (field_ends on f.now ≡ true) × (at + length (field_records on f.now) ≤ length out.old) }
    ensures { Written out.old at (field_records on f.now) result out.new }
{
    if !on {
        return at;
    }
    put_field(f, out, at)
}

// Lays the records of every active field over out from its start on, in reading order; v is the value of option 52.
fn put_active(m: &[u8], v: u32, out: &mut [u8]) -> usize
    requires { (240 ≤ length m.now) × ActiveEnds v m.now × (length (active_records v m.now) ≤ length out.old) }
    ensures { Written out.old 0 (active_records v m.now) result out.new }
{
    let a = put_field(&m[240..], out, 0);
    let b = put_if(message::file_on(v), &m[108..236], out, a);
    put_if(message::sname_on(v), &m[44..108], out, b)
}

// The place where sname starts, where it is active.
fn sname_place(over: u32) -> Option<usize>
    ensures { result ≡ some_place (sname_place_value over) }
{
    if message::sname_on(over) {
        return Some(44);
    }
    None
}

// Where reading goes on behind the END at a place: where the next active field starts, if there is one.
pub fn next_place(over: u32, i: usize) -> Option<usize>
    ensures { result ≡ some_place (next_place_value over (field_at i)) }
{
    if i < 108 {
        return None;
    }
    if i < 240 {
        return sname_place(over);
    }
    if message::file_on(over) {
        return Some(108);
    }
    sname_place(over)
}

// The place of the first option from a place on, in the reading order, if one is left. As in the other walks over an accepted message, nothing is tested that
// the walk which judged it has tested.
fn option_from(m: &[u8], over: u32, from: usize) -> Option<usize>
    requires { ActiveEnds over m.now × Stands over m.now from }
    ensures { Meets over m.now from result }
{
    let mut i = from;
    loop {
        let c = m[i];
        if c == 255 {
            i = next_place(over, i)?;
        } else {
            if c != 0 {
                return Some(i);
            }
            i = i + 1;
        }
    }
}

// Counts the pieces of each code, in a table with a byte for each: 2 stands for every number from 2 on.
fn count_pieces(m: &[u8], over: u32, table: &mut [u8])
    requires { ActiveEnds over m.now × (length table.old ≡ 256) }
    ensures { table.new ≡ counted table.old (active_options over m.now) }
{
    let mut from: usize = 240;
    while let Some(i) = option_from(m, over, from) {
        let k = num::wide(m[i]);
        table[k] = table[k].min(1) + 1;
        from = i + 2 + num::wide(m[i + 1]);
    }
}

// Lays data over out from at on, where they are of a piece. Gives the index after them.
fn put_piece(piece: bool, body: &[u8], out: &mut [u8], at: usize) -> usize
    requires { at + length (cond piece body.now []) ≤ length out.old }
    ensures { Written out.old at (cond piece body.now []) result out.new }
{
    if !piece {
        return at;
    }
    let e = at + body.len();
    buffer::copy(&mut out[at..e], body);
    e
}

// Lays the data of a code's pieces from a place on, end to end. By `option_from`, `over` is tested again at each option, and the whole takes more
// instructions than plain C: so this walk is written out.
fn join(m: &[u8], over: u32, from: usize, code: u8, out: &mut [u8], at: usize) -> usize
    requires { ActiveEnds over m.now × Stands over m.now from × (at + length (joined_at over m.now from code) ≤ length out.old) }
    ensures { Written out.old at (joined_at over m.now from code) result out.new }
{
    let mut o = at;
    let mut i = from;
    loop {
        let c = m[i];
        if c == 255 {
            let Some(next) = next_place(over, i) else {
                return o;
            };
            i = next;
        } else {
            if c == 0 {
                i = i + 1;
            } else {
                let j = i + 2;
                let e = j + num::wide(m[i + 1]);
                o = put_piece(code == c, &m[j..e], out, o);
                i = e;
            }
        }
    }
}

// Lays the record of a code whose first piece stands at a place: the data of all its pieces.
fn put_joined(m: &[u8], over: u32, from: usize, code: u8, out: &mut [u8], at: usize) -> usize
    requires { ActiveEnds over m.now × Stands over m.now from × (at + 3 + length (joined_at over m.now from code) ≤ length out.old) × (length (joined_at over m.now from code) < 65536) }
    ensures { Written out.old at (long_record code (joined_at over m.now from code)) result out.new }
{
    let a = at + 3;
    let e = join(m, over, from, code, out, a);
    let n = e - a;
    out[at] = code;
    out[at + 1] = (n / 256) as u8;
    out[at + 2] = (n % 256) as u8;
    e
}

// The same, unless the code has no record or has it already: the table then has 0 for it, and has that afterwards.
fn put_first(
    m: &[u8],
    over: u32,
    from: usize,
    code: u8,
    table: &mut [u8],
    out: &mut [u8],
    at: usize,
) -> usize
    requires { ActiveEnds over m.now × Stands over m.now from × (length table.old ≡ 256) × (at + length (first_record table.old code (joined_at over m.now from code)) ≤ length out.old) × (length (first_record table.old code (joined_at over m.now from code)) < 65536) }
    ensures { Written out.old at (first_record table.old code (joined_at over m.now from code)) result out.new × (table.new ≡ set table.old code 0) }
{
    let k = num::wide(code);
    if table[k] == 0 {
        return at;
    }
    table[k] = 0;
    put_joined(m, over, from, code, out, at)
}

// Lays the record of a code that stands once.
fn put_once(code: u8, body: &[u8], table: &mut [u8], out: &mut [u8], at: usize) -> usize
    requires { (length table.old ≡ 256) × (at + 3 + length body.now ≤ length out.old) × (length body.now < 256) }
    ensures { Written out.old at (short_record code body.now) result out.new × (table.new ≡ set table.old code 0) }
{
    table[num::wide(code)] = 0;
    put_record(out, at, code, body);
    at + 3 + body.len()
}

// Lays the records by a table of the codes that have one: each at its code's first piece. A code that stands once is told by one test, before those for pad
// and END: so this walk does not go by `option_from`.
fn put_codes(m: &[u8], over: u32, table: &mut [u8], out: &mut [u8]) -> usize
    requires { ActiveEnds over m.now × Tells table.old (active_options over m.now) × (length (record_bytes (sheet_by table.old (active_options over m.now))) ≤ length out.old) × (length (record_bytes (sheet_by table.old (active_options over m.now))) < 65536) }
    ensures { Written out.old 0 (record_bytes (sheet_by table.old (active_options over m.now))) result out.new }
{
    let mut o = 0;
    let mut i: usize = 240;
    loop {
        let c = m[i];
        if table[num::wide(c)] == 1 {
            let j = i + 2;
            let e = j + num::wide(m[i + 1]);
            o = put_once(c, &m[j..e], table, out, o);
            i = e;
        } else {
            if c == 255 {
                let Some(next) = next_place(over, i) else {
                    return o;
                };
                i = next;
            } else {
                if c == 0 {
                    i = i + 1;
                } else {
                    o = put_first(m, over, i, c, table, out, o);
                    i = i + 2 + num::wide(m[i + 1]);
                }
            }
        }
    }
}

// Lays the records of a message in which a code has several pieces. 52 has none; 0 and 255, which are no codes, are not taken for codes that stand once.
fn put_split(m: &[u8], over: u32, out: &mut [u8]) -> usize
    requires { ActiveEnds over m.now × Small (active_options over m.now) × (length (record_bytes (sheet_from only52 (active_options over m.now))) ≤ length out.old) × (length (record_bytes (sheet_from only52 (active_options over m.now))) < 65536) }
    ensures { Written out.old 0 (record_bytes (sheet_from only52 (active_options over m.now))) result out.new }
{
    let mut table = [0u8; 256];
    count_pieces(m, over, &mut table);
    table[0] = 2;
    table[52] = 0;
    table[255] = 2;
    put_codes(m, over, &mut table, out)
}

// Whether n bytes are too few for the records: what all options take in their fields, with a record's head for each code and without that of each piece
// and without option 52, of which t tells.
fn too_small(n: usize, t: Scanned, codes: u32) -> bool
    requires { (n ≤ 2 ^ 63) × (t.used ≤ 65536) × (t.count ≤ 65536) × (t.whole ≤ 65536) }
    ensures { result ≡ ltb (held n (told_of t)) (needed (told_of t) codes) }
{
    // Option 52, whose data start behind its code and length, would have a record's head too.
    let head = 3 * t.start.min(1);
    let need = t.used + codes as usize * 3;
    let have = n + t.count * 2 + t.whole + head;
    have < need
}

// The records of an accepted message, of which t tells, and which has so many codes, in a buffer that is large enough.
fn put_records(m: &[u8], t: Scanned, codes: u32, out: &mut [u8]) -> usize
    requires { (told_of t ≡ survey_of m.now) × (codes ≡ count_of (answers.present m.now).words) × (needed (told_of t) codes ≤ held (length out.old) (told_of t)) }
    ensures { Fills (answers.records m.now out.old) (Ok result) out.new }
{
    if t.count == codes as usize {
        return put_active(m, t.over, out);
    }
    put_split(m, t.over, out)
}

// The records of a message (document 01, Sheet of a message; document 02, request 02): one walk that judges and measures, then one that writes. Where no
// code has several pieces, that is each option as it comes.
pub fn records(m: &[u8], out: &mut [u8]) -> Result<usize, Refusal>
    ensures { Fills (answers.records m.now out.old) result out.new }
{
    let mut seen = [0; 4];
    let t = message::codes(m, &mut seen)?;
    let codes = codeset::count(seen);
    let room = out.len();
    if too_small(room, t, codes) {
        return Err(Rule::NoRoom.at(room));
    }
    Ok(put_records(m, t, codes, out))
}

// One walk over a whole message (document 01, The message and its fields): the length and the cookie, then options, file and sname.
#![tactic(auto)]

ghost use Rattle.std.specs.Prelude.{◌≡◌, IfErr, Ok, Bool, true, cond, not, ◌+◌, ◌-◌, ◌<◌, ◌≤◌, ◌^◌, eqb, length, take, drop};
ghost use Rattle.options.specs.Message.{start, bytes, cookie};
ghost use Rattle.options.specs.Reading.{same, parse, right52, file_in, sname_in};
ghost use Rattle.options.specs.CodeSet.{marked};
ghost use Rattle.options.specs.Vendor.{items_in};
ghost use Rattle.message.specs.Fields.{field_of, FieldsComeBack};
ghost use Rattle.message.specs.Active.{active_in};
ghost use Rattle.message.specs.Part.{part_at};
ghost use Rattle.refusal.specs.Refused.{number_in, rule_in};
ghost use Rattle.refusal.specs.declared.Rule.TheVariants.{ItemTruncated};
ghost use Rattle.message.specs.Scan.{told_of, told_by, scan_of, Surveys, ToldByCase, RefusedByCase};
ghost use Rattle.message.specs.Items.{measure_of, measured_by, MeasuredByCase};
ghost use Rattle.message.specs.Walk.{tallied, set_after, past_stop, past_set, Passes, over_stop_value, over_after_value, kept_after_value, ending_of, out_of, Lasts, last_of, Few, Walks};
ghost use Rattle.message.specs.Judging.{stop_number};
ghost use Rattle.message.specs.Walking.{unfit_of, scanned_of, start_from, end_place, Laid, Gives, low_watched, Bare, Tells};

use refusal::{Refusal, Rule};

#[derive(Clone, Copy, Debug, PartialEq, Eq)]
pub enum Field {
    Options,
    File,
    Sname,
}

// The place of a field's first byte in the message.
pub fn base(field: Field) -> usize
    ensures { (result ≡ start (field_of field)) × (result ≤ 240) }
{
    match field {
        Field::Options => 240,
        Field::File => 108,
        Field::Sname => 44,
    }
}

// Whether a field is active, by the value of option 52, or 0 where there is none.
pub fn active(over: u32, field: Field) -> bool
    ensures { result ≡ active_in over (field_of field) }
{
    match field {
        Field::Options => true,
        Field::File => file_on(over),
        Field::Sname => sname_on(over),
    }
}

// The bytes of a field, or those of them that there are.
pub fn field_bytes(m: &[u8], field: Field) -> &[u8]
    ensures { result.now ≡ bytes (field_of field) m.now }
{
    match field {
        Field::Options => part(m, 240, m.len()),
        Field::File => part(m, 108, 128),
        Field::Sname => part(m, 44, 64),
    }
}

// The len bytes from start on, or those of them that there are: as a slice of m itself.
pub fn part(m: &[u8], start: usize, len: usize) -> &[u8]
    ensures { (result.now ≡ take len (drop start m.now)) × (result.ref_ptr.0 ≡ m.entry.ref_ptr.0) × (result.ref_ptr.1 ≡ part_at (length m.now) start + m.entry.ref_ptr.1) }
{
    if m.len() <= start {
        return &m[..0];
    }
    if m.len() - start <= len {
        return &m[start..];
    }
    let e = start + len;
    &m[start..e]
}

fn cookie_ok(m: &[u8]) -> bool
    requires { 240 ≤ length m.now }
    ensures { result ≡ same (take 4 (drop 236 m.now)) cookie }
{
    // One comparison, of the four bytes 99, 130, 83, 99 as a number: so the compiler takes them from memory as they are.
    u32::from_le_bytes([m[236], m[237], m[238], m[239]]) == 1666417251
}

// Whether file is active, by the value of option 52.
pub fn file_on(v: u32) -> bool
    ensures { result ≡ file_in v }
{
    v == 1 || v == 3
}

// Whether sname is active, by the value of option 52.
pub fn sname_on(v: u32) -> bool
    ensures { result ≡ sname_in v }
{
    v == 2 || v == 3
}

// What is kept of the options met: of those with the wanted code, where the data of the first start in the message (0: none), where the code byte of the last
// stands, and how many bytes of data all have; and the value of option 52 (0: not met).
// Zero and no Option for start and over: no data start at 0, no option 52 has that value, and the definitions count so.
#[derive(Clone, Copy)]
pub struct Kept {
    pub start: usize,
    pub last: usize,
    pub whole: usize,
    pub over: u32,
}

// What a walk has met: what is kept; how many bytes the options take in their fields, and how many they are where they are marked (else 0).
#[derive(Clone, Copy)]
pub struct Walked {
    pub kept: Kept,
    pub used: usize,
    pub count: usize,
}

// Nothing met yet.
const NOTHING: Walked = Walked {
    kept: Kept {
        start: 0,
        last: 0,
        whole: 0,
        over: 0,
    },
    used: 0,
    count: 0,
};

// Where `pass` stops, how many options it has passed where they are marked, and whether a watched code stands there. A flag and no enum: both ways have the two numbers.
#[derive(Clone, Copy)]
pub struct Stop {
    pub at: usize,
    pub count: usize,
    pub watched: bool,
}

// What is counted only where options are marked.
fn tally<const MARKED: bool>(n: usize) -> usize
    ensures { result ≡ tallied MARKED n }
{
    if MARKED { n } else { 0 }
}

// Puts a code into the set and counts it, where options are marked.
fn mark_if<const MARKED: bool>(set: &mut [u64; 4], c: u8, count: usize) -> usize
    requires { count ≤ 2 ^ 63 }
    ensures { (result ≡ count + tallied MARKED 1) × (set.new ≡ set_after MARKED set.old c) }
{
    if !MARKED {
        return count;
    }
    codeset::insert(set, c);
    count + 1
}

// Passes over the options whose codes are not watched. The last byte of a field holds no whole option, so it is not looked at.
fn pass<const MARKED: bool>(
    watched: &[u64; 4],
    set: &mut [u64; 4],
    f: &[u8],
    end: usize,
    from: usize,
) -> Stop
    requires { (from ≤ length f.now) × (length f.now ≤ 2 ^ 63) × (end ≡ length f.now - 1) × (marked watched.now 0 ≡ true) × (marked watched.now 255 ≡ true) }
    ensures { Passes watched.now MARKED f.now from set.old result set.new }
{
    let mut i = from;
    let mut count: usize = 0;
    if end <= i {
        return Stop {
            at: i,
            count,
            watched: false,
        };
    }
    // No iterator: how far a step goes is read from the bytes. The bound is tested once, below.
    loop {
        let c = f[i];
        if codeset::has(watched, c) {
            return Stop {
                at: i,
                count,
                watched: true,
            };
        }
        let e = i + 2 + usize::from(f[i + 1]);
        // Only an option that ends before the last byte leaves room for another.
        if end <= e {
            return past::<MARKED>(set, f, i, e, c, count);
        }
        count = mark_if::<MARKED>(set, c, count);
        i = e;
    }
}

// Where passing over stops at an option that no other can follow: at the option, if it runs past the field; else it is passed over too. The option begins at
// i, and next is the first offset after it.
fn past<const MARKED: bool>(
    set: &mut [u64; 4],
    f: &[u8],
    i: usize,
    next: usize,
    c: u8,
    count: usize,
) -> Stop
    requires { count ≤ 2 ^ 63 }
    ensures { (result ≡ past_stop MARKED f.now i next count) × (set.new ≡ past_set MARKED f.now next set.old c) }
{
    if f.len() < next {
        return Stop {
            at: i,
            count,
            watched: false,
        };
    }
    let n = mark_if::<MARKED>(set, c, count);
    Stop {
        at: next,
        count: n,
        watched: false,
    }
}

// The first offset where no pad stands.
fn after_pads(f: &[u8], from: usize) -> usize
    requires { from ≤ length f.now }
    ensures { (from ≤ result) × (result ≤ length f.now) × (parse result 0 (drop result f.now) ≡ parse from 0 (drop from f.now)) }
{
    wire::code_at(f, from).unwrap_or(f.len())
}

// Judges an option with this code and data where it stands: a walk ends at an option 52 that is wrong, or at a second one; over: the value of the option 52 before.
pub fn over_stop(options: bool, over: u32, c: u8, d: &[u8]) -> Result<(), Rule>
    ensures { rule_in result ≡ stop_number (over_stop_value options over c d.now) }
{
    if c != 52 {
        return Ok(());
    }
    if over_wrong(options, d) {
        return Err(Rule::BadOverload);
    }
    if over != 0 {
        return Err(Rule::Duplicate);
    }
    Ok(())
}

// Whether an option 52 with these data is refused where it stands.
fn over_wrong(options: bool, d: &[u8]) -> bool
    ensures { result ≡ cond options (not (right52 d.now)) true }
{
    !(options && matches!(d, [1..=3]))
}

// The value of option 52 after an option with this code and data; the first one stands.
pub fn over_after(over: u32, c: u8, d: &[u8]) -> u32
    ensures { result ≡ over_after_value over c d.now }
{
    match d {
        [v, ..] if c == 52 && over == 0 => u32::from(*v),
        _ => over,
    }
}

// What is kept after a watched option with this code and data, whose code byte stands at the offset i of the field that begins at base. Of the first piece it
// is the data's start, of the last the code byte: with a place of one kind for both the compiler would make all of this also where another code is met.
fn kept_after(want: u8, k: Kept, c: u8, base: usize, i: usize, d: &[u8]) -> Kept
    requires { (k.whole ≤ 2 ^ 63 + 1000000) × (length d.now ≤ 255) × (base ≤ 240) × (i ≤ 2 ^ 63) }
    ensures { result ≡ kept_after_value want k c base i d.now }
{
    let over = over_after(k.over, c, d);
    if want != c {
        return Kept { over, ..k };
    }
    let last = base + i;
    let whole = k.whole + d.len();
    if k.start != 0 {
        return Kept {
            last,
            whole,
            over,
            ..k
        };
    }
    Kept {
        start: last + 2,
        last,
        whole,
        over,
    }
}

// How a walk ends where the bytes run out. A field of a message needs its END; bytes that begin at 0 are no message's, and need none.
fn ran_out(base: usize, i: usize, met: Walked) -> Result<Walked, Refusal>
    requires { (base ≤ 240) × (i ≤ 2 ^ 63) }
    ensures { ending_of result ≡ out_of base met.used met.count met.kept i }
{
    if base == 0 {
        return Ok(met);
    }
    Err(Rule::NoEnd.at(base + i))
}

// How a walk ends where no watched option is left, at an offset of a field.
fn last(f: &[u8], i: usize, base: usize, met: Walked) -> Result<Walked, Refusal>
    requires { (i ≤ length f.now) × (length f.now ≤ 2 ^ 63) × (base ≤ 240) × Lasts f.now i }
    ensures { ending_of result ≡ last_of base met.used met.count met.kept (parse i 0 (drop i f.now)) }
{
    if f.len() <= i {
        return ran_out(base, i, met);
    }
    match f[i] {
        255 => Ok(met),
        0 => ran_out(base, i + 1, met),
        _ => Err(Rule::OptionTruncated.at(base + i)),
    }
}

// Walks one field, whose first byte is at base, on top of the fields before. Of every option only those are looked at that are watched: pads, END, option
// 52 and the wanted code. This, `fields` and `scan` are compiled into each of the three calls below: fewer instructions than one copy for all.
#[inline(always)]
fn walk<const MARKED: bool>(
    watched: &[u64; 4],
    set: &mut [u64; 4],
    options: bool,
    want: u8,
    base: usize,
    f: &[u8],
    s: Walked,
) -> Result<Walked, Refusal>
    requires { (0 < length f.now) × (length f.now ≤ 2 ^ 63) × (base ≤ 240) × (marked watched.now 0 ≡ true) × (marked watched.now 255 ≡ true) × Few 1000000 (ending_of (Ok s)) }
    ensures { Walks watched.now MARKED options want base f.now (ending_of (Ok s)) set.old (ending_of result) set.new }
{
    let mut k = s.kept;
    let mut count = s.count;
    let mut pads: usize = 0;
    let mut i: usize = 0;
    let end = f.len() - 1;
    // From one watched option to the next: how far that is, is read from the bytes.
    loop {
        let p = pass::<MARKED>(watched, set, f, end, i);
        i = p.at;
        count += p.count;
        let met = Walked {
            kept: k,
            used: s.used + (i - pads),
            count,
        };
        if !p.watched {
            return last(f, i, base, met);
        }
        match f[i] {
            255 => return Ok(met),
            0 => {
                let j = after_pads(f, i + 1);
                pads += j - i;
                i = j;
            }
            c => {
                let j = i + 2;
                let e = j + usize::from(f[i + 1]);
                if f.len() < e {
                    return Err(Rule::OptionTruncated.at(base + i));
                }
                if let Err(rule) = over_stop(options, k.over, c, &f[j..e]) {
                    return Err(rule.at(base + i));
                }
                k = kept_after(want, k, c, base, i, &f[j..e]);
                count += 1;
                i = e;
            }
        }
    }
}

// Judges a message's length and cookie. The place of a refusal is the message's length, or the cookie's.
pub fn fit(m: &[u8]) -> Result<(), Refusal>
    ensures number { number_in result ≡ unfit_of m.now }
    ensures place { IfErr result (λ r. r.place ≡ cond (eqb (unfit_of m.now) 3) 236 (length m.now)) }
{
    if m.len() < 240 {
        return Err(Rule::MessageTooShort.at(m.len()));
    }
    if 1472 < m.len() {
        return Err(Rule::MessageTooLong.at(m.len()));
    }
    if !cookie_ok(m) {
        return Err(Rule::BadCookie.at(236));
    }
    Ok(())
}

// The place of a field's first byte, where options begins at first.
fn base_from(first: usize, field: Field) -> usize
    ensures { result ≡ start_from first (field_of field) }
{
    match field {
        Field::Options => first,
        _ => base(field),
    }
}

// The place after its last byte, in a message of len bytes.
fn end_from(len: usize, field: Field) -> usize
    ensures { result ≡ end_place len (field_of field) }
{
    match field {
        Field::Options => len,
        Field::File => 236,
        Field::Sname => 108,
    }
}

// Walks the fields one after another: the one that begins at first and goes on to the end, which is options, and file and sname where option 52 makes them
// active. Where 52 is not watched, as in bytes that are no message's, it makes none active.
#[inline(always)]
fn fields<const MARKED: bool>(
    watched: &[u64; 4],
    set: &mut [u64; 4],
    want: u8,
    first: usize,
    m: &[u8],
) -> Result<Walked, Refusal>
    requires { (first < length m.now) × (length m.now ≤ 2 ^ 63) × (marked watched.now 0 ≡ true) × (marked watched.now 255 ≡ true) × Laid watched.now first m.now }
    ensures { Gives watched.now MARKED want first m.now set.old (ending_of result) set.new }
{
    let mut s = NOTHING;
    for field in [Field::Options, Field::File, Field::Sname] {
        if active(s.kept.over, field) {
            let from = base_from(first, field);
            let f = &m[from..end_from(m.len(), field)];
            s = walk::<MARKED>(watched, set, field == Field::Options, want, from, f, s)?;
        }
    }
    Ok(s)
}

// What a walk over an accepted message tells: where the data of the first piece of the wanted code start (0: none), where the code byte of the last stands, and the
// bytes of all its pieces; the value of option 52 (0: none). Where codes are marked: the bytes that all options take in their fields, and how many options there
// are; else 0.
#[derive(Clone, Copy)]
pub struct Scanned {
    pub start: usize,
    pub last: usize,
    pub whole: usize,
    pub used: usize,
    pub count: usize,
    pub over: u32,
}

// What is counted is told only where options are marked: so a walk that marks none does not count.
fn told<const MARKED: bool>(s: Walked) -> Scanned
    ensures { told_of result ≡ scanned_of MARKED (ending_of (Ok s)) }
{
    let k = s.kept;
    Scanned {
        start: k.start,
        last: k.last,
        whole: k.whole,
        used: tally::<MARKED>(s.used),
        count: tally::<MARKED>(s.count),
        over: k.over,
    }
}

// Where the first field begins.
fn first_place(bare: bool) -> usize
    ensures { result ≡ cond bare 0 240 }
{
    if bare { 0 } else { 240 }
}

// The words of the watched codes: pads, option 52 in a message, and END.
const PADS: u64 = 1;

const PADS_AND_52: u64 = PADS | 1 << 52;

const END: u64 = 1 << 63;

// The watched codes below 64.
fn low_codes(bare: bool) -> u64
    ensures { result ≡ low_watched bare }
{
    if bare { PADS } else { PADS_AND_52 }
}

// Walks the message once. bare: m is bytes that hold items as a field holds options, but are no message's: 52 is a code like any other there, and no END is needed.
// Length and cookie are judged of a message alone. MARKED: every code is put into the set.
#[inline(always)]
fn scan<const MARKED: bool>(
    m: &[u8],
    want: u8,
    bare: bool,
    set: &mut [u64; 4],
) -> Result<Scanned, Refusal>
    requires { Bare bare MARKED want m.now }
    ensures { Tells bare MARKED want m.now set.old (told_by result) set.new }
{
    if !bare {
        fit(m)?;
    }
    // A walk looks at a field of one byte or more.
    let first = first_place(bare);
    if m.len() == first {
        return Err(Rule::NoEnd.at(first));
    }
    // These, END and the code that is wanted.
    let mut watched = [low_codes(bare), 0, 0, END];
    codeset::insert(&mut watched, want);
    let s = fields::<MARKED>(&watched, set, want, first, m)?;
    Ok(told::<MARKED>(s))
}

// Looks for the pieces of a code: the message is walked once.
pub fn find(m: &[u8], want: u8) -> Result<Scanned, Refusal>
    ensures { told_by result ≡ scan_of want m.now }
{
    let mut set = [0; 4];
    scan::<false>(m, want, false, &mut set)
}

// The codes of a message, and the size and number of its options: the message is walked once. The lent set becomes that of its codes; a refusal leaves it
// empty.
pub fn codes(m: &[u8], set: &mut [u64; 4]) -> Result<Scanned, Refusal>
    ensures { Surveys m.now (told_by result) set.new }
{
    *set = [0; 4];
    match scan::<true>(m, 52, false, set) {
        Ok(s) => {
            // Option 52 is watched, and so not marked.
            if s.start != 0 {
                codeset::mark(set, 52);
            }
            Ok(s)
        }
        Err(refusal) => {
            *set = [0; 4];
            Err(refusal)
        }
    }
}

// Judges bytes that hold items as a field holds options, vendor information (document 02, request 05), and measures what all take as records, in one walk: the one that
// judges the fields of a message. One that runs past them is refused, at its offset.
pub fn items(f: &[u8]) -> Result<usize, Refusal>
    ensures size { measured_by result ≡ measure_of (items_in (parse 0 0 f.now)) }
    ensures rule { IfErr result (λ r. r.rule ≡ ItemTruncated) }
{
    if f.len() == 0 {
        return Ok(0);
    }
    let mut set = [0; 4];
    match scan::<true>(f, 0, true, &mut set) {
        Ok(s) => Ok(s.used + s.count),
        Err(refusal) => Err(Rule::ItemTruncated.at(refusal.place)),
    }
}

// The statements of specs/ hold.
pub fn proved()
    ensures { FieldsComeBack × ToldByCase × RefusedByCase × MeasuredByCase }
{}

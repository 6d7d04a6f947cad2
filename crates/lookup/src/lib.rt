// Look up a code, its data and its text, and copy its bytes (document 01, What is asked of a message; document 02, requests 01 and 02).
#![tactic(auto)]

ghost use Rattle.std.specs.Prelude.{◌≡◌, true, false, cond, ◌++◌, ◌≤◌, ◌+◌, length, get_or};
ghost use Rattle.message.specs.Scan.{told_of, scan_of};
ghost use Rattle.message.specs.Fields.{field_of};
ghost use Rattle.message.specs.Part.{part_at};
ghost use Rattle.options.specs.Kinds.{kinds, judged_by, unless};
ghost use Rattle.options.specs.CodeSet.{marked};
ghost use Rattle.options.specs.Answers as asked;
ghost use Rattle.cursor.specs.Cursor.{first_position};
ghost use Rattle.buffer.specs.Written.{Written};
ghost use Rattle.text.specs.Text.{Puts};
ghost use Rattle.gather.specs.Joined.{joined_from};
ghost use Rattle.filled.specs.Fill.{Fills};
ghost use Rattle.refusal.specs.Refused.{fault_or_none};
ghost use Rattle.lookup.specs.Shown.{content_of, wholeness_of, origin_of, found_of, option_of, answer_of, extent_of, ContentByCase, OriginByCase, AnswerByCase, ExtentByCase};
ghost use Rattle.kinds.specs.Numbers.{kind_at, kind_numbered, row_at, is_list_value, list_fault_value, number_fault_value};
ghost use Rattle.lookup.specs.Found.{code_checked, field_at_value, origin_at_value, known_row_value, some_row, content_in, meaning_of, judged_of, several_at, size_at, data_at, InPieces, one_in, part_given};

use kinds::OptionKind;
use message::{Field, Scanned};
use refusal::{Fault, Refusal, Rule};

// What is answered of an option, wherever it stands (document 01, What is asked of a message): unknown, with the length of its data; broken, by its length or its value; or
// its kind, with the number or the length.
#[derive(Clone, Copy)]
pub enum Content {
    Unknown(usize),
    Broken(Fault),
    Address(u32),
    Addresses(usize),
    Pairs(usize),
    Flag(u8),
    Octet(u8),
    Number16(u16),
    Numbers16(usize),
    Unsigned32(u32),
    Signed32(i32),
    Text(usize),
    Opaque(usize),
    Relay(usize),
    Routes(usize),
}

// Whether an option comes in one piece, or in several, which then have so many bytes together (document 02, request 02).
#[derive(Clone, Copy)]
pub enum Wholeness {
    InOne,
    InPieces(usize),
}

// Where an option stands (document 02, requests 01 and 02): the field that holds its code byte, that byte's offset in it, and whether that is the first of
// several pieces.
#[derive(Clone, Copy)]
pub struct Origin {
    pub field: Field,
    pub offset: usize,
    pub wholeness: Wholeness,
}

// What is found of a code: where its option stands, and what is answered of it (document 02, request 01).
#[derive(Clone, Copy)]
pub struct Found {
    pub origin: Origin,
    pub content: Content,
}

// A part of the message; 0 and 0 when it is empty.
#[derive(Clone, Copy)]
pub struct Extent {
    pub start: usize,
    pub len: usize,
}

// Each name stands for the answer that the rules have under it, with its numbers.
pub fn proved()
    ensures { ContentByCase × OriginByCase × AnswerByCase × ExtentByCase }
{}

// What n bytes of data that keep the rules of a row mean, of which d has as many as the row's kind needs.
#[tactic(auto, using(crate::proofs::Rows::kind_told), unfolding(crate::specs::Found::meaning_of))]
#[inline(always)]
fn value(row: u8, n: usize, d: &[u8]) -> Content
    ensures { content_of result ≡ asked.known (meaning_of (kind_at (kind_numbered row)) n d.now) }
{
    match kinds::kind_in(row) {
        Some(OptionKind::Address) => Content::Address(num::first32(d)),
        Some(OptionKind::Addresses) => Content::Addresses(n),
        Some(OptionKind::Pairs) => Content::Pairs(n),
        Some(OptionKind::Flag) => Content::Flag(num::byte(d, 0)),
        Some(OptionKind::Octet) => Content::Octet(num::byte(d, 0)),
        Some(OptionKind::Number16) => Content::Number16(num::first16(d)),
        Some(OptionKind::Numbers16) => Content::Numbers16(n),
        Some(OptionKind::Unsigned32) => Content::Unsigned32(num::first32(d)),
        Some(OptionKind::Signed32) => Content::Signed32(num::signed(num::first32(d))),
        Some(OptionKind::Text) => Content::Text(kinds::text_len(d)),
        Some(OptionKind::Relay) => Content::Relay(n),
        Some(OptionKind::Routes) => Content::Routes(n),
        Some(OptionKind::Opaque) => Content::Opaque(n),
        None => Content::Opaque(n),
    }
}

// The same of data that a fault may break.
#[inline(always)]
fn judged(row: u8, n: usize, fault: Option<Fault>, d: &[u8]) -> Content
    ensures { content_of result ≡ asked.known (unless (fault_or_none fault) (meaning_of (kind_at (kind_numbered row)) n d.now)) }
{
    match fault {
        Some(fault) => Content::Broken(fault),
        None => value(row, n, d),
    }
}

// The row of a code, as a number; 0, as crates ranges and kinds have it, where it has none or is not known.
pub fn known_row(known: [u64; 4], code: u8) -> u8
    ensures { result ≡ known_row_value (marked known) code }
{
    if codeset::contains(known, code) {
        return ranges::row(code);
    }
    0
}

// The same, where there is one.
fn row_of(known: [u64; 4], code: u8) -> Option<u8>
    ensures { result ≡ some_row (known_row_value (marked known) code) }
{
    match known_row(known, code) {
        0 => None,
        row => Some(row),
    }
}

// What is answered of a code with the data d, by its row.
#[inline(always)]
fn judge(row: Option<u8>, d: &[u8]) -> Content
    ensures { content_of result ≡ content_in row d.now }
{
    match row {
        Some(row) => judged(row, d.len(), kinds::fault_in(row, d), d),
        None => Content::Unknown(d.len()),
    }
}

// The same of data in several pieces of which all are looked at. Not compiled into its caller, whose loops over all bytes would lose registers to it.
#[inline(never)]
fn judge_joined(row: u8, n: usize, fault: Option<Fault>, d: &[u8]) -> Content
    ensures { content_of result ≡ asked.known (unless (fault_or_none fault) (meaning_of (kind_at (kind_numbered row)) n d.now)) }
{
    judged(row, n, fault, d)
}

// What is answered of n bytes by a row that looks at few, where d has those. The length comes first: data of a wrong length are not judged.
fn judge_head(row: u8, n: usize, d: &[u8]) -> Content
    ensures { content_of result ≡ asked.known (judged_of row n (number_fault_value (row_at row) d.now) d.now) }
{
    if !kinds::length_fits(row, n) {
        return Content::Broken(Fault::Length);
    }
    judged(row, n, kinds::number_fault(row, d), d)
}

// The field that a place of the message is in. The fields lie apart, so the place tells the field.
fn field_at(place: usize) -> Field
    ensures { field_of result ≡ field_at_value place }
{
    if 240 <= place {
        return Field::Options;
    }
    if 108 <= place {
        return Field::File;
    }
    Field::Sname
}

// The origin of an option whose code byte stands at a place of the message.
fn origin_at(place: usize, wholeness: Wholeness) -> Origin
    requires { 44 ≤ place }
    ensures { origin_of result ≡ origin_at_value place (wholeness_of wholeness) }
{
    let field = field_at(place);
    Origin {
        field,
        offset: place - message::base(field),
        wholeness,
    }
}

// The data of the option whose code byte stands at a place of the message.
fn piece(m: &[u8], place: usize) -> &[u8]
    requires { place + 2 + size_at m.now place ≤ length m.now }
    ensures { result.now ≡ data_at m.now place }
{
    let start = place + 2;
    let end = start + num::wide(m[place + 1]);
    &m[start..end]
}

// The byte at i of two parts end to end, or 0 past their end.
pub fn byte_of_both(a: &[u8], b: &[u8], i: usize) -> u8
    ensures { result ≡ get_or (a.now ++ b.now) i 0 }
{
    if i < a.len() {
        return a[i];
    }
    num::byte(b, i - a.len())
}

// What is answered of two parts by a row that looks at few bytes.
fn judge_both(row: u8, a: &[u8], b: &[u8]) -> Content
    requires { is_list_value (row_at row) ≡ false }
    ensures { content_of result ≡ asked.known (judged_by (row_at row) (a.now ++ b.now)) }
{
    let head = [
        byte_of_both(a, b, 0),
        byte_of_both(a, b, 1),
        byte_of_both(a, b, 2),
        byte_of_both(a, b, 3),
    ];
    judge_head(row, a.len() + b.len(), &head)
}

// Puts two parts end to end at the front of a buffer, and gives the index after them.
fn put_both(a: &[u8], b: &[u8], out: &mut [u8]) -> usize
    requires { length a.now + length b.now ≤ length out.old }
    ensures { Written out.old 0 (a.now ++ b.now) result out.new }
{
    let n = a.len();
    let e = n + b.len();
    buffer::copy(&mut out[0..n], a);
    buffer::copy(&mut out[n..e], b);
    e
}

// Of a code that comes in several pieces, once the message was walked. The pieces lie apart. Where there are two, as nearly always, they are found without
// another walk: the walk tells where the first and the last stand. Else they are gathered.

// All their bytes, at the front of a buffer that has room for them. Gives the index after them.
fn put_pieces(m: &[u8], code: u8, w: Scanned, out: &mut [u8]) -> usize
    requires { InPieces m.now code (told_of w) × (w.whole ≤ length out.old) }
    ensures { Puts out.old 0 (joined_from w.over m.now first_position code) result out.new }
{
    let first = piece(m, w.start - 2);
    let last = piece(m, w.last);
    if first.len() + last.len() == w.whole {
        return put_both(first, last, out);
    }
    gather::gather(m, w.over, cursor::first(), code, out, 0)
}

// What is answered where the row looks at all bytes: they are put into a buffer of the function's own, once their length, which the walk told, is right.
fn by_list(m: &[u8], row: u8, code: u8, w: Scanned) -> Content
    requires { (is_list_value (row_at row) ≡ true) × InPieces m.now code (told_of w) }
    ensures { content_of result ≡ asked.known (judged_by (row_at row) (joined_from w.over m.now first_position code)) }
{
    if !kinds::length_fits(row, w.whole) {
        return Content::Broken(Fault::Length);
    }
    let mut joined = [0u8; 1472];
    let n = put_pieces(m, code, w, &mut joined);
    let d = &joined[..n];
    judge_joined(row, n, kinds::list_fault(row, d), d)
}

// What is answered where the row looks at few: of three pieces or more the first four bytes are gathered.
fn by_first_four(m: &[u8], row: u8, code: u8, w: Scanned) -> Content
    requires { (is_list_value (row_at row) ≡ false) × InPieces m.now code (told_of w) }
    ensures { content_of result ≡ asked.known (judged_by (row_at row) (joined_from w.over m.now first_position code)) }
{
    let mut head = [0u8; 4];
    let h = gather::gather(m, w.over, cursor::first(), code, &mut head, 0);
    judge_head(row, w.whole, &head[..h])
}

fn by_head(m: &[u8], row: u8, code: u8, w: Scanned) -> Content
    requires { (is_list_value (row_at row) ≡ false) × InPieces m.now code (told_of w) }
    ensures { content_of result ≡ asked.known (judged_by (row_at row) (joined_from w.over m.now first_position code)) }
{
    let first = piece(m, w.start - 2);
    let last = piece(m, w.last);
    if first.len() + last.len() == w.whole {
        return judge_both(row, first, last);
    }
    by_first_four(m, row, code, w)
}

fn judge_pieces(m: &[u8], row: Option<u8>, code: u8, w: Scanned) -> Content
    requires { InPieces m.now code (told_of w) }
    ensures { content_of result ≡ content_in row (joined_from w.over m.now first_position code) }
{
    let Some(row) = row else {
        return Content::Unknown(w.whole);
    };
    if kinds::is_list(row) {
        return by_list(m, row, code, w);
    }
    by_head(m, row, code, w)
}

// What is found of a code that comes in several pieces.
fn in_pieces(m: &[u8], row: Option<u8>, code: u8, w: Scanned) -> Found
    requires { InPieces m.now code (told_of w) }
    ensures { found_of result ≡ several_at row w.start (joined_from w.over m.now first_position code) }
{
    let origin = origin_at(w.start - 2, Wholeness::InPieces(w.whole));
    let content = judge_pieces(m, row, code, w);
    Found { origin, content }
}

// What is found of a code, once the message was walked.
fn found_in(m: &[u8], known: [u64; 4], code: u8, w: Scanned) -> Option<Found>
    requires { (asked.no_code code ≡ false) × (told_of w ≡ scan_of code m.now) }
    ensures { option_of result ≡ asked.lookup kinds (marked known) m.now code }
{
    let start = w.start;
    if start == 0 {
        return None;
    }
    let row = row_of(known, code);
    if w.last + 2 != start {
        return Some(in_pieces(m, row, code, w));
    }
    let end = start + w.whole;
    // Before the data are judged: the compiler then goes from a row straight to its answer.
    let origin = origin_at(start - 2, Wholeness::InOne);
    let content = judge(row, &m[start..end]);
    Some(Found { origin, content })
}

// Pads and END are no codes.
fn check_code(code: u8) -> Result<(), Refusal>
    ensures { result ≡ code_checked code }
{
    if code == 0 || code == 255 {
        return Err(Rule::BadCode.at(0));
    }
    Ok(())
}

// Looks up a code, given the set of known codes. None where it is absent. One walk over the message.
pub fn lookup(m: &[u8], known: [u64; 4], code: u8) -> Result<Option<Found>, Refusal>
    ensures { answer_of result ≡ asked.lookup kinds (marked known) m.now code }
{
    check_code(code)?;
    let w = message::find(m, code)?;
    Ok(found_in(m, known, code, w))
}

// The data of a code that comes in one piece.
fn one_piece(m: &[u8], code: u8) -> Option<Extent>
    ensures { result ≡ one_in code m.now }
{
    let Ok(()) = check_code(code) else {
        return None;
    };
    let Ok(w) = message::find(m, code) else {
        return None;
    };
    if w.last + 2 != w.start {
        return None;
    }
    Some(Extent {
        start: w.start,
        len: w.whole,
    })
}

// The text of a code that comes in one piece, without its trailing zeros. No data at all, which breaks the kind, is a text of length 0 here: both have an empty part.
fn text_piece(m: &[u8], known: [u64; 4], code: u8) -> Option<Extent>
    ensures { part_given result ≡ asked.text_of (marked known) m.now code }
{
    let e = one_piece(m, code)?;
    if !ranges::is_text(code) {
        return None;
    }
    if !codeset::contains(known, code) {
        return None;
    }
    let start = e.start;
    let end = start + e.len;
    let t = &m[start..end];
    // The texts have one row, with the number of their kind.
    if kinds::fault_in(kinds::TEXT, t).is_some() {
        return None;
    }
    Some(Extent {
        start,
        len: kinds::text_len(t),
    })
}

// A part where there is one: 0 and 0 when it is empty.
fn clip(part: Option<Extent>) -> Extent
    ensures { extent_of result ≡ part_given part }
{
    match part {
        Some(e) if e.len != 0 => e,
        _ => Extent { start: 0, len: 0 },
    }
}

// Where all data bytes of a code stand, whether it is known or not, broken or not; empty where they stand in several pieces.
pub fn data_extent(m: &[u8], code: u8) -> Extent
    ensures { extent_of result ≡ asked.data_of m.now code }
{
    clip(one_piece(m, code))
}

// The data bytes of a code, as a part of the message, at their own place; empty when the code is absent, when it comes in several
// pieces, or when the call is refused.
pub fn data(m: &[u8], code: u8) -> &[u8]
    ensures { (result.now ≡ asked.bytes_of m.now (asked.data_of m.now code)) × (result.ref_ptr.0 ≡ m.entry.ref_ptr.0) × (result.ref_ptr.1 ≡ part_at (length m.now) (asked.data_of m.now code).start + m.entry.ref_ptr.1) }
{
    let e = data_extent(m, code);
    message::part(m, e.start, e.len)
}

// Where the text of a code stands, without its trailing zeros; empty where it stands in several pieces.
pub fn text_extent(m: &[u8], known: [u64; 4], code: u8) -> Extent
    ensures { extent_of result ≡ asked.text_of (marked known) m.now code }
{
    clip(text_piece(m, known, code))
}

// The text of a code, as a part of the message, at its own place; empty unless the lookup answers text.
pub fn text(m: &[u8], known: [u64; 4], code: u8) -> &[u8]
    ensures { (result.now ≡ asked.bytes_of m.now (asked.text_of (marked known) m.now code)) × (result.ref_ptr.0 ≡ m.entry.ref_ptr.0) × (result.ref_ptr.1 ≡ part_at (length m.now) (asked.text_of (marked known) m.now code).start + m.entry.ref_ptr.1) }
{
    let e = text_extent(m, known, code);
    message::part(m, e.start, e.len)
}

// The copy of a code, once the message was walked.
fn copy_in(m: &[u8], code: u8, w: Scanned, out: &mut [u8]) -> Result<usize, Refusal>
    requires { (asked.no_code code ≡ false) × (told_of w ≡ scan_of code m.now) }
    ensures { Fills (asked.copy m.now code out.old) result out.new }
{
    if w.start == 0 {
        return Err(Rule::NoRoom.at(0));
    }
    let room = out.len();
    if room < w.whole {
        return Err(Rule::NoRoom.at(room));
    }
    if w.last + 2 == w.start {
        return Ok(text::put_word(out, 0, message::part(m, w.start, w.whole)));
    }
    Ok(put_pieces(m, code, w, out))
}

// Copies the bytes of a code, those of all its pieces end to end, to the front of a lent buffer, and gives their number (document 02, request 02).
pub fn copy(m: &[u8], code: u8, out: &mut [u8]) -> Result<usize, Refusal>
    ensures { Fills (asked.copy m.now code out.old) result out.new }
{
    check_code(code)?;
    let w = message::find(m, code)?;
    copy_in(m, code, w, out)
}

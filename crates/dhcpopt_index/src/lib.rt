// An index for C (document 02, request 07): 16-bit numbers are a pointer and their count. A library of its own, so that the plain lookup and this one are each
// compiled in one piece. The answers are those of dhcpopt_reader; here they are put into C's struct at once, without an enum between, since a lookup through
// an index does little else.
#![tactic(auto)]

ghost use Rattle.std.specs.Prelude.{◌≡◌, cond, [], ◌∷◌, ◌≤◌, ◌%◌, eqb, pos, length};
ghost use Rattle.options.specs.Kinds as kindsOf;
ghost use Rattle.options.specs.Kinds.{kinds, meaning};
ghost use Rattle.options.specs.CodeSet.{marked};
ghost use Rattle.options.specs.Answers as asked;
ghost use Rattle.options.specs.Index.{build, lookup_by, entry_answer, used_entry};
ghost use Rattle.filled.specs.Plain.{plain_filled};
ghost use Rattle.refusal.specs.Refused.{number_of, fault_number, fault_or_none};
ghost use Rattle.kinds.specs.Numbers.{kind_at, kind_numbered, row_at, value_fault_in};
ghost use Rattle.lookup.specs.Found.{content_by};
ghost use Rattle.dhcpopt_reader.specs.Plain.{plain_number, plain_content, plain_answer};
ghost use Rattle.dhcpopt_index.specs.Found.{text_content_value, part_content, span_at_value, found_at};
ghost use Rattle.dhcpopt_index.specs.Built.{BuildKept};

use dhcpopt_reader::{PlainAnswer, PlainContent};
use filled::PlainFilled;
use kinds::OptionKind;
use message::Field;
use refusal::{Fault, Rule};

// No refusal of building has number 0, and none changes a number.
pub fn proved()
    ensures { BuildKept }
{}

// Builds the index of a message: the place of each code's byte, 0 where it is absent, 65,535 where it comes in pieces.
#[unsafe(no_mangle)]
pub extern "C" fn dhcpopt_index_build(m: &[u8], index: &mut [u16]) -> PlainFilled
    ensures { (result ≡ plain_filled (build m.now index.old).answer) × (index.new ≡ (build m.now index.old).buffer) }
{
    PlainFilled::from(index::build(m, index))
}

fn broken(fault: Fault) -> PlainContent
    ensures { result ≡ plain_content (asked.known (kindsOf.broken (fault_number fault))) }
{
    PlainContent {
        status: 5,
        kind: 0,
        refusal: fault.number(),
        number: 0,
        length: 0,
    }
}

fn unsigned(kind: u32, n: u32) -> PlainContent
    ensures { result ≡ plain_number kind (pos n) }
{
    dhcpopt_reader::of_number(kind, dhcpopt_reader::from_unsigned(n))
}

// What data that keep the rules of a row mean.
#[tactic(auto, using(lookup::proofs::Rows::kind_told), unfolding(options::specs::Kinds::meaning))]
#[inline(always)]
fn value(row: u8, d: &[u8]) -> PlainContent
    ensures { result ≡ plain_content (asked.known (meaning (kind_at (kind_numbered row)) d.now)) }
{
    match kinds::kind_in(row) {
        Some(OptionKind::Address) => unsigned(1, num::first32(d)),
        Some(OptionKind::Addresses) => dhcpopt_reader::of_part(4, 2, d.len()),
        Some(OptionKind::Pairs) => dhcpopt_reader::of_part(4, 3, d.len()),
        Some(OptionKind::Flag) => unsigned(4, num::byte(d, 0) as u32),
        Some(OptionKind::Octet) => unsigned(5, num::byte(d, 0) as u32),
        Some(OptionKind::Number16) => unsigned(6, num::first16(d) as u32),
        Some(OptionKind::Numbers16) => dhcpopt_reader::of_part(4, 7, d.len()),
        Some(OptionKind::Unsigned32) => unsigned(8, num::first32(d)),
        Some(OptionKind::Signed32) => {
            let z = num::signed(num::first32(d));
            dhcpopt_reader::of_number(9, dhcpopt_reader::from_signed(z))
        }
        Some(OptionKind::Text) => dhcpopt_reader::of_part(4, 10, kinds::text_len(d)),
        Some(OptionKind::Relay) => dhcpopt_reader::of_part(4, 12, d.len()),
        Some(OptionKind::Routes) => dhcpopt_reader::of_part(4, 13, d.len()),
        Some(OptionKind::Opaque) => dhcpopt_reader::of_part(4, 11, d.len()),
        None => dhcpopt_reader::of_part(4, 11, d.len()),
    }
}

// A text is judged by itself: the compiler then goes straight from its bytes to the answer.
fn text_content(d: &[u8]) -> PlainContent
    ensures { result ≡ plain_content (text_content_value d.now) }
{
    if !kinds::text_fits(d) {
        return broken(Fault::Value);
    }
    dhcpopt_reader::of_part(4, 10, kinds::text_len(d))
}

// A part of so many bytes, which a fault may break.
fn part(fault: Option<Fault>, kind: u32, length: usize) -> PlainContent
    ensures { result ≡ part_content (fault_or_none fault) kind length }
{
    match fault {
        Some(fault) => broken(fault),
        None => dhcpopt_reader::of_part(4, kind, length),
    }
}

// How data break the rule of value of a row of another kind than these.
fn value_fault(row: u8, d: &[u8]) -> Option<Fault>
    requires { (row % 16 ≡ 12 → ⊥) × (row % 16 ≡ 13 → ⊥) }
    ensures { fault_or_none result ≡ value_fault_in (row_at row) d.now }
{
    if kinds::is_list(row) {
        return kinds::short_list_fault(row, d);
    }
    kinds::number_fault(row, d)
}

// What is answered of a code with a row, with the data d.
fn content(row: u8, d: &[u8]) -> PlainContent
    ensures { result ≡ plain_content (content_by row d.now) }
{
    if row == 0 {
        return dhcpopt_reader::of_part(1, 0, d.len());
    }
    if !kinds::length_fits(row, d.len()) {
        return broken(Fault::Length);
    }
    match kinds::kind_in(row) {
        Some(OptionKind::Text) => text_content(d),
        Some(OptionKind::Relay) => part(kinds::suboptions_fault(d), 12, d.len()),
        Some(OptionKind::Routes) => part(route_data::first_fault(d), 13, d.len()),
        _ => match value_fault(row, d) {
            Some(fault) => broken(fault),
            None => value(row, d),
        },
    }
}

// A field that holds a place: where it begins and where it ends.
#[derive(Clone, Copy)]
pub struct Span {
    pub field: Field,
    pub base: usize,
    pub end: usize,
}

// The field that holds a place of a message of n bytes, where one does.
pub fn span_at(n: usize, place: usize) -> Option<Span>
    ensures { result ≡ span_at_value n place }
{
    if 240 <= place {
        return Some(Span {
            field: Field::Options,
            base: 240,
            end: n,
        });
    }
    if place < 44 {
        return None;
    }
    if place < 108 {
        return Some(Span {
            field: Field::Sname,
            base: 44,
            end: 108,
        });
    }
    if place < 236 {
        return Some(Span {
            field: Field::File,
            base: 108,
            end: 236,
        });
    }
    None
}

// The place of the code byte of what is broken; any other answer gives no place.
fn place_of(status: u32, place: usize) -> usize
    ensures { result ≡ cond (eqb status 5) place 0 }
{
    if status == 5 { place } else { 0 }
}

// The answer for an option in one piece, whose code byte is at a place of the message.
fn found(s: Span, place: usize, c: PlainContent) -> PlainAnswer
    requires { (s.base ≤ place) × (place ≤ 65535) }
    ensures { result ≡ found_at s place c }
{
    let field = s.field;
    PlainAnswer {
        status: c.status,
        kind: c.kind,
        refusal: c.refusal,
        field: dhcpopt_reader::field_number(field),
        number: c.number,
        place: place_of(c.status, place),
        offset: place - s.base,
        start: place + 2,
        length: c.length,
        whole: 0,
        several: 0,
    }
}

fn refused(rule: Rule, place: usize) -> PlainAnswer
    ensures { result ≡ plain_answer (asked.Refused (number_of rule) place) }
{
    dhcpopt_reader::of_refusal(2, rule.number(), place)
}

// The answer by an entry that is neither 0 nor 65,535: it is used only if the code, its length byte and its data are there, in one field.
// index_copy::copy_entry makes the same three tests: each refuses with its own type at once, and a function for both would give a third type, which each would match again.
fn at_entry(m: &[u8], span: Option<Span>, known: [u64; 4], code: u8, place: usize) -> PlainAnswer
    requires { (240 ≤ length m.now) × (place ≤ 65535) × (span ≡ span_at_value (length m.now) place) }
    ensures { result ≡ plain_answer (entry_answer kinds (marked known) code place (used_entry m.now code place)) }
{
    let Some(s) = span else {
        return refused(Rule::BadIndexEntry, place);
    };
    let start = place + 2;
    if s.end < start {
        return refused(Rule::BadIndexEntry, place);
    }
    if m[place] != code {
        return refused(Rule::BadIndexEntry, place);
    }
    let end = start + num::wide(m[place + 1]);
    if s.end < end {
        return refused(Rule::BadIndexEntry, place);
    }
    let row = lookup::known_row(known, code);
    found(s, place, content(row, &m[start..end]))
}

// Looks up a code through an index, given the set of known codes. What the plain lookup has to say of the message, it says: of one that does not fit, and of a
// code in pieces. It is lent the message anew, so that here nothing of it need be kept in memory.
#[unsafe(no_mangle)]
pub extern "C" fn dhcpopt_index_lookup(
    m: &[u8],
    index: &[u16],
    k0: u64,
    k1: u64,
    k2: u64,
    k3: u64,
    code: u8,
) -> PlainAnswer
    ensures { result ≡ plain_answer (lookup_by kinds (marked (k0 ∷ k1 ∷ k2 ∷ k3 ∷ [])) m.now index.now code) }
{
    if code == 0 || code == 255 {
        return refused(Rule::BadCode, 0);
    }
    if message::fit(m).is_err() {
        let a = dhcpopt_reader::dhcpopt_lookup(&m[..], k0, k1, k2, k3, code);
        return a;
    }
    let n = index.len();
    if n != 256 {
        return refused(Rule::BadIndexCount, n);
    }
    let entry = index[num::wide(code)];
    if entry == 0 {
        return dhcpopt_reader::of_refusal(0, 0, 0);
    }
    // Before the next test: else the compiler makes one chain of both, and asks for 65,535 first.
    let place = entry as usize;
    let span = span_at(m.len(), place);
    if entry == 65535 {
        let a = dhcpopt_reader::dhcpopt_lookup(&m[..], k0, k1, k2, k3, code);
        return a;
    }
    at_entry(m, span, [k0, k1, k2, k3], code, place)
}

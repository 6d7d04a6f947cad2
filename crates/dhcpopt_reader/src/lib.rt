// The reader for C (document 01: "calls these on plain numbers and byte slices"): a slice is a pointer and a length, the known set four words.
#![tactic(auto)]

ghost use Rattle.std.specs.Prelude.{◌≡◌, [], ◌∷◌, cond, ◌-◌, ◌≤◌, eqb, pos};
ghost use Rattle.options.specs.Kinds.{kinds};
ghost use Rattle.options.specs.CodeSet.{marked};
ghost use Rattle.options.specs.Answers.{lookup, data_of, text_of, address_step, present};
ghost use Rattle.message.specs.Fields.{field_of};
ghost use Rattle.lookup.specs.Shown.{content_of, wholeness_of, origin_of, answer_of, extent_of};
ghost use Rattle.present.specs.Marked.{shown_by};
ghost use Rattle.filled.specs.Fill.{given_of};
ghost use Rattle.item_reader.specs.Walked.{id_of};
ghost use Rattle.item_reader.specs.Reads.{given_in, circuit_in, remote_in};
ghost use Rattle.dhcpopt_reader.specs.Plain.{plain_number, plain_part, plain_content, field_number_value, plain_whole, plain_several, plain_found, plain_refusal, plain_answer, Near, plain_extent, plain_address, plain_shown, plain_codes};
ghost use Rattle.dhcpopt_reader.specs.Plain.{AnswerByCase, ExtentByCase, AddressByCase, CodesByCase, RecordsKept, CopyKept, VendorKept};
ghost use Rattle.options.specs.Answers as answers;
ghost use Rattle.filled.specs.Plain.{plain_filled};
ghost use Rattle.options.specs.Vendor.{vendor_records_value};
ghost use Rattle.options.specs.Relay.{relay_records_value};
ghost use Rattle.dhcpopt_reader.specs.Relay.{plain_id, plain_relay, read_as, RelayIsByCase, AbsentIffNoStart, RelayKept};

use filled::PlainFilled;
use item_reader::{Id, Read};
use lookup::{Content, Extent, Found, Wholeness};
use message::Field;
use present::Codes;
use refusal::Refusal;

// status: 0 absent, 1 unknown, 2 refused, 3 a number, 4 a part, 5 broken. kind: 1 to 11 in the order of document 01's table, 12 relay information, 13 classless routes. field: 1 options, 2 file, 3 sname.
// several: 1 where the option comes in two or more pieces, which then have `whole` bytes together; else 0 and 0.
#[repr(C)]
#[derive(Clone, Copy)]
pub struct PlainAnswer {
    pub status: u32,
    pub kind: u32,
    pub refusal: u32,
    pub field: u32,
    pub number: i64,
    pub place: usize,
    pub offset: usize,
    pub start: usize,
    pub length: usize,
    pub whole: usize,
    pub several: u32,
}

// What an answer says of an option, wherever it stands.
#[derive(Clone, Copy)]
pub struct PlainContent {
    pub status: u32,
    pub kind: u32,
    pub refusal: u32,
    pub number: i64,
    pub length: usize,
}

// A part of the message, 0 and 0 when it is empty.
#[repr(C)]
#[derive(Clone, Copy)]
pub struct PlainExtent {
    pub start: usize,
    pub length: usize,
}

// given: 1 where there is an address, and next is the place after it; else 0.
#[repr(C)]
#[derive(Clone, Copy)]
pub struct PlainAddress {
    pub given: u32,
    pub address: u32,
    pub next: usize,
}

// start: 0 where the id is absent; data never start before 2.
#[repr(C)]
#[derive(Clone, Copy)]
pub struct PlainId {
    pub start: usize,
    pub length: usize,
}

// refusal: 0 where size bytes of records were given, and the ids are named; else its number, with its place, and no id.
#[repr(C)]
#[derive(Clone, Copy)]
pub struct PlainRelay {
    pub refusal: u32,
    pub size: usize,
    pub place: usize,
    pub circuit: PlainId,
    pub remote: PlainId,
}

// refusal: 0 where the message is accepted.
#[repr(C)]
#[derive(Clone, Copy)]
pub struct PlainCodes {
    pub words: [u64; 4],
    pub count: u32,
    pub lowest: u32,
    pub refusal: u32,
    pub place: usize,
}

// Each struct has the numbers that the rules give each case; no refusal of a call that fills a buffer has number 0, and none changes a byte.
pub fn proved()
    ensures { AnswerByCase × ExtentByCase × AddressByCase × CodesByCase × RecordsKept × CopyKept × VendorKept × RelayIsByCase × AbsentIffNoStart × RelayKept }
{}

pub fn from_unsigned(n: u32) -> i64
    ensures { result ≡ pos n }
{
    n as i64
}

pub fn from_signed(z: i32) -> i64
    ensures { result ≡ z }
{
    z as i64
}

pub fn of_number(kind: u32, number: i64) -> PlainContent
    ensures { result ≡ plain_number kind number }
{
    PlainContent {
        status: 3,
        kind,
        refusal: 0,
        number,
        length: 0,
    }
}

pub fn of_part(status: u32, kind: u32, length: usize) -> PlainContent
    ensures { result ≡ plain_part status kind length }
{
    PlainContent {
        status,
        kind,
        refusal: 0,
        number: 0,
        length,
    }
}

impl From<Content> for PlainContent {
    ghost from_gives = { λ x p. p ≡ plain_content (content_of x) };

    fn from(x: Content) -> PlainContent {
        match x {
            Content::Unknown(n) => of_part(1, 0, n),
            Content::Broken(fault) => PlainContent {
                status: 5,
                kind: 0,
                refusal: fault.number(),
                number: 0,
                length: 0,
            },
            Content::Address(n) => of_number(1, from_unsigned(n)),
            Content::Addresses(n) => of_part(4, 2, n),
            Content::Pairs(n) => of_part(4, 3, n),
            Content::Flag(n) => of_number(4, from_unsigned(u32::from(n))),
            Content::Octet(n) => of_number(5, from_unsigned(u32::from(n))),
            Content::Number16(n) => of_number(6, from_unsigned(u32::from(n))),
            Content::Numbers16(n) => of_part(4, 7, n),
            Content::Unsigned32(n) => of_number(8, from_unsigned(n)),
            Content::Signed32(z) => of_number(9, from_signed(z)),
            Content::Text(n) => of_part(4, 10, n),
            Content::Opaque(n) => of_part(4, 11, n),
            Content::Relay(n) => of_part(4, 12, n),
            Content::Routes(n) => of_part(4, 13, n),
        }
    }
}

// The number that C knows a field by.
pub fn field_number(field: Field) -> u32
    ensures { result ≡ field_number_value (field_of field) }
{
    match field {
        Field::Options => 1,
        Field::File => 2,
        Field::Sname => 3,
    }
}

// The place of the code byte of what is broken; any other answer gives no place.
fn place_of(status: u32, start: usize) -> usize
    requires { 2 ≤ start }
    ensures { result ≡ cond (eqb status 5) (start - 2) 0 }
{
    if status == 5 { start - 2 } else { 0 }
}

// The length of all pieces, where there are several.
fn whole_of(x: Wholeness) -> usize
    ensures { result ≡ plain_whole (wholeness_of x) }
{
    match x {
        Wholeness::InOne => 0,
        Wholeness::InPieces(n) => n,
    }
}

fn several_of(x: Wholeness) -> u32
    ensures { result ≡ plain_several (wholeness_of x) }
{
    match x {
        Wholeness::InOne => 0,
        Wholeness::InPieces(_) => 1,
    }
}

fn of_found(found: Found) -> PlainAnswer
    requires { found.origin.offset ≤ 65536 }
    ensures { result ≡ plain_found (origin_of found.origin) (plain_content (content_of found.content)) }
{
    let c = PlainContent::from(found.content);
    let field = found.origin.field;
    let offset = found.origin.offset;
    let x = found.origin.wholeness;
    let start = message::base(field) + offset + 2;
    PlainAnswer {
        status: c.status,
        kind: c.kind,
        refusal: c.refusal,
        field: field_number(field),
        number: c.number,
        place: place_of(c.status, start),
        offset,
        start,
        length: c.length,
        whole: whole_of(x),
        several: several_of(x),
    }
}

// No `From`, which could not ask that the origin is near.
fn of_answer(a: Result<Option<Found>, Refusal>) -> PlainAnswer
    requires { Near (answer_of a) }
    ensures { result ≡ plain_answer (answer_of a) }
{
    match a {
        Ok(None) => of_refusal(0, 0, 0),
        Ok(Some(found)) => of_found(found),
        Err(refusal) => of_refusal(2, refusal.rule.number(), refusal.place),
    }
}

// An answer without an origin: absent, or refused.
pub fn of_refusal(status: u32, number: u32, place: usize) -> PlainAnswer
    ensures { result ≡ plain_refusal status number place }
{
    PlainAnswer {
        status,
        kind: 0,
        refusal: number,
        field: 0,
        number: 0,
        place,
        offset: 0,
        start: 0,
        length: 0,
        whole: 0,
        several: 0,
    }
}

impl From<Extent> for PlainExtent {
    ghost from_gives = { λ e p. p ≡ plain_extent (extent_of e) };

    fn from(e: Extent) -> PlainExtent {
        PlainExtent {
            start: e.start,
            length: e.len,
        }
    }
}

impl From<Result<Codes, Refusal>> for PlainCodes {
    ghost from_gives = { λ r p. p ≡ plain_shown (shown_by r) };

    fn from(codes: Result<Codes, Refusal>) -> PlainCodes {
        match codes {
            Ok(c) => {
                let words = c.words;
                PlainCodes {
                    words,
                    count: c.count,
                    lowest: c.lowest,
                    refusal: 0,
                    place: 0,
                }
            }
            Err(r) => PlainCodes {
                words: [0; 4],
                count: 0,
                lowest: 0,
                refusal: r.rule.number(),
                place: r.place,
            },
        }
    }
}

impl From<Option<Id>> for PlainId {
    ghost from_gives = { λ x p. p ≡ plain_id (id_of x) };

    fn from(id: Option<Id>) -> PlainId {
        match id {
            Some(id) => PlainId {
                start: id.start,
                length: id.length,
            },
            None => PlainId {
                start: 0,
                length: 0,
            },
        }
    }
}

impl From<Result<Read, Refusal>> for PlainRelay {
    ghost from_gives = { λ r p. p ≡ plain_relay (read_as (given_of (given_in r)) [] (id_of (circuit_in r)) (id_of (remote_in r))) };

    fn from(read: Result<Read, Refusal>) -> PlainRelay {
        match read {
            Ok(read) => PlainRelay {
                refusal: 0,
                size: read.size,
                place: 0,
                circuit: PlainId::from(read.circuit),
                remote: PlainId::from(read.remote),
            },
            Err(Refusal { rule, place }) => PlainRelay {
                refusal: rule.number(),
                size: 0,
                place,
                circuit: PlainId::from(None),
                remote: PlainId::from(None),
            },
        }
    }
}

// Looks up a code, given the set of known codes.
#[unsafe(no_mangle)]
pub extern "C" fn dhcpopt_lookup(
    m: &[u8],
    k0: u64,
    k1: u64,
    k2: u64,
    k3: u64,
    code: u8,
) -> PlainAnswer
    ensures { result ≡ plain_answer (lookup kinds (marked (k0 ∷ k1 ∷ k2 ∷ k3 ∷ [])) m.now code) }
{
    let known = [k0, k1, k2, k3];
    of_answer(lookup::lookup(m, known, code))
}

// Where all data bytes of a code stand.
#[unsafe(no_mangle)]
pub extern "C" fn dhcpopt_data(m: &[u8], code: u8) -> PlainExtent
    ensures { result ≡ plain_extent (data_of m.now code) }
{
    PlainExtent::from(lookup::data_extent(m, code))
}

// Where the text of a code stands, without its trailing zeros.
#[unsafe(no_mangle)]
pub extern "C" fn dhcpopt_text(
    m: &[u8],
    k0: u64,
    k1: u64,
    k2: u64,
    k3: u64,
    code: u8,
) -> PlainExtent
    ensures { result ≡ plain_extent (text_of (marked (k0 ∷ k1 ∷ k2 ∷ k3 ∷ [])) m.now code) }
{
    let known = [k0, k1, k2, k3];
    PlainExtent::from(lookup::text_extent(m, known, code))
}

// The address at a place of an address list, and the place after it.
#[unsafe(no_mangle)]
pub extern "C" fn dhcpopt_address_step(list: &[u8], at: usize) -> PlainAddress
    ensures { result ≡ plain_address at (address_step list.now at) }
{
    match address::step_at(list, at) {
        Some(e) => PlainAddress {
            given: 1,
            address: e.address,
            next: e.next,
        },
        None => PlainAddress {
            given: 0,
            address: 0,
            next: at,
        },
    }
}

// The codes present, their number and the lowest.
#[unsafe(no_mangle)]
pub extern "C" fn dhcpopt_present(m: &[u8]) -> PlainCodes
    ensures { result ≡ plain_codes (present m.now) }
{
    PlainCodes::from(present::present(m))
}

// Every code but 52, in the reading order of its first piece, as a record in the buffer out.
#[unsafe(no_mangle)]
pub extern "C" fn dhcpopt_records(m: &[u8], out: &mut [u8]) -> PlainFilled
    ensures { (result ≡ plain_filled (answers.records m.now out.old).answer) × (out.new ≡ (answers.records m.now out.old).buffer) }
{
    PlainFilled::from(records::records(m, out))
}

// The bytes of a code, those of all its pieces end to end, at the front of the buffer out.
#[unsafe(no_mangle)]
pub extern "C" fn dhcpopt_copy(m: &[u8], code: u8, out: &mut [u8]) -> PlainFilled
    ensures { (result ≡ plain_filled (answers.copy m.now code out.old).answer) × (out.new ≡ (answers.copy m.now code out.old).buffer) }
{
    PlainFilled::from(lookup::copy(m, code, out))
}

// The items of the bytes of an option 43, each as a record in the buffer out.
#[unsafe(no_mangle)]
pub extern "C" fn dhcpopt_vendor_records(bytes: &[u8], out: &mut [u8]) -> PlainFilled
    ensures { (result ≡ plain_filled (vendor_records_value bytes.now out.old).answer) × (out.new ≡ (vendor_records_value bytes.now out.old).buffer) }
{
    PlainFilled::from(item_reader::vendor_records(bytes, out))
}

// The sub-options of the bytes of an option 82, each as a record in the buffer out, and circuit id and remote id (document 02, request 09).
#[unsafe(no_mangle)]
pub extern "C" fn dhcpopt_relay_records(bytes: &[u8], out: &mut [u8]) -> PlainRelay
    ensures { (result ≡ plain_relay (relay_records_value bytes.now out.old)) × (out.new ≡ (relay_records_value bytes.now out.old).filled.buffer) }
{
    PlainRelay::from(item_reader::relay_records(bytes, out))
}

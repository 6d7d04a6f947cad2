// The meter's reply profile for C (document 02, request 13): whether a reply is to be trusted, and which rules it breaks.
#![tactic(auto)]

ghost use Rattle.std.specs.Prelude.{◌≡◌, cond, not, ◌+◌, ◌≤◌, eqb, length, get_or};
ghost use Rattle.options.specs.Profile.{profile};
ghost use Rattle.options.specs.IndexClaims.{BuiltFrom};
ghost use Rattle.dhcpopt_profile.specs.Plain.{plain_profile, plain_by, ProfileByCase, ProfileGivenByCase, ProfileKept};
ghost use Rattle.dhcpopt_profile.specs.Judging.{got, formed_by, reply_by, before_by, size_fits_value, ByLength, turn_at, read_before_value, bit_if, Judges};

use dhcpopt_reader::PlainAnswer;
use refusal::{Refusal, Rule};

// broken: the rules that are broken, bits 0 to 7; 0 says yes. Number and place of a refusal (0: none); then nothing is said of the rules.
#[repr(C)]
#[derive(Clone, Copy)]
pub struct PlainProfile {
    pub broken: u32,
    pub refusal: u32,
    pub place: usize,
}

impl From<Result<u32, Refusal>> for PlainProfile {
    ghost from_gives = { λ r p. p ≡ plain_by r };

    fn from(broken: Result<u32, Refusal>) -> PlainProfile {
        match broken {
            Ok(broken) => PlainProfile {
                broken,
                refusal: 0,
                place: 0,
            },
            Err(Refusal { rule, place }) => PlainProfile {
                broken: 0,
                refusal: rule.number(),
                place,
            },
        }
    }
}

// Each answer has its own numbers for C, and none is lost.
pub fn proved()
    ensures { ProfileByCase × ProfileGivenByCase × ProfileKept }
{}

// A code looked up through the index, every code known. Only a code in pieces is: it is walked for.
fn look(m: &[u8], index: &[u16], code: u8) -> PlainAnswer
    ensures { result ≡ got m.now index.now code }
{
    dhcpopt_index::dhcpopt_index_lookup(m, index, u64::MAX, u64::MAX, u64::MAX, u64::MAX, code)
}

// There and well-formed: a kind is answered, with its number or its part.
fn formed(a: PlainAnswer) -> bool
    ensures { result ≡ formed_by a }
{
    matches!(a.status, 3 | 4)
}

// Four bytes; or, of a list, four for each address.
fn size_fits(list: bool, n: u8) -> bool
    ensures { result ≡ size_fits_value list n }
{
    if list { 4 <= n && n % 4 == 0 } else { n == 4 }
}

// Whether a code is there and well-formed, of which the length alone decides. In one piece its length byte follows its place.
fn well_formed(m: &[u8], index: &[u16], code: u8, list: bool) -> bool
    requires { BuiltFrom m.now index.now × ByLength code list }
    ensures { result ≡ formed_by (got m.now index.now code) }
{
    let entry = index[num::wide(code)];
    if entry == 0 {
        return false;
    }
    if entry == 65535 {
        return formed(look(m, index, code));
    }
    size_fits(list, m[entry as usize + 1])
}

// Message types 2 (offer) and 5 (acknowledge to a request), of a type in pieces.
fn reply_in(a: PlainAnswer) -> bool
    ensures { result ≡ reply_by a }
{
    a.status == 3 && matches!(a.number, 2 | 5)
}

// Message types 2 (offer) and 5 (acknowledge to a request).
fn reply(m: &[u8], index: &[u16]) -> bool
    requires { BuiltFrom m.now index.now }
    ensures { result ≡ reply_by (got m.now index.now 53) }
{
    let entry = index[53];
    if entry == 0 {
        return false;
    }
    if entry == 65535 {
        return reply_in(look(m, index, 53));
    }
    let at = entry as usize;
    if m[at + 1] != 1 {
        return false;
    }
    let kind = m[at + 2];
    kind == 2 || kind == 5
}

// Whether both codes are there, and the first piece of a is read before that of b: options, file, sname.
fn before(a: PlainAnswer, b: PlainAnswer) -> bool
    ensures { result ≡ before_by a b }
{
    if a.field == 0 {
        return false;
    }
    if b.field == 0 {
        return false;
    }
    if a.field != b.field {
        return a.field < b.field;
    }
    a.offset < b.offset
}

// The turn in which the field that holds a place is read. A number and no enum: all that is asked of two turns is which comes first.
fn turn(place: u16) -> u16
    ensures { result ≡ turn_at place }
{
    if 240 <= place {
        return 1;
    }
    if 108 <= place { 2 } else { 3 }
}

fn read_before(a: u16, b: u16) -> bool
    ensures { result ≡ read_before_value a b }
{
    let x = turn(a);
    let y = turn(b);
    if x != y {
        return x < y;
    }
    a < b
}

// Whether 3 is read before 1: their first pieces, where both are there.
fn out_of_order(m: &[u8], index: &[u16]) -> bool
    requires { BuiltFrom m.now index.now }
    ensures { result ≡ before_by (got m.now index.now 3) (got m.now index.now 1) }
{
    let router = index[3];
    let mask = index[1];
    if router == 0 {
        return false;
    }
    if mask == 0 {
        return false;
    }
    if router == 65535 {
        return before(look(m, index, 3), look(m, index, 1));
    }
    if mask == 65535 {
        return before(look(m, index, 3), look(m, index, 1));
    }
    read_before(router, mask)
}

// By `if`: a product with `u32::from(broken)` would say the same less plainly.
fn bit(broken: bool, value: u32) -> u32
    ensures { (result ≡ bit_if broken value) × (result ≤ value) }
{
    if broken { value } else { 0 }
}

// 51, 54, 1 and 3 absent or broken.
fn unformed(m: &[u8], index: &[u16]) -> u32
    requires { BuiltFrom m.now index.now }
    ensures { (result ≡ bit_if (not (formed_by (got m.now index.now 51))) 1 + bit_if (not (formed_by (got m.now index.now 54))) 2 + bit_if (not (formed_by (got m.now index.now 1))) 32 + bit_if (not (formed_by (got m.now index.now 3))) 64) × (result ≤ 99) }
{
    let lease = bit(!well_formed(m, index, 51, false), 1);
    let server = bit(!well_formed(m, index, 54, false), 2);
    let mask = bit(!well_formed(m, index, 1, false), 32);
    let router = bit(!well_formed(m, index, 3, true), 64);
    lease + server + mask + router
}

// 50, 55 and 57 there, broken or not.
fn held(index: &[u16]) -> u32
    requires { length index.now ≡ 256 }
    ensures { (result ≡ bit_if (not (eqb (get_or index.now 50 0) 0)) 4 + bit_if (not (eqb (get_or index.now 55 0) 0)) 8 + bit_if (not (eqb (get_or index.now 57 0) 0)) 16) × (result ≤ 28) }
{
    let requested = bit(index[50] != 0, 4);
    let list = bit(index[55] != 0, 8);
    let size = bit(index[57] != 0, 16);
    requested + list + size
}

// The rules that are broken, by the index of the message; 25 where it is no reply.
fn judged(m: &[u8], index: &[u16]) -> Result<u32, Refusal>
    requires { BuiltFrom m.now index.now }
    ensures { Judges m.now index.now result }
{
    if !reply(m, index) {
        return Err(Rule::NoReply.at(0));
    }
    let formed = unformed(m, index);
    let there = held(index);
    let order = bit(out_of_order(m, index), 128);
    Ok(formed + there + order)
}

// The same of a message, refusals as the code has them.
fn judge(m: &[u8]) -> Result<u32, Refusal>
    ensures { plain_by result ≡ plain_profile (profile m.now) }
{
    let mut index = [0u16; 256];
    index::build_anew(m, &mut index)?;
    judged(m, &index)
}

// Judges a reply. The message is walked once, to build its index; a code in pieces is then looked up by a walk of its own.
#[unsafe(no_mangle)]
pub extern "C" fn dhcpopt_profile(m: &[u8]) -> PlainProfile
    ensures { result ≡ plain_profile (profile m.now) }
{
    PlainProfile::from(judge(m))
}

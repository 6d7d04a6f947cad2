// What a line does not show, asked and compared: the answer as Rattle names it with that for C, sets of known codes of one code, and of all but one, and the text's part
// with the answer. A line with a question mark is printed where something differs, so that the output is another.
use crate::ALL;
use dhcpopt_reader::{PlainAnswer, PlainContent, PlainExtent};
use lookup::{Content, Found, Wholeness};
use message::Field;
use refusal::Refusal;
use std::io;
use std::io::Stdout;

fn field(f: Field) -> u32 {
    match f {
        Field::Options => 1,
        Field::File => 2,
        Field::Sname => 3,
    }
}

fn part(status: u32, kind: u32, length: usize) -> PlainContent {
    PlainContent {
        status,
        kind,
        refusal: 0,
        number: 0,
        length,
    }
}

fn number(kind: u32, number: i64) -> PlainContent {
    PlainContent {
        status: 3,
        kind,
        refusal: 0,
        number,
        length: 0,
    }
}

fn broken(refusal: u32) -> PlainContent {
    PlainContent {
        status: 5,
        kind: 0,
        refusal,
        number: 0,
        length: 0,
    }
}

// What C is to be told of each content.
fn told(c: Content) -> PlainContent {
    match c {
        Content::Unknown(n) => part(1, 0, n),
        Content::Broken(fault) => broken(fault.number()),
        Content::Address(n) => number(1, i64::from(n)),
        Content::Addresses(n) => part(4, 2, n),
        Content::Pairs(n) => part(4, 3, n),
        Content::Flag(n) => number(4, i64::from(n)),
        Content::Octet(n) => number(5, i64::from(n)),
        Content::Number16(n) => number(6, i64::from(n)),
        Content::Numbers16(n) => part(4, 7, n),
        Content::Unsigned32(n) => number(8, i64::from(n)),
        Content::Signed32(z) => number(9, i64::from(z)),
        Content::Text(n) => part(4, 10, n),
        Content::Opaque(n) => part(4, 11, n),
        Content::Relay(n) => part(4, 12, n),
        Content::Routes(n) => part(4, 13, n),
    }
}

fn same_content(t: PlainContent, c: PlainAnswer) -> bool {
    (t.status, t.kind, t.refusal, t.number, t.length)
        == (c.status, c.kind, c.refusal, c.number, c.length)
}

fn same_wholeness(w: Wholeness, c: PlainAnswer) -> bool {
    match w {
        Wholeness::InOne => c.several == 0,
        Wholeness::InPieces(n) => (c.several, c.whole) == (1, n),
    }
}

// Field, offset, wholeness and content, by their names.
fn same_found(found: Found, c: PlainAnswer) -> bool {
    let origin = found.origin;
    (field(origin.field), origin.offset) == (c.field, c.offset)
        && same_wholeness(origin.wholeness, c)
        && same_content(told(found.content), c)
}

fn same(a: Result<Option<Found>, Refusal>, c: PlainAnswer) -> bool {
    match a {
        Ok(None) => c.status == 0,
        Ok(Some(found)) => same_found(found, c),
        Err(Refusal { rule, place }) => {
            (c.status, c.refusal, c.place) == (2, rule.number(), place)
        }
    }
}

// The set of one code.
fn one(code: u8) -> [u64; 4] {
    let mut set = [0; 4];
    codeset::mark(&mut set, code);
    set
}

// And of all others.
fn all_but([a, b, c, d]: [u64; 4]) -> [u64; 4] {
    [!a, !b, !c, !d]
}

fn look_up(m: &[u8], known: [u64; 4], code: u8) -> PlainAnswer {
    let [a, b, c, d] = known;
    dhcpopt_reader::dhcpopt_lookup(m, a, b, c, d, code)
}

fn text(m: &[u8], known: [u64; 4], code: u8) -> PlainExtent {
    let [a, b, c, d] = known;
    dhcpopt_reader::dhcpopt_text(m, a, b, c, d, code)
}

// Known by itself, a code is answered as where all are known; where all but it are known, it is unknown. The same of its text; where it is unknown, it has none.
fn sets(m: &[u8], code: u8, status: u32) -> bool {
    let one = one(code);
    let others = all_but(one);
    look_up(m, one, code).status == status
        && look_up(m, others, code).status == 1
        && text(m, one, code).start == text(m, ALL, code).start
        && text(m, others, code).length == 0
}

// Where all are known, the text's part is what the lookup tells of a text in one piece, and else empty.
fn as_told(t: PlainExtent, a: PlainAnswer) -> bool {
    if a.kind != 10 || a.several == 1 {
        return t.length == 0;
    }
    let start = if a.length == 0 { 0 } else { a.start };
    (t.start, t.length) == (start, a.length)
}

// Of an answer for C.
pub fn answered(to: Stdout, m: &[u8], known: [u64; 4], code: u8, c: PlainAnswer) -> io::Result<()> {
    if !same(lookup::lookup(m, known, code), c) {
        println!(to; "names?")?;
    }
    Ok(())
}

// Of a code that the message holds.
pub fn held(to: Stdout, m: &[u8], code: u8) -> io::Result<()> {
    let all = look_up(m, ALL, code);
    if !sets(m, code, all.status) {
        println!(to; "sets?")?;
    }
    if !as_told(text(m, ALL, code), all) {
        println!(to; "text?")?;
    }
    Ok(())
}

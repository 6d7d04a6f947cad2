// The lines of the output, each from the call that it shows. Most calls are those that C links.
use crate::names;
use address::AddressReader;
use console::sum;
use dhcpopt_reader::{PlainAnswer, PlainCodes, PlainExtent};
use filled::PlainFilled;
use message::part;
use std::io;
use std::io::Stdout;

// The first byte of each lent buffer; the others rise.
const FIRST: u8 = 160;

// The name of a kind, by its number; `?` where none has it.
fn kind_name(kind: u32) -> &'static str {
    match kind {
        1 => "address",
        2 => "addresses",
        3 => "pairs",
        4 => "flag",
        5 => "octet",
        6 => "number16",
        7 => "numbers16",
        8 => "unsigned32",
        9 => "signed32",
        10 => "text",
        11 => "opaque",
        12 => "relay",
        13 => "routes",
        _ => "?",
    }
}

// The name of an answer, by its status and its kind.
fn answer_name(status: u32, kind: u32) -> &'static str {
    match status {
        0 => "absent",
        1 => "unknown",
        2 => "refused",
        3 | 4 => kind_name(kind),
        5 => "broken",
        _ => "?",
    }
}

fn field_name(field: u32) -> &'static str {
    match field {
        1 => "options",
        2 => "file",
        3 => "sname",
        _ => "?",
    }
}

// What is answered of an option: its name, and its number, its length, or number and place of what is broken.
fn content(to: Stdout, a: PlainAnswer) -> io::Result<()> {
    print!(to; " {}", answer_name(a.status, a.kind))?;
    match a.status {
        3 => print!(to; " {}", a.number),
        5 => print!(to; " {} {}", a.refusal, a.place),
        _ => print!(to; " {}", a.length),
    }
}

// An answer: absent, refused, or what is answered of an option and where that stands.
fn answer(to: Stdout, a: PlainAnswer) -> io::Result<()> {
    match a.status {
        0 => print!(to; " absent"),
        2 => print!(to; " refused {} {}", a.refusal, a.place),
        _ => {
            content(to, a)?;
            print!(to; " {} {} {}", field_name(a.field), a.offset, a.start)?;
            if a.several == 1 {
                print!(to; " several {}", a.whole)?;
            }
            Ok(())
        }
    }
}

// What a call gave of a lent buffer: how many bytes, and their sum; or the refusal. Then the sum of the bytes behind those, which is of the whole buffer on a refusal.
fn given(to: Stdout, g: PlainFilled, buffer: &[u8]) -> io::Result<()> {
    if g.refusal == 0 {
        print!(to; " {} {}", g.size, sum(part(buffer, 0, g.size)))?;
    } else {
        print!(to; " refused {} {}", g.refusal, g.place)?;
    }
    println!(to; " rest {}", sum(part(buffer, g.size, buffer.len())))
}

// The line of the copy of a code into a lent buffer.
pub fn copy(to: Stdout, m: &[u8], code: u8, buffer: &mut [u8]) -> io::Result<()> {
    console::fill(buffer, FIRST);
    print!(to; "copy {code}")?;
    given(to, dhcpopt_reader::dhcpopt_copy(m, code, buffer), buffer)
}

pub fn copy_whole(to: Stdout, m: &[u8], code: u8) -> io::Result<()> {
    copy(to, m, code, &mut [0; 1472])
}

// The lines of a code that the message holds, its lookup and its copy, and what is compared besides.
pub fn look_up(to: Stdout, m: &[u8], known: [u64; 4], code: u8) -> io::Result<()> {
    line(to, m, known, code)?;
    copy_whole(to, m, code)?;
    names::held(to, m, code)
}

// The line of a lookup.
pub fn line(to: Stdout, m: &[u8], known: [u64; 4], code: u8) -> io::Result<()> {
    print!(to; "{code}")?;
    let [w, x, y, z] = known;
    let a = dhcpopt_reader::dhcpopt_lookup(m, w, x, y, z, code);
    answer(to, a)?;
    println!(to;)?;
    names::answered(to, m, known, code, a)
}

// The line of the codes present.
pub fn present(to: Stdout, p: PlainCodes) -> io::Result<()> {
    let [w, x, y, z] = p.words;
    println!(to;
        "present {w} {x} {y} {z} count {} lowest {} refusal {} {}",
        p.count, p.lowest, p.refusal, p.place
    )
}

// The line of a lookup through an index.
pub fn through(to: Stdout, m: &[u8], index: &[u16], known: [u64; 4], code: u8) -> io::Result<()> {
    print!(to; "through {code}")?;
    let [w, x, y, z] = known;
    answer(
        to,
        dhcpopt_index::dhcpopt_index_lookup(m, index, w, x, y, z, code),
    )?;
    println!(to;)
}

// The line of building an index.
pub fn build(to: Stdout, m: &[u8], index: &mut [u16]) -> io::Result<()> {
    let f = dhcpopt_index::dhcpopt_index_build(m, index);
    if f.refusal == 0 {
        println!(to; "index {}", f.size)
    } else {
        println!(to; "index refused {} {}", f.refusal, f.place)
    }
}

// The line of the records that are written to a lent buffer.
pub fn records(to: Stdout, m: &[u8], sheet: &mut [u8]) -> io::Result<()> {
    console::fill(sheet, FIRST);
    print!(to; "records")?;
    given(to, dhcpopt_reader::dhcpopt_records(m, sheet), sheet)
}

// The line of the reply profile: the rules that are broken, number and place of a refusal.
pub fn profile(to: Stdout, m: &[u8]) -> io::Result<()> {
    let p = dhcpopt_profile::dhcpopt_profile(m);
    println!(to; "profile {} refusal {} {}", p.broken, p.refusal, p.place)
}

// The place and the bytes of a part, after a name and a code.
fn shown(to: Stdout, name: &str, code: u8, e: PlainExtent, bytes: &[u8]) -> io::Result<()> {
    print!(to; "{name} {code} {} {}", e.start, e.length)?;
    console::bytes(to, bytes)?;
    println!(to;)
}

// The line of the data of a code: its place from the call for C, its bytes from the call that gives a part.
pub fn data(to: Stdout, m: &[u8], code: u8) -> io::Result<()> {
    shown(
        to,
        "data",
        code,
        dhcpopt_reader::dhcpopt_data(m, code),
        lookup::data(m, code),
    )
}

// The line of the text of a code, likewise.
pub fn text(to: Stdout, m: &[u8], known: [u64; 4], code: u8) -> io::Result<()> {
    let [w, x, y, z] = known;
    shown(
        to,
        "text",
        code,
        dhcpopt_reader::dhcpopt_text(m, w, x, y, z, code),
        lookup::text(m, known, code),
    )
}

// The line of the address walk over the data of a code, by the call for C; data have at most 63 addresses.
pub fn addresses(to: Stdout, m: &[u8], code: u8) -> io::Result<()> {
    print!(to; "walk {code}")?;
    let list = lookup::data(m, code);
    let mut at: usize = 0;
    for _ in 0..64 {
        let step = dhcpopt_reader::dhcpopt_address_step(list, at);
        if step.given != 1 {
            break;
        }
        print!(to; " {}", step.address)?;
        at = step.next;
    }
    println!(to;)
}

// The line of that walk by a reader, for as many.
pub fn steps(to: Stdout, m: &[u8], code: u8) -> io::Result<()> {
    print!(to; "steps {code}")?;
    let reader = AddressReader {
        list: lookup::data(m, code),
        at: 0,
    };
    for address in reader.take(64) {
        print!(to; " {address}")?;
    }
    println!(to;)
}

// The lines of the output.
use dhcpopt_reader::PlainAnswer;
use message::part;
use std::io;
use std::io::Stdout;

const ALL: u64 = u64::MAX;

// The bytes up to the last that is not zero, and the number of zeros behind it.
fn shown(to: Stdout, f: &[u8]) -> io::Result<()> {
    let n = kinds::text_len(f);
    let zeros = f.len() - n;
    print!(to; " ")?;
    console::hex(to, part(f, 0, n))?;
    print!(to; " zeros {zeros}")
}

// The line of a part of the buffer: its bytes where they are written, otherwise a sum.
fn line(to: Stdout, name: &str, written: bool, f: &[u8]) -> io::Result<()> {
    print!(to; "{name}")?;
    if written {
        shown(to, f)?;
    } else {
        print!(to; " sum {}", console::sum(f))?;
    }
    println!(to;)
}

// Whether the records of m are the sheet.
fn back(to: Stdout, sheet: &[u8], m: &[u8]) -> io::Result<()> {
    let mut out = [0u8; 4096];
    let g = dhcpopt_reader::dhcpopt_records(m, &mut out);
    if g.refusal != 0 {
        println!(to; "back refused {} {}", g.refusal, g.place)
    } else if sheet == part(&out, 0, g.size) {
        println!(to; "back same")
    } else {
        println!(to; "back differs")
    }
}

// The number of options in m, as its listing has it in its first line.
fn count(to: Stdout, m: &[u8]) -> io::Result<()> {
    let mut text = [0u8; 16384];
    listing::list(m, &mut text);
    let end = text.iter().position(|c| *c == b'\n').unwrap_or(16384);
    to.write_all(part(&text, 0, end))?;
    println!(to;)
}

// Every member of an answer, in its order.
fn answer(to: Stdout, a: PlainAnswer) -> io::Result<()> {
    print!(to;
        " {} {} {} {} {}",
        a.status, a.kind, a.refusal, a.field, a.number
    )?;
    print!(to;
        " {} {} {} {} {} {}",
        a.place, a.offset, a.start, a.length, a.whole, a.several
    )
}

// The line of a code: what its lookup answers, every code known, and its copy, with a sum of the bytes.
fn look_up(to: Stdout, m: &[u8], code: u8, buffer: &mut [u8]) -> io::Result<()> {
    print!(to; "code {code}")?;
    answer(
        to,
        dhcpopt_reader::dhcpopt_lookup(m, ALL, ALL, ALL, ALL, code),
    )?;
    let g = dhcpopt_reader::dhcpopt_copy(m, code, buffer);
    println!(to;
        " copy {} {} {}",
        g.refusal,
        g.size,
        console::sum(part(buffer, 0, g.size))
    )
}

// The lines of the tags of a sheet's records, of 52 and of a code that few sheets have.
fn lookups(to: Stdout, sheet: &[u8], m: &[u8]) -> io::Result<()> {
    let mut buffer = [0u8; 1472];
    let mut records = sheet;
    while let [tag, high, low, further @ ..] = records {
        look_up(to, m, *tag, &mut buffer)?;
        let size = u16::from_be_bytes([*high, *low]);
        records = part(further, usize::from(size), further.len());
    }
    look_up(to, m, 52, &mut buffer)?;
    look_up(to, m, 222, &mut buffer)
}

// The lines of a sheet that was written to m, and of what m reads as.
pub fn written(to: Stdout, plan: u32, sheet: &[u8], m: &[u8]) -> io::Result<()> {
    println!(to; "plan {plan}")?;
    line(to, "header", false, part(m, 0, 44))?;
    line(to, "sname", message::sname_on(plan), part(m, 44, 64))?;
    line(to, "file", message::file_on(plan), part(m, 108, 128))?;
    line(to, "cookie", true, part(m, 236, 4))?;
    line(to, "options", true, part(m, 240, 1232))?;
    back(to, sheet, m)?;
    count(to, m)?;
    lookups(to, sheet, m)
}

// The lines of a sheet that was refused, with the buffer m as it is then.
pub fn refused(to: Stdout, number: u32, place: usize, m: &[u8]) -> io::Result<()> {
    println!(to; "refused {number} {place}")?;
    line(to, "buffer", false, m)
}

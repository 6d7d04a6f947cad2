// Calls of an index: on the message of `extra`, its own index and others.
use crate::{ALL, extra, print};
use std::io;
use std::io::Stdout;

// The entries of the codes of the message, of an absent one, and of 0 and 255.
fn entries(to: Stdout, index: &[u16; 256]) -> io::Result<()> {
    print!(to; "entries")?;
    for code in [12u8, 3, 53, 15, 120, 52, 51, 50, 0, 255] {
        print!(to; " {}", index[usize::from(code)])?;
    }
    println!(to;)
}

// The index of the same bytes.
fn fresh(to: Stdout, m: &[u8]) -> io::Result<()> {
    let mut index = [7; 256];
    print::build(to, m, &mut index)?;
    entries(to, &index)?;
    for code in [0, 255, 50, 12, 53, 6, 120, 52, 51] {
        print::through(to, m, &index, ALL, code)?;
    }
    print::through(to, m, &index, [0; 4], 12)
}

// The same message but for one byte, which makes 15 a second piece of 12: its own index, and that of the first.
fn stale(to: Stdout, m: &[u8]) -> io::Result<()> {
    let mut other = extra::message();
    other[271] = 12;
    let mut index = [7; 256];
    print::build(to, &other, &mut index)?;
    entries(to, &index)?;
    print::through(to, &other, &index, ALL, 12)?;
    print::through(to, &other, &index, ALL, 15)?;
    print::build(to, m, &mut index)?;
    print::through(to, &other, &index, ALL, 12)?;
    print::through(to, &other, &index, ALL, 15)
}

// A lookup of 51 through an index that has a number for it alone.
fn at(to: Stdout, m: &[u8], entry: u16) -> io::Result<()> {
    let mut index = [0; 256];
    index[51] = entry;
    print::through(to, m, &index, ALL, 51)
}

// No number; the plain walk; 51 in sname, which is inactive, and behind END. The bytes are set one by one: they stand apart, and a list of their places would be no plainer.
fn used(to: Stdout) -> io::Result<()> {
    let mut m = extra::message();
    m[44] = 51;
    m[45] = 4;
    m[49] = 7;
    m[106] = 51;
    m[283] = 51;
    m[284] = 4;
    m[288] = 9;
    for entry in [0, 65535, 108, 44, 106, 283] {
        at(to, &m, entry)?;
    }
    Ok(())
}

// In no field; another code; length or data past the end of the field. The bytes are set one by one here too.
fn unusable(to: Stdout) -> io::Result<()> {
    let mut m = extra::message();
    m[43] = 51;
    m[106] = 51;
    m[107] = 51;
    m[234] = 51;
    m[235] = 51;
    m[298] = 51;
    m[299] = 51;
    for entry in [1, 43, 106, 107, 109, 234, 235, 236, 298, 299, 300, 65534] {
        at(to, &m, entry)?;
    }
    Ok(())
}

// An index of too few numbers, and of too many.
fn counts(to: Stdout, m: &[u8]) -> io::Result<()> {
    let mut few = [0; 255];
    let mut many = [0; 257];
    print::build(to, m, &mut few)?;
    print::build(to, m, &mut many)?;
    print::through(to, m, &few, ALL, 12)?;
    print::through(to, m, &many, ALL, 12)?;
    print::through(to, m, &few, ALL, 0)
}

// Refused messages: the numbers stay. 3 comes before 18; without END an entry is used, and only the plain walk is refused.
fn refused(to: Stdout) -> io::Result<()> {
    let zeros = [0; 240];
    let mut few = [0; 255];
    print::build(to, &zeros, &mut few)?;
    print::through(to, &zeros, &few, ALL, 12)?;
    let mut m = extra::message();
    m[282] = 0;
    let mut index = [7; 256];
    print::build(to, &m, &mut index)?;
    entries(to, &index)?;
    for entry in [108, 65535, 109] {
        at(to, &m, entry)?;
    }
    Ok(())
}

pub fn lines(to: Stdout, m: &[u8]) -> io::Result<()> {
    fresh(to, m)?;
    stale(to, m)?;
    used(to)?;
    unusable(to)?;
    counts(to, m)?;
    refused(to)
}

// Calls that no case makes, on two messages of the program's own.
ghost use Rattle.std.specs.Prelude.{◌+◌, ◌≤◌, length};

use crate::{ALL, indexes, print};
use std::io;
use std::io::Stdout;

// Lays src over m from at on.
fn lay(m: &mut [u8], at: usize, src: &[u8])
    requires { at + length src.now ≤ length m.old }
{
    m[at..at + src.len()].copy_from_slice(src);
}

// Options 12, 3, 53, 6, 4, 15, 120 and 52, and 51 in file; 53, 6 and 4 are broken.
pub fn message() -> [u8; 300] {
    let mut m = [0u8; 300];
    lay(&mut m, 108, b"\x33\x04\x00\x00\x0E\x10\xFF");
    lay(&mut m, 236, b"\x63\x82\x53\x63");
    lay(
        &mut m,
        240,
        b"\x0C\x03ab\x00\x03\x08\x0A\x00\x00\x01\xFF\xFF\xFF\xFE\x35\x01\x09\x06\x03\x01\x02\x03",
    );
    lay(
        &mut m,
        263,
        b"\x04\x06\x00\x00\x00\x01\x02\x03\x0F\x02\x00\x00\x78\x02\x05\x06\x34\x01\x01\xFF",
    );
    m
}

// Lookups of 0 and 255, of an absent code, and with known sets that leave codes out.
fn lookups(to: Stdout, m: &[u8]) -> io::Result<()> {
    for code in [0, 255, 50] {
        print::line(to, m, ALL, code)?;
    }
    for code in [0, 12, 50] {
        print::line(to, m, [0; 4], code)?;
    }
    for code in [12, 3, 53, 120, 51] {
        print::line(to, m, [1 << 12, 0, 0, 0], code)?;
    }
    Ok(())
}

// Data of known, broken, rowless and absent codes.
fn data(to: Stdout, m: &[u8]) -> io::Result<()> {
    for code in [12, 53, 120, 52, 51, 50, 0, 255] {
        print::data(to, m, code)?;
    }
    Ok(())
}

// Text, and codes that have none.
fn texts(to: Stdout, m: &[u8]) -> io::Result<()> {
    for code in [12, 15, 53, 50, 0] {
        print::text(to, m, ALL, code)?;
    }
    print::text(to, m, [0; 4], 12)
}

// Two addresses; one and two bytes left over; three bytes alone; nothing.
fn walks(to: Stdout, m: &[u8]) -> io::Result<()> {
    for code in [3, 4, 6, 50] {
        print::addresses(to, m, code)?;
    }
    Ok(())
}

// The same by a reader.
fn reader_walks(to: Stdout, m: &[u8]) -> io::Result<()> {
    for code in [3, 4, 6, 50] {
        print::steps(to, m, code)?;
    }
    Ok(())
}

// The records of the message take 53 bytes: one sheet holds them, one is too small.
fn sheets(to: Stdout, m: &[u8]) -> io::Result<()> {
    print::records(to, m, &mut [0; 53])?;
    print::records(to, m, &mut [0; 52])
}

// Copies of codes in one piece, in options and in file, into just enough room; too little; of an absent code; of 0 and 255.
fn copies(to: Stdout, m: &[u8]) -> io::Result<()> {
    print::copy(to, m, 12, &mut [0; 3])?;
    print::copy(to, m, 3, &mut [0; 8])?;
    print::copy(to, m, 51, &mut [0; 8])?;
    print::copy(to, m, 51, &mut [0; 3])?;
    for code in [50, 0, 255] {
        print::copy(to, m, code, &mut [0; 8])?;
    }
    Ok(())
}

// A message of 240 zeros is refused for its cookie; 10 comes before that.
fn refused(to: Stdout) -> io::Result<()> {
    let m = [0; 240];
    print::line(to, &m, ALL, 12)?;
    print::line(to, &m, ALL, 0)?;
    print::data(to, &m, 12)?;
    print::text(to, &m, ALL, 12)?;
    print::present(to, dhcpopt_reader::dhcpopt_present(&m))?;
    print::records(to, &m, &mut [0; 9])?;
    print::copy(to, &m, 12, &mut [0; 9])?;
    print::copy(to, &m, 0, &mut [0; 9])
}

// The lines after the cases: the calls on one message, with those on a refused one; then those of an index.
pub fn lines(to: Stdout) -> io::Result<()> {
    println!(to; "extra")?;
    let m = message();
    lookups(to, &m)?;
    data(to, &m)?;
    texts(to, &m)?;
    walks(to, &m)?;
    sheets(to, &m)?;
    copies(to, &m)?;
    refused(to)?;
    reader_walks(to, &m)?;
    indexes::lines(to, &m)
}

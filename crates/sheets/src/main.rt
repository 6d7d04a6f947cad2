// Reads settings sheets from standard input, writes each into a buffer, and prints what was written (tests/sheets/README.md).
#![tactic(auto)]

mod names;
mod print;

use console::Run;
use std::io;
use std::io::Stdout;

// The lines of one sheet.
fn one(to: Stdout, sheet: &[u8], buf: &mut [u8], permission: u8) -> io::Result<()> {
    let w = dhcpopt_writer::dhcpopt_write(sheet, buf, permission);
    if w.refusal == 0 {
        print::written(to, w.plan, sheet, buf)?;
    } else {
        print::refused(to, w.refusal, w.place, buf)?;
    }
    names::written(to, sheet, buf.len(), permission, w)?;
    println!(to; "-")
}

// A case is a sheet, with the permission in place of a call.
#[derive(Drop)]
struct Cases {
    to: Stdout,
}

impl Run for Cases {
    fn run(
        &mut self,
        permission: u8,
        _name: &[u8],
        sheet: &[u8],
        buf: &mut [u8],
    ) -> io::Result<()> {
        one(self.to, sheet, buf, permission)
    }
}

// At most 2,000 cases are read.
fn main(rt: HostRuntime) -> io::Result<()> {
    let mut name = [0u8; 1];
    let mut sheet = [0u8; 5000];
    let mut buf = [0u8; 1600];
    console::each(
        rt.stdin(),
        2000,
        &mut name,
        &mut sheet,
        &mut buf,
        &mut Cases { to: rt.stdout() },
    )
}

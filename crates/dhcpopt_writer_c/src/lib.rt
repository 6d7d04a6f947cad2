// The calls of dhcpopt_writer for C, as a static library: each calls the library's function of its name, whose signature and clauses it has.
// Written by tests/exports.py.
#![tactic(auto)]

ghost use Rattle.std.specs.Prelude.{◌≡◌};
ghost use Rattle.options.specs.Kinds.{kinds};
ghost use Rattle.options.specs.Writing as options;
ghost use Rattle.options.specs.Vendor.{vendor_write_value};
ghost use Rattle.options.specs.Relay.{relay_write_value};
ghost use Rattle.options.specs.Grouped as grouped;
ghost use Rattle.groups.specs.Check.{plain_checked};
ghost use Rattle.filled.specs.Plain.{plain_filled};
ghost use Rattle.dhcpopt_writer.specs.Plain.{plain_wrote};

use dhcpopt_writer::PlainWrote;
use filled::PlainFilled;
use groups::PlainChecked;

// Writes a settings sheet into a message buffer whose header is there.
#[unsafe(no_mangle)]
pub extern "C" fn dhcpopt_write(s: &[u8], m: &mut [u8], permission: u8) -> PlainWrote
    ensures { (result ≡ plain_wrote (options.writer kinds s.now m.old permission)) × (m.new ≡ options.buffer_after m.old (options.writer kinds s.now m.old permission)) }
{
    dhcpopt_writer::dhcpopt_write(s, m, permission)
}

// The items of the records of a sheet, in the buffer out: what an option 43 is to hold.
#[unsafe(no_mangle)]
pub extern "C" fn dhcpopt_vendor_write(s: &[u8], out: &mut [u8]) -> PlainFilled
    ensures { (result ≡ plain_filled (vendor_write_value s.now out.old).answer) × (out.new ≡ (vendor_write_value s.now out.old).buffer) }
{
    dhcpopt_writer::dhcpopt_vendor_write(s, out)
}

// The sub-options of the records of a sheet, in the buffer out: what an option 82 is to hold (document 02, request 09).
#[unsafe(no_mangle)]
pub extern "C" fn dhcpopt_relay_write(s: &[u8], out: &mut [u8]) -> PlainFilled
    ensures { (result ≡ plain_filled (relay_write_value s.now out.old).answer) × (out.new ≡ (relay_write_value s.now out.old).buffer) }
{
    dhcpopt_writer::dhcpopt_relay_write(s, out)
}

// Checks a grouped file (document 02, request 08).
#[unsafe(no_mangle)]
pub extern "C" fn dhcpopt_check_grouped(f: &[u8]) -> PlainChecked
    ensures { result ≡ plain_checked (grouped.check f.now) }
{
    dhcpopt_writer::dhcpopt_check_grouped(f)
}

// Chooses from a grouped file for a class: the records of the groups reached, at the front of the sheet out.
#[unsafe(no_mangle)]
pub extern "C" fn dhcpopt_choose(f: &[u8], class: &[u8], out: &mut [u8]) -> PlainFilled
    ensures { (result ≡ plain_filled (grouped.choice f.now class.now out.old).answer) × (out.new ≡ (grouped.choice f.now class.now out.old).buffer) }
{
    dhcpopt_writer::dhcpopt_choose(f, class, out)
}

// Moves an old sheet into a nameless outermost group, at the front of the buffer out.
#[unsafe(no_mangle)]
pub extern "C" fn dhcpopt_group(s: &[u8], out: &mut [u8]) -> PlainFilled
    ensures { (result ≡ plain_filled (grouped.move s.now out.old).answer) × (out.new ≡ (grouped.move s.now out.old).buffer) }
{
    dhcpopt_writer::dhcpopt_group(s, out)
}

// Takes the sheet back out of a grouped file, at the front of the sheet out.
#[unsafe(no_mangle)]
pub extern "C" fn dhcpopt_ungroup(f: &[u8], out: &mut [u8]) -> PlainFilled
    ensures { (result ≡ plain_filled (grouped.go_back f.now out.old).answer) × (out.new ≡ (grouped.go_back f.now out.old).buffer) }
{
    dhcpopt_writer::dhcpopt_ungroup(f, out)
}

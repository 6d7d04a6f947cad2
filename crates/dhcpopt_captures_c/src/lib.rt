// The calls of dhcpopt_captures for C, as a static library: each calls the library's function of its name, whose signature and clauses it has.
// Written by tests/exports.py.
#![tactic(auto)]

ghost use Rattle.std.specs.Prelude.{◌≤◌, length};
ghost use Rattle.report.specs.Printed.{Reports};
ghost use Rattle.dhcpopt_captures.specs.Plain.{progress_of_value, BeginsWith, FeedsPlain};

use dhcpopt_captures::PlainProgress;

// Begins a tally: the lent numbers become zeros.
#[unsafe(no_mangle)]
pub extern "C" fn dhcpopt_captures_begin(
    verdicts: &mut [u64; 8],
    held: &mut [u64; 256],
    bytes: &mut [u64; 256],
) -> PlainProgress
    ensures { BeginsWith result verdicts.new held.new bytes.new }
{
    dhcpopt_captures::dhcpopt_captures_begin(verdicts, held, bytes)
}

// Takes the next part of the file.
#[unsafe(no_mangle)]
pub extern "C" fn dhcpopt_captures_feed(
    part: &[u8],
    p: PlainProgress,
    message: &mut [u8; 1472],
    verdicts: &mut [u64; 8],
    held: &mut [u64; 256],
    bytes: &mut [u64; 256],
) -> PlainProgress
    ensures { FeedsPlain part.now p message.old verdicts.old held.old bytes.old result message.new verdicts.new held.new bytes.new }
{
    dhcpopt_captures::dhcpopt_captures_feed(part, p, message, verdicts, held, bytes)
}

// Writes the report of what was read, and gives its length.
#[unsafe(no_mangle)]
pub extern "C" fn dhcpopt_captures_report(
    p: PlainProgress,
    verdicts: &[u64; 8],
    held: &[u64; 256],
    bytes: &[u64; 256],
    out: &mut [u8; 16384],
) -> usize
    ensures size { result ≤ length out.new }
    ensures text { Reports (progress_of_value p) verdicts.now held.now bytes.now out.old result out.new }
{
    dhcpopt_captures::dhcpopt_captures_report(p, verdicts, held, bytes, out)
}

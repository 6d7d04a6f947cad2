// The calls of dhcpopt_extra for C, as a static library: each calls the library's function of its name, whose signature and clauses it has.
// Written by tests/exports.py.
#![tactic(auto)]

ghost use Rattle.std.specs.Prelude.{◌≡◌};
ghost use Rattle.options.specs.Trim.{options_end_value};
ghost use Rattle.options.specs.Listed.{listed};
ghost use Rattle.options.specs.IndexCopy.{copy_by};
ghost use Rattle.filled.specs.Plain.{plain_filled};
ghost use Rattle.trim.specs.Plain.{plain_end};

use filled::PlainFilled;
use trim::PlainEnd;

// The listing of a message, as text.
#[unsafe(no_mangle)]
pub extern "C" fn dhcpopt_list(m: &[u8], out: &mut [u8]) -> PlainFilled
    ensures { (result ≡ plain_filled (listed m.now out.old).answer) × (out.new ≡ (listed m.now out.old).buffer) }
{
    dhcpopt_extra::dhcpopt_list(m, out)
}

// The place of END in the options field of an accepted message.
#[unsafe(no_mangle)]
pub extern "C" fn dhcpopt_options_end(m: &[u8]) -> PlainEnd
    ensures { result ≡ plain_end (options_end_value m.now) }
{
    dhcpopt_extra::dhcpopt_options_end(m)
}

// The bytes of a code, found through an index, at the front of the buffer out.
#[unsafe(no_mangle)]
pub extern "C" fn dhcpopt_index_copy(
    m: &[u8],
    index: &[u16],
    code: u8,
    out: &mut [u8],
) -> PlainFilled
    ensures { (result ≡ plain_filled (copy_by m.now index.now code out.old).answer) × (out.new ≡ (copy_by m.now index.now code out.old).buffer) }
{
    dhcpopt_extra::dhcpopt_index_copy(m, index, code, out)
}

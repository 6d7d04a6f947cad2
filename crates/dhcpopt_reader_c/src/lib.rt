// The calls of dhcpopt_reader for C, as a static library: each calls the library's function of its name, whose signature and clauses it has.
// Written by tests/exports.py.
#![tactic(auto)]

ghost use Rattle.std.specs.Prelude.{◌≡◌, [], ◌∷◌};
ghost use Rattle.options.specs.Kinds.{kinds};
ghost use Rattle.options.specs.CodeSet.{marked};
ghost use Rattle.options.specs.Answers.{lookup, data_of, text_of, address_step, present};
ghost use Rattle.dhcpopt_reader.specs.Plain.{plain_answer, plain_extent, plain_address, plain_codes};
ghost use Rattle.options.specs.Answers as answers;
ghost use Rattle.filled.specs.Plain.{plain_filled};
ghost use Rattle.options.specs.Vendor.{vendor_records_value};
ghost use Rattle.options.specs.Relay.{relay_records_value};
ghost use Rattle.dhcpopt_reader.specs.Relay.{plain_relay};

use dhcpopt_reader::{PlainAddress, PlainAnswer, PlainCodes, PlainExtent, PlainRelay};
use filled::PlainFilled;

// Looks up a code, given the set of known codes.
#[unsafe(no_mangle)]
pub extern "C" fn dhcpopt_lookup(
    m: &[u8],
    k0: u64,
    k1: u64,
    k2: u64,
    k3: u64,
    code: u8,
) -> PlainAnswer
    ensures { result ≡ plain_answer (lookup kinds (marked (k0 ∷ k1 ∷ k2 ∷ k3 ∷ [])) m.now code) }
{
    dhcpopt_reader::dhcpopt_lookup(m, k0, k1, k2, k3, code)
}

// Where all data bytes of a code stand.
#[unsafe(no_mangle)]
pub extern "C" fn dhcpopt_data(m: &[u8], code: u8) -> PlainExtent
    ensures { result ≡ plain_extent (data_of m.now code) }
{
    dhcpopt_reader::dhcpopt_data(m, code)
}

// Where the text of a code stands, without its trailing zeros.
#[unsafe(no_mangle)]
pub extern "C" fn dhcpopt_text(
    m: &[u8],
    k0: u64,
    k1: u64,
    k2: u64,
    k3: u64,
    code: u8,
) -> PlainExtent
    ensures { result ≡ plain_extent (text_of (marked (k0 ∷ k1 ∷ k2 ∷ k3 ∷ [])) m.now code) }
{
    dhcpopt_reader::dhcpopt_text(m, k0, k1, k2, k3, code)
}

// The address at a place of an address list, and the place after it.
#[unsafe(no_mangle)]
pub extern "C" fn dhcpopt_address_step(list: &[u8], at: usize) -> PlainAddress
    ensures { result ≡ plain_address at (address_step list.now at) }
{
    dhcpopt_reader::dhcpopt_address_step(list, at)
}

// The codes present, their number and the lowest.
#[unsafe(no_mangle)]
pub extern "C" fn dhcpopt_present(m: &[u8]) -> PlainCodes
    ensures { result ≡ plain_codes (present m.now) }
{
    dhcpopt_reader::dhcpopt_present(m)
}

// Every code but 52, in the reading order of its first piece, as a record in the buffer out.
#[unsafe(no_mangle)]
pub extern "C" fn dhcpopt_records(m: &[u8], out: &mut [u8]) -> PlainFilled
    ensures { (result ≡ plain_filled (answers.records m.now out.old).answer) × (out.new ≡ (answers.records m.now out.old).buffer) }
{
    dhcpopt_reader::dhcpopt_records(m, out)
}

// The bytes of a code, those of all its pieces end to end, at the front of the buffer out.
#[unsafe(no_mangle)]
pub extern "C" fn dhcpopt_copy(m: &[u8], code: u8, out: &mut [u8]) -> PlainFilled
    ensures { (result ≡ plain_filled (answers.copy m.now code out.old).answer) × (out.new ≡ (answers.copy m.now code out.old).buffer) }
{
    dhcpopt_reader::dhcpopt_copy(m, code, out)
}

// The items of the bytes of an option 43, each as a record in the buffer out.
#[unsafe(no_mangle)]
pub extern "C" fn dhcpopt_vendor_records(bytes: &[u8], out: &mut [u8]) -> PlainFilled
    ensures { (result ≡ plain_filled (vendor_records_value bytes.now out.old).answer) × (out.new ≡ (vendor_records_value bytes.now out.old).buffer) }
{
    dhcpopt_reader::dhcpopt_vendor_records(bytes, out)
}

// The sub-options of the bytes of an option 82, each as a record in the buffer out, and circuit id and remote id (document 02, request 09).
#[unsafe(no_mangle)]
pub extern "C" fn dhcpopt_relay_records(bytes: &[u8], out: &mut [u8]) -> PlainRelay
    ensures { (result ≡ plain_relay (relay_records_value bytes.now out.old)) × (out.new ≡ (relay_records_value bytes.now out.old).filled.buffer) }
{
    dhcpopt_reader::dhcpopt_relay_records(bytes, out)
}

// The calls of dhcpopt_index for C, as a static library: each calls the library's function of its name, whose signature and clauses it has.
// Written by tests/exports.py.
#![tactic(auto)]

ghost use Rattle.std.specs.Prelude.{◌≡◌, [], ◌∷◌};
ghost use Rattle.options.specs.Kinds.{kinds};
ghost use Rattle.options.specs.CodeSet.{marked};
ghost use Rattle.options.specs.Index.{build, lookup_by};
ghost use Rattle.filled.specs.Plain.{plain_filled};
ghost use Rattle.dhcpopt_reader.specs.Plain.{plain_answer};

use dhcpopt_reader::PlainAnswer;
use filled::PlainFilled;

// Builds the index of a message: the place of each code's byte, 0 where it is absent, 65,535 where it comes in pieces.
#[unsafe(no_mangle)]
pub extern "C" fn dhcpopt_index_build(m: &[u8], index: &mut [u16]) -> PlainFilled
    ensures { (result ≡ plain_filled (build m.now index.old).answer) × (index.new ≡ (build m.now index.old).buffer) }
{
    dhcpopt_index::dhcpopt_index_build(m, index)
}

// Looks up a code through an index, given the set of known codes. What the plain lookup has to say of the message, it says: of one that does not fit, and of a
// code in pieces. It is lent the message anew, so that here nothing of it need be kept in memory.
#[unsafe(no_mangle)]
pub extern "C" fn dhcpopt_index_lookup(
    m: &[u8],
    index: &[u16],
    k0: u64,
    k1: u64,
    k2: u64,
    k3: u64,
    code: u8,
) -> PlainAnswer
    ensures { result ≡ plain_answer (lookup_by kinds (marked (k0 ∷ k1 ∷ k2 ∷ k3 ∷ [])) m.now index.now code) }
{
    dhcpopt_index::dhcpopt_index_lookup(m, index, k0, k1, k2, k3, code)
}

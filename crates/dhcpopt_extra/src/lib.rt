// Further calls for C (docs/RULES.md, L4, Q19 and I8): the listing, where END stands, and the copy through an index. A library of its own, so that those of the reader and of an index are compiled as before.
#![tactic(auto)]

ghost use Rattle.std.specs.Prelude.{◌≡◌};
ghost use Rattle.options.specs.Trim.{options_end_value};
ghost use Rattle.options.specs.Listed.{listed};
ghost use Rattle.options.specs.IndexCopy.{copy_by};
ghost use Rattle.options.specs.ListedClaims.{ListedIsRight, ListingRoomIsEnough};
ghost use Rattle.filled.specs.Fill.{Fills};
ghost use Rattle.filled.specs.Plain.{plain_filled};
ghost use Rattle.trim.specs.Plain.{plain_end};

use filled::PlainFilled;
use refusal::Refusal;
use trim::PlainEnd;

// Writes the listing of a message to the front of a lent buffer where it has room. It is made in a buffer that holds every listing, so that a refusal changes no byte.
pub fn list_into(m: &[u8], out: &mut [u8]) -> Result<usize, Refusal>
    ensures { Fills (listed m.now out.old) result out.new }
{
    let mut text = [0u8; 16384];
    let n = listing::list(m, &mut text);
    filled::give(&text[..n], out)
}

// The listing of a message, as text.
#[unsafe(no_mangle)]
pub extern "C" fn dhcpopt_list(m: &[u8], out: &mut [u8]) -> PlainFilled
    ensures { (result ≡ plain_filled (listed m.now out.old).answer) × (out.new ≡ (listed m.now out.old).buffer) }
{
    PlainFilled::from(list_into(m, out))
}

// The place of END in the options field of an accepted message.
#[unsafe(no_mangle)]
pub extern "C" fn dhcpopt_options_end(m: &[u8]) -> PlainEnd
    ensures { result ≡ plain_end (options_end_value m.now) }
{
    PlainEnd::from(trim::options_end(m))
}

// The bytes of a code, found through an index, at the front of the buffer out.
#[unsafe(no_mangle)]
pub extern "C" fn dhcpopt_index_copy(
    m: &[u8],
    index: &[u16],
    code: u8,
    out: &mut [u8],
) -> PlainFilled
    ensures { (result ≡ plain_filled (copy_by m.now index.now code out.old).answer) × (out.new ≡ (copy_by m.now index.now code out.old).buffer) }
{
    PlainFilled::from(index_copy::copy(m, index, code, out))
}

// What is proved of the definition.
pub fn proved()
    ensures { ListedIsRight × ListingRoomIsEnough }
{}

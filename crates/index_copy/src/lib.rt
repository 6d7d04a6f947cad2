// The copy of a code through an index (docs/RULES.md, I8).
#![tactic(auto)]

ghost use Rattle.std.specs.Prelude.{◌≡◌, ◌≤◌, length};
ghost use Rattle.options.specs.Index.{used_entry};
ghost use Rattle.options.specs.IndexCopy.{entry_copy, copy_by};
ghost use Rattle.options.specs.IndexCopyClaims.{CopiesByTheWords, CopiesAsPlain};
ghost use Rattle.filled.specs.Fill.{Fills};

use refusal::{Refusal, Rule};

// By an entry that is neither 0 nor 65,535: it is used only if the code, its length byte and its data are there, in one field.
// dhcpopt_index::at_entry makes the same three tests: each refuses with its own type at once, and a function for both would give a third type, which each would match again.
fn copy_entry(m: &[u8], code: u8, place: usize, out: &mut [u8]) -> Result<usize, Refusal>
    requires { (240 ≤ length m.now) × (place ≤ 65535) }
    ensures { Fills (entry_copy place (used_entry m.now code place) out.old) result out.new }
{
    let Some(s) = dhcpopt_index::span_at(m.len(), place) else {
        return Err(Rule::BadIndexEntry.at(place));
    };
    let start = place + 2;
    if s.end < start {
        return Err(Rule::BadIndexEntry.at(place));
    }
    if m[place] != code {
        return Err(Rule::BadIndexEntry.at(place));
    }
    let e = start + num::wide(m[place + 1]);
    if s.end < e {
        return Err(Rule::BadIndexEntry.at(place));
    }
    filled::give(&m[start..e], out)
}

// Copies the bytes of a code to the front of a lent buffer, and gives their number. A code in pieces is copied as the plain copy does.
pub fn copy(m: &[u8], index: &[u16], code: u8, out: &mut [u8]) -> Result<usize, Refusal>
    ensures { Fills (copy_by m.now index.now code out.old) result out.new }
{
    if code == 0 || code == 255 {
        return Err(Rule::BadCode.at(0));
    }
    message::fit(m)?;
    let n = index.len();
    if n != 256 {
        return Err(Rule::BadIndexCount.at(n));
    }
    let entry = index[num::wide(code)];
    if entry == 0 {
        return Err(Rule::NoRoom.at(0));
    }
    if entry == 65535 {
        return lookup::copy(m, code, out);
    }
    copy_entry(m, code, usize::from(entry), out)
}

// What is proved of the definition.
pub fn proved()
    ensures { CopiesByTheWords × CopiesAsPlain }
{}

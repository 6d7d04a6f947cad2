// Old sheets and grouped files (document 02, request 08): a sheet moves into a nameless outermost group, and such a file goes back.
#![tactic(auto)]

ghost use Rattle.std.specs.Prelude.{◌≡◌, ◌≤◌, length};
ghost use Rattle.options.specs.SheetWalk.{records_from};
ghost use Rattle.options.specs.Answers.{filled_with};
ghost use Rattle.options.specs.Grouped.{in_group};
ghost use Rattle.options.specs.Grouped as grouped;
ghost use Rattle.filled.specs.Fill.{Fills};
ghost use Rattle.groups.specs.Check.{verdict_by};
ghost use Rattle.regroup.specs.Parts.{movable, plain_in};

use refusal::{Refusal, Rule};
use sheet::Step;

// The first faulty record of a sheet that is to move, by 12 and 10 as the writer gives them: what is no record to be passed is one, but for the sheet's end.
fn sheet_fault(s: &[u8]) -> Result<(), Refusal>
    ensures { verdict_by result ≡ movable (records_from 0 0 s.now) }
{
    let at = groups::past_records(s, 0);
    match sheet::next_record(s, at) {
        Step::End => Ok(()),
        Step::Cut => Err(Rule::RecordTruncated.at(at)),
        Step::Record { .. } => Err(Rule::BadCode.at(at)),
    }
}

// Lays a nameless group with the sheet inside at the front of a lent buffer, where it has room. The length counts the byte for the name.
fn put_group(s: &[u8], out: &mut [u8]) -> Result<usize, Refusal>
    requires { length s.now ≤ 4096 }
    ensures { Fills (filled_with (in_group s.now) out.old) result out.new }
{
    let n = s.len();
    let room = out.len();
    if room < n + 4 {
        return Err(Rule::NoRoom.at(room));
    }
    let size = n + 1;
    out[0] = 0;
    out[1] = (size / 256) as u8;
    out[2] = (size % 256) as u8;
    out[3] = 0;
    let end = n + 4;
    buffer::copy(&mut out[4..end], s);
    Ok(end)
}

// Moves an old sheet into a nameless outermost group.
pub fn group(s: &[u8], out: &mut [u8]) -> Result<usize, Refusal>
    ensures { Fills (grouped.move s.now out.old) result out.new }
{
    if 4096 < s.len() {
        return Err(Rule::SheetTooLong.at(s.len()));
    }
    sheet_fault(s)?;
    put_group(s, out)
}

// Whether a file's outermost group is nameless, and no group stands among the records behind its name.
fn is_plain(f: &[u8]) -> bool
    ensures { result ≡ plain_in f.now }
{
    if num::byte(f, 3) != 0 {
        return false;
    }
    let mut at = 4;
    while let Step::Record { tag, size } = sheet::next_record(f, at) {
        if tag == 0 {
            return false;
        }
        at += size + 3;
    }
    true
}

// Takes the sheet back out of a file that is one nameless group with no group inside.
pub fn ungroup(f: &[u8], out: &mut [u8]) -> Result<usize, Refusal>
    ensures { Fills (grouped.go_back f.now out.old) result out.new }
{
    groups::check(f)?;
    if !is_plain(f) {
        return Err(Rule::NoWayBack.at(0));
    }
    filled::give(&f[4..], out)
}

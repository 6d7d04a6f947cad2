// The choice for a class from a grouped file (document 02, request 08): the records of each group reached, in written order, as a sheet.
// One walk checks the file and lays the records into a local sheet: so their size is known, and every fault, before a lent byte is touched.
// A group's body calls item, item calls group, group calls body: "A group may hold further groups", and the depth left falls.
#![tactic(auto)]

ghost use Rattle.std.specs.Prelude.{◌≡◌, ◌+◌, ◌≤◌, length, drop};
ghost use Rattle.options.specs.Grouped.{none, group_of, body, reached};
ghost use Rattle.options.specs.Grouped as grouped;
ghost use Rattle.filled.specs.Fill.{Fills};
ghost use Rattle.groups.specs.Parts.{Stops};
ghost use Rattle.choice.specs.Parts.{Chose, Picks};

use refusal::{Refusal, Rule};
use sheet::Step;

// An item that is passed: the place behind it, and where the records chosen end then.
#[derive(Clone, Copy)]
pub struct Passed {
    pub at: usize,
    pub end: usize,
}

// Whether a group is reached for a class.
fn is_reached(class: &[u8], name: &[u8]) -> bool
    ensures { result ≡ reached class.now name.now }
{
    name.is_empty() || name == class
}

// The members of a group that is reached, from the place `at` on to the end of s; their records go into out from o on, and the answer is where they end.
// Records that stand one after the other are copied at once. `out` and o go as two: o is a place in the sheet that all groups lay into, and out's length
// is not where it ends.
#[cycle(choose_body_choose_group_choose_item)]
fn choose_body(
    s: &[u8],
    class: &[u8],
    at: usize,
    tag: usize,
    depth: usize,
    out: &mut [u8],
    o: usize,
) -> Result<usize, Refusal>
    requires { (o ≤ at) × (at ≤ length s.now) × (length s.now ≤ length out.old) }
    ensures { Chose (body depth tag at (drop at s.now)) class.now out.old o (length s.now) result out.new }
{
    if depth == 0 {
        return Err(Rule::TooDeep.at(tag));
    }
    let mut i = at;
    let mut e = o;
    // A loop, since what is laid is the answer where no item is left.
    loop {
        let past = groups::past_records(s, i);
        let laid = e + (past - i);
        buffer::copy(&mut out[e..laid], &s[i..past]);
        match choose_item(s, class, past, depth - 1, out, laid)? {
            None => return Ok(laid),
            Some(Passed { at, end }) => {
                i = at;
                e = end;
            }
        }
    }
}

// The item at a place of a group's body where no record is to be passed; none where there is nothing more. A tag other than 0 is a wrong one there. As `groups::check_item`,
// but that the group is entered with the buffer: a closure for that would make the recursion one over closures.
#[cycle(choose_body_choose_group_choose_item)]
fn choose_item(
    s: &[u8],
    class: &[u8],
    at: usize,
    depth: usize,
    out: &mut [u8],
    o: usize,
) -> Result<Option<Passed>, Refusal>
    requires { (o ≤ at) × (at ≤ length s.now) × (length s.now ≤ length out.old) × Stops s.now at }
    ensures { Picks depth class.now s.now at out.old o result out.new }
{
    match sheet::next_record(s, at) {
        Step::End => Ok(None),
        Step::Cut => Err(Rule::BadGroup.at(at)),
        Step::Record { tag, size } => {
            if tag != 0 {
                return Err(Rule::BadCode.at(at));
            }
            let next = at + 3 + size;
            let end = choose_group(&s[..next], class, at, depth, out, o)?;
            Ok(Some(Passed { at: next, end }))
        }
    }
}

// The group whose tag is at `tag`, and that s ends with. One that is not reached is checked, and not entered.
#[cycle(choose_body_choose_group_choose_item)]
fn choose_group(
    s: &[u8],
    class: &[u8],
    tag: usize,
    depth: usize,
    out: &mut [u8],
    o: usize,
) -> Result<usize, Refusal>
    requires { (o ≤ tag) × (length s.now ≤ length out.old) }
    ensures { Chose (group_of (body depth) tag (drop (tag + 3) s.now) none) class.now out.old o (length s.now) result out.new }
{
    let Some(at) = groups::members_at(s, tag) else {
        return Err(Rule::BadGroup.at(tag));
    };
    if is_reached(class, &s[tag + 4..at]) {
        return choose_body(s, class, at, tag, depth, out, o);
    }
    groups::check_group(s, tag, depth)?;
    Ok(o)
}

// Chooses for a class: the records of the groups reached go to the front of the caller's buffer, and the answer is their number of bytes.
pub fn choose(f: &[u8], class: &[u8], out: &mut [u8]) -> Result<usize, Refusal>
    ensures { Fills (grouped.choice f.now class.now out.old) result out.new }
{
    if 4100 < f.len() {
        return Err(Rule::SheetTooLong.at(f.len()));
    }
    let Some(n) = groups::outermost(f) else {
        return Err(Rule::BadGroup.at(0));
    };
    let mut sheet = [0u8; 4100];
    let end = choose_group(&f[..n], class, 0, 4, &mut sheet, 0)?;
    if n < f.len() {
        return Err(Rule::BadGroup.at(n));
    }
    filled::give(&sheet[..end], out)
}

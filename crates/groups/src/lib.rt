// The check of a grouped file (document 02, request 08): its first faulty item, in groups that nobody enters too.
// A group's body calls item, item calls group, group calls body: "A group may hold further groups", and the depth left falls.
#![tactic(auto)]

ghost use Rattle.std.specs.Prelude.{◌≡◌, ◌+◌, drop};
ghost use Rattle.options.specs.SheetWalk.{records_from};
ghost use Rattle.options.specs.Grouped.{none, group_of, body, fault_of};
ghost use Rattle.options.specs.Grouped as grouped;
ghost use Rattle.sheet.specs.Places.{unless_0};
ghost use Rattle.groups.specs.Check.{verdict_by, plain_checked, VerdictsComeBack, AnswersComeBack, CheckedByCase, AnswersByCase, CheckKept};
ghost use Rattle.groups.specs.Parts.{members_at_value, outermost_size, item_told, item_given, past_records_value, Stops};

use refusal::{Refusal, Rule};
use sheet::Step;

// A verdict for C. refusal: 0 where there is no fault; else its number, with its place.
#[repr(C)]
#[derive(Clone, Copy)]
pub struct PlainChecked {
    pub refusal: u32,
    pub place: usize,
}

impl From<Result<(), Refusal>> for PlainChecked {
    ghost from_gives = { λ c p. p ≡ plain_checked (verdict_by c) };

    fn from(checked: Result<(), Refusal>) -> PlainChecked {
        match checked {
            Ok(()) => PlainChecked {
                refusal: 0,
                place: 0,
            },
            Err(Refusal { rule, place }) => PlainChecked {
                refusal: rule.number(),
                place,
            },
        }
    }
}

// Each case of the verdict, in the code and for C, has the numbers that the rules give it, and none of a refusal is 0.
pub fn proved()
    ensures { CheckedByCase × CheckKept × VerdictsComeBack × AnswersByCase × AnswersComeBack }
{}

// The place of a group's first member, behind its name, where s ends with the group; none where that is too short for n and name.
pub fn members_at(s: &[u8], tag: usize) -> Option<usize>
    ensures { result ≡ unless_0 (members_at_value s.now tag) }
{
    if s.len() < 4 {
        return None;
    }
    if s.len() - 4 < tag {
        return None;
    }
    let n = num::wide(s[tag + 3]);
    if s.len() - 4 - tag < n {
        return None;
    }
    Some(tag + 4 + n)
}

// The size of the group that a file begins with; none where it begins with none that is whole.
pub fn outermost(f: &[u8]) -> Option<usize>
    ensures { result ≡ unless_0 (outermost_size (records_from 0 0 f.now)) }
{
    match sheet::next_record(f, 0) {
        Step::Record { tag: 0, size } => Some(size + 3),
        _ => None,
    }
}

// The place behind the records that stand one after the other from a place on: there the members end, or a group or a faulty item begins.
// It is a loop of its own, without an answer for each record, because most items are records.
pub fn past_records(s: &[u8], at: usize) -> usize
    ensures { result ≡ past_records_value at (records_from at 0 (drop at s.now)) }
{
    let mut i = at;
    while let Step::Record { tag, size } = sheet::next_record(s, i) {
        if tag == 0 || tag == 52 || tag == 255 {
            return i;
        }
        i += 3 + size;
    }
    i
}

// The members of a group, from the place `at` on to the end of s; the group's tag is at `tag`.
#[cycle(check_body_check_group_check_item)]
fn check_body(s: &[u8], at: usize, tag: usize, depth: usize) -> Result<(), Refusal>
    ensures { verdict_by result ≡ fault_of (body depth tag at (drop at s.now)) }
{
    if depth == 0 {
        return Err(Rule::TooDeep.at(tag));
    }
    let mut i = at;
    while let Some(next) = check_item(s, past_records(s, i), depth - 1)? {
        i = next;
    }
    Ok(())
}

// The item at a place of a group's body where no record is to be passed, and the place behind it; none where there is nothing more. A tag other than 0 is
// a wrong one there.
#[cycle(check_body_check_group_check_item)]
fn check_item(s: &[u8], at: usize, depth: usize) -> Result<Option<usize>, Refusal>
    requires { Stops s.now at }
    ensures { item_told result ≡ item_given depth (records_from at 0 (drop at s.now)) }
{
    match sheet::next_record(s, at) {
        Step::End => Ok(None),
        Step::Cut => Err(Rule::BadGroup.at(at)),
        Step::Record { tag, size } => {
            if tag != 0 {
                return Err(Rule::BadCode.at(at));
            }
            let next = at + 3 + size;
            check_group(&s[..next], at, depth)?;
            Ok(Some(next))
        }
    }
}

// The group whose tag is at `tag`; s ends with it.
#[cycle(check_body_check_group_check_item)]
pub fn check_group(s: &[u8], tag: usize, depth: usize) -> Result<(), Refusal>
    ensures { verdict_by result ≡ fault_of (group_of (body depth) tag (drop (tag + 3) s.now) none) }
{
    match members_at(s, tag) {
        None => Err(Rule::BadGroup.at(tag)),
        Some(at) => check_body(s, at, tag, depth),
    }
}

// A file of at most 4,100 bytes that is exactly one group, at most four deep.
pub fn check(f: &[u8]) -> Result<(), Refusal>
    ensures { verdict_by result ≡ grouped.check f.now }
{
    if 4100 < f.len() {
        return Err(Rule::SheetTooLong.at(f.len()));
    }
    let Some(n) = outermost(f) else {
        return Err(Rule::BadGroup.at(0));
    };
    check_group(&f[..n], 0, 4)?;
    if n < f.len() {
        return Err(Rule::BadGroup.at(n));
    }
    Ok(())
}

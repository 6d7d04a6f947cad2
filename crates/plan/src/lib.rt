// The plan that a sheet is written by (document 01: "The first that fits is used, and its number is the answer"), or the refusal. Nothing is written.
#![tactic(auto)]

ghost use Rattle.std.specs.Prelude.{◌≡◌, cond, ltb, ◌+◌, ◌-◌, ◌*◌, ◌≤◌, Some, None};
ghost use Rattle.options.specs.Writing.{pieces_left, Between};
ghost use Rattle.sheet.specs.Places.{unless_0};
ghost use Rattle.plan.specs.Answer.{chosen_by, Answers, ChoiceByCase, ChosenByCase, RefusalsAreNumbered};
ghost use Rattle.plan.specs.Pieces.{piece_of};
ghost use Rattle.plan.specs.Steps.{sizes, Single, RestOf, overloading, first_fit, Tries};

use refusal::{Refusal, Rule};
use sheet::Judged;

// The plan that is used. single: up to this place of the sheet each record is one piece.
#[derive(Clone, Copy)]
pub struct Choice {
    pub plan: u8,
    pub single: usize,
}

// The next piece of a record: the size of its data, how far the place of the record moves behind it, and how many bytes of data are done there.
#[derive(Clone, Copy)]
pub struct Piece {
    pub size: usize,
    pub ahead: usize,
    pub done: usize,
}

// The pieces that a field leaves over: the place of their record in the sheet, the bytes of its data that are done, and how many bytes their
// options take.
#[derive(Clone, Copy)]
pub struct Rest {
    pub place: usize,
    pub done: usize,
    pub total: usize,
}

// Each case of the answer has the numbers that the rules give it, and none of a refusal is 0.
pub fn proved()
    ensures { ChoiceByCase × ChosenByCase × RefusalsAreNumbered }
{}

// The length that two bytes give.
fn size_of(high: u8, low: u8) -> usize
    ensures { (result ≡ 256 * high + low) × (result ≤ 65535) }
{
    256 * num::wide(high) + num::wide(low)
}

// The next piece of a record whose length has these two bytes, `done` bytes of whose data are in pieces before it.
pub fn next_piece(high: u8, low: u8, done: usize) -> Piece
    ensures { result ≡ piece_of (256 * high + low) done }
{
    let size = size_of(high, low);
    if size < done {
        return Piece {
            size: 0,
            ahead: 3 + size,
            done: 0,
        };
    }
    if 255 < size - done {
        return Piece {
            size: 255,
            ahead: 0,
            done: done + 255,
        };
    }
    Piece {
        size: size - done,
        ahead: 3 + size,
        done: 0,
    }
}

// The plan, where a field takes options of so many bytes and END.
fn plan_if(total: usize, room: usize, plan: u8) -> Option<u8>
    ensures { result ≡ cond (ltb total room) (Some plan) None }
{
    if total < room { Some(plan) } else { None }
}

// What a field of so many bytes leaves over of the pieces from a place on.
fn rest_pieces(room: usize, s: &[u8], rest: Rest) -> Rest
    requires { Between s.now rest.place rest.done × (rest.total ≡ sizes (pieces_left s.now rest.place rest.done)) }
    ensures { RestOf room s.now rest.place rest.done result }
{
    let Rest {
        mut place,
        mut done,
        total,
    } = rest;
    let mut left = room;
    // No iterator: how far a step goes is read from the bytes.
    while place < s.len() {
        let piece = next_piece(s[place + 1], s[place + 2], done);
        let size = piece.size + 2;
        if left <= size {
            break;
        }
        left -= size;
        place += piece.ahead;
        done = piece.done;
    }
    Rest {
        place,
        done,
        total: total - (room - left),
    }
}

// The same. Up to `single` each record is one piece, and its length is its second length byte, which takes half the steps. It is not one loop with the
// other: that took more instructions than plain C, of a sheet with a long record (docs/DECISIONS.md, 73; docs/PERFORMANCE.md, 1.02).
fn rest_after(room: usize, s: &[u8], single: usize, rest: Rest) -> Rest
    requires { Between s.now rest.place rest.done × Single s.now single rest.place rest.done × (rest.total ≡ sizes (pieces_left s.now rest.place rest.done)) }
    ensures { RestOf room s.now rest.place rest.done result × Single s.now single result.place result.done }
{
    let Rest {
        mut place,
        done,
        total,
    } = rest;
    let mut left = room;
    while place < single {
        let size = num::wide(s[place + 2]) + 2;
        if left <= size {
            return Rest {
                place,
                done: 0,
                total: total - (room - left),
            };
        }
        left -= size;
        place += size + 1;
    }
    let rest = Rest {
        place,
        done,
        total: total - (room - left),
    };
    rest_pieces(left, s, rest)
}

// The first plan that is tried, overloads and leaves no piece over, in a buffer of so many bytes. The last field of a plan takes all that is left where its
// options and END fit, so it needs no walk. With permission 3 plan 2 is not tried: what is too much for file is too much for sname.
fn overload_plan(len: usize, s: &[u8], judged: Judged, permission: u8) -> Option<u8>
    requires { (240 ≤ len) × Between s.now 0 0 × Single s.now judged.single 0 0 × (judged.total ≡ sizes (pieces_left s.now 0 0)) }
    ensures { result ≡ unless_0 (first_fit (overloading permission) (len - 240) (pieces_left s.now 0 0)) }
{
    if permission == 0 {
        return None;
    }
    let n = len - 240;
    if n < 4 {
        return None;
    }
    let all = Rest {
        place: 0,
        done: 0,
        total: judged.total,
    };
    let options = rest_after(n - 3, s, judged.single, all);
    if permission == 2 {
        return plan_if(options.total, 64, 2);
    }
    if options.total < 128 {
        return Some(1);
    }
    if permission == 1 {
        return None;
    }
    let file = rest_after(128, s, judged.single, options);
    plan_if(file.total, 64, 3)
}

// Of a sheet that was judged.
fn choose_judged(len: usize, s: &[u8], judged: Judged, permission: u8) -> Result<Choice, Refusal>
    requires { (240 ≤ len) × Between s.now 0 0 × Single s.now judged.single 0 0 × (judged.total ≡ sizes (pieces_left s.now 0 0)) }
    ensures { Tries (pieces_left s.now 0 0) len permission judged.single (chosen_by result) }
{
    let single = judged.single;
    if judged.total < len - 240 {
        return Ok(Choice { plan: 0, single });
    }
    match overload_plan(len, s, judged, permission) {
        None => Err(Rule::NoRoom.at(len)),
        Some(plan) => Ok(Choice { plan, single }),
    }
}

// The plan that a sheet is written by into a buffer of so many bytes, or the refusal. The permission is a number because C hands it in: past 3 it is refused.
pub fn choose(len: usize, s: &[u8], permission: u8) -> Result<Choice, Refusal>
    ensures { Answers s.now len permission (chosen_by result) }
{
    if len < 240 {
        return Err(Rule::MessageTooShort.at(len));
    }
    if 1472 < len {
        return Err(Rule::MessageTooLong.at(len));
    }
    if 3 < permission {
        return Err(Rule::BadPermission.at(0));
    }
    if 4096 < s.len() {
        return Err(Rule::SheetTooLong.at(s.len()));
    }
    let judged = sheet::judge(s)?;
    choose_judged(len, s, judged, permission)
}

// The writer (document 01, The settings sheet and the writer): a sheet into a buffer by the first permitted plan that fits, or a refusal.
#![tactic(auto)]

ghost use Rattle.std.specs.Prelude.{◌≡◌, cond, ◌+◌, ◌-◌, ◌<◌, ◌≤◌, length, drop};
ghost use Rattle.options.specs.Message.{cookie};
ghost use Rattle.options.specs.Reading.{file_in, sname_in};
ghost use Rattle.options.specs.Kinds.{kinds};
ghost use Rattle.options.specs.Writing.{with52, fits_if, past_options, written, writer, Between};
ghost use Rattle.plan.specs.Steps.{left_over, From};
ghost use Rattle.plan.specs.Answer.{chosen_by};
ghost use Rattle.writer.specs.Fill.{filled, least_room, place_in, done_in, pieces_at, Spot, Left};
ghost use Rattle.writer.specs.Writer.{Gives, GivesByCase, WritesByCase};

use plan::Choice;
use refusal::Refusal;

// Each case of the answer, with what is left in the buffer.
pub fn proved()
    ensures { GivesByCase × WritesByCase }
{}

fn put_cookie(room: &mut [u8])
    requires { length room.old ≡ 4 }
    ensures { room.new ≡ cookie }
{
    room.copy_from_slice(&[99, 130, 83, 99]);
}

// A place between two pieces of the sheet is one number: the place of their record, and 65,536 for each piece of 255 bytes before. So it goes in one
// register, and is the place itself where no piece of the record is before: for speed, no struct of two (docs/DECISIONS.md, 74).

// Writes the pieces from a place on, "while each fits with one byte kept for END", then END and zeros. The result is the place after the last one.
fn fill_pieces(field: &mut [u8], s: &[u8], spot: usize) -> usize
    requires { (length s.now ≤ 4096) × Between s.now (place_in spot) (done_in spot) }
    ensures { (field.new ≡ filled (length field.old) (pieces_at s.now spot)) × From s.now (left_over (length field.old) (pieces_at s.now spot)) (place_in result) (done_in result) × (place_in spot ≤ place_in result) }
{
    let mut at = spot % 65536;
    let mut done = 255 * (spot / 65536);
    let mut end = 0;
    // No iterator: how far a step goes is read from the bytes.
    while at < s.len() {
        let piece = plan::next_piece(s[at + 1], s[at + 2], done);
        let next = end + (piece.size + 2);
        if field.len() <= next {
            break;
        }
        let code = s[at];
        let start = at + 3 + done;
        field_writer::put_option(&mut field[end..], code, &s[start..start + piece.size]);
        end = next;
        at += piece.ahead;
        done = piece.done;
    }
    field_writer::close(&mut field[end..]);
    at + 65536 * (done / 255)
}

// The same. Up to `single` each record is one piece, and its length is its second length byte. It is not one loop with the other: that took more
// instructions than plain C, of a sheet with a long record (docs/DECISIONS.md, 73; docs/PERFORMANCE.md, 1.02).
fn fill(field: &mut [u8], s: &[u8], single: usize, spot: usize) -> usize
    requires { Spot s.now single spot }
    ensures { (field.new ≡ filled (length field.old) (pieces_at s.now spot)) × Left s.now single (left_over (length field.old) (pieces_at s.now spot)) result }
{
    let mut at = spot;
    let mut end = 0;
    while at < single {
        let size = num::wide(s[at + 2]) + 2;
        let next = end + size;
        if field.len() <= next {
            field_writer::close(&mut field[end..]);
            return at;
        }
        let code = s[at];
        let stop = at + (size + 1);
        field_writer::put_option(&mut field[end..], code, &s[at + 3..stop]);
        end = next;
        at = stop;
    }
    fill_pieces(&mut field[end..], s, at)
}

// The options field of a plan: option 52 first where the plan overloads, then the pieces from the sheet's start on.
fn fill_options(field: &mut [u8], plan: u8, s: &[u8], single: usize) -> usize
    requires { (least_room plan ≤ length field.old) × Spot s.now single 0 }
    ensures { (field.new ≡ filled (length field.old) (with52 plan (pieces_at s.now 0))) × Left s.now single (past_options plan (length field.old) (pieces_at s.now 0)) result }
{
    if plan == 0 {
        return fill(field, s, single, 0);
    }
    field_writer::put_option(field, 52, &[plan]);
    fill(&mut field[3..], s, single, 0)
}

// A further field, written where the plan uses it. The result is the place in the sheet after it.
fn fill_if(field: &mut [u8], used: bool, s: &[u8], single: usize, spot: usize) -> usize
    requires { Spot s.now single spot }
    ensures { (field.new ≡ cond used (filled (length field.old) (pieces_at s.now spot)) field.old) × Left s.now single (drop (fits_if used (length field.old) (pieces_at s.now spot)) (pieces_at s.now spot)) result }
{
    if used {
        fill(field, s, single, spot)
    } else {
        spot
    }
}

// Writes a sheet by a plan.
fn write_plan(m: &mut [u8], s: &[u8], choice: Choice)
    requires { (240 ≤ length m.old) × (least_room choice.plan ≤ length m.old - 240) × Spot s.now choice.single 0 }
    ensures { m.new ≡ written choice.plan m.old (pieces_at s.now 0) }
{
    let Choice { plan, single } = choice;
    put_cookie(&mut m[236..240]);
    let a = fill_options(&mut m[240..], plan, s, single);
    let b = fill_if(&mut m[108..236], uses_file(plan), s, single, a);
    fill_if(&mut m[44..108], uses_sname(plan), s, single, b);
}

// Whether a plan uses file. The reader has the same test of option 52 in its walk over messages, a crate that the writer does without.
fn uses_file(plan: u8) -> bool
    ensures { result ≡ file_in plan }
{
    plan == 1 || plan == 3
}

fn uses_sname(plan: u8) -> bool
    ensures { result ≡ sname_in plan }
{
    plan == 2 || plan == 3
}

// Writes a sheet into a buffer whose header is there. A refusal changes no byte.
pub fn write(s: &[u8], m: &mut [u8], permission: u8) -> Result<Choice, Refusal>
    ensures { Gives s.now (writer kinds s.now m.old permission) m.old (chosen_by result) m.new }
{
    let choice = plan::choose(m.len(), s, permission)?;
    write_plan(m, s, choice);
    Ok(choice)
}

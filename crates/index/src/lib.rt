// An index of a message: where each code stands (document 02, request 07). What is answered of a code is not this crate's.
#![tactic(auto)]

ghost use Rattle.std.specs.Prelude.{◌≡◌, cond, [], ◌≤◌, ◌<◌, length, replicate, IfSome};
ghost use Rattle.options.specs.Message.{bytes};
ghost use Rattle.options.specs.Reading.{accepted, is_options_value, all_fields};
ghost use Rattle.options.specs.Index as asked;
ghost use Rattle.message.specs.Fields.{field_of};
ghost use Rattle.message.specs.Active.{active_in};
ghost use Rattle.message.specs.Judging.{unfit_of};
ghost use Rattle.filled.specs.Fill.{Fills};
ghost use Rattle.index.specs.Filling.{entry_after_value, FirstEnd, Marked, LooksAt, Walks, reading, Enters, unmarked, Indexes};

use message::Field;
use refusal::{Refusal, Rule};

// Where the walk of a field goes on, and the value of option 52 there (0: not met).
#[derive(Clone, Copy)]
struct Next {
    at: usize,
    over: u32,
}

// The entry of a code after one more option with it, at a place. The entry of 52 holds a mark before.
fn entry_after(entry: u16, code: u8, place: u16) -> u16
    ensures { result ≡ entry_after_value entry code place }
{
    if code == 52 {
        return place;
    }
    if entry == 0 {
        return place;
    }
    65535
}

// The first offset after the option at i, if it is whole and its code has no entry yet. Pads, END and option 52 have a mark for an entry.
fn first_end(index: &[u16; 256], f: &[u8], i: usize) -> Option<usize>
    requires { (i < length f.now) × (length f.now ≤ 65536) }
    ensures { IfSome result (FirstEnd index.now f.now i) }
{
    let j = i + 2;
    if f.len() < j {
        return None;
    }
    if index[num::wide(f[i])] != 0 {
        return None;
    }
    let e = j + num::wide(f[i + 1]);
    if f.len() < e {
        return None;
    }
    Some(e)
}

fn is_options(field: Field) -> bool
    ensures { result ≡ is_options_value (field_of field) }
{
    matches!(field, Field::Options)
}

// A closer look at what stands at i: where the walk goes on, or none at END. An option is put into the index.
fn look(
    index: &mut [u16; 256],
    field: Field,
    f: &[u8],
    i: usize,
    over: u32,
) -> Result<Option<Next>, Refusal>
    requires { (i < length f.now) × (length f.now ≤ 65000) × Marked index.old }
    ensures { LooksAt (field_of field) f.now i over index.old result index.new }
{
    let c = f[i];
    if c == 0 {
        return Ok(Some(Next { at: i + 1, over }));
    }
    if c == 255 {
        return Ok(None);
    }
    let place = message::base(field) + i;
    let j = i + 2;
    if f.len() < j {
        return Err(Rule::OptionTruncated.at(place));
    }
    let e = j + num::wide(f[i + 1]);
    if f.len() < e {
        return Err(Rule::OptionTruncated.at(place));
    }
    if let Err(rule) = message::over_stop(is_options(field), over, c, &f[j..e]) {
        return Err(rule.at(place));
    }
    let k = num::wide(c);
    index[k] = entry_after(index[k], c, place as u16);
    let over = message::over_after(over, c, &f[j..e]);
    Ok(Some(Next { at: e, over }))
}

// Walks one field and puts its options into the index. Gives the value of option 52 (0: not met).
fn walk(index: &mut [u16; 256], field: Field, f: &[u8]) -> Result<u32, Refusal>
    requires { (length f.now ≤ 65000) × Marked index.old }
    ensures { Walks (field_of field) f.now index.old result index.new }
{
    let base = message::base(field);
    let mut over: u32 = 0;
    let mut i: usize = 0;
    // A `while`: how far a step goes is read from the bytes.
    while i < f.len() {
        if let Some(e) = first_end(index, f, i) {
            index[num::wide(f[i])] = (base + i) as u16;
            i = e;
        } else {
            match look(index, field, f, i, over)? {
                Some(next) => {
                    over = next.over;
                    i = next.at;
                }
                None => return Ok(over),
            }
        }
    }
    Err(Rule::NoEnd.at(base + f.len()))
}

// A further field, where it is active by the value of option 52.
fn walk_if(index: &mut [u16; 256], over: u32, field: Field, m: &[u8]) -> Result<(), Refusal>
    requires { (length m.now ≤ 1472) × Marked index.old }
    ensures { Marked index.new × Enters index.old (cond (active_in over (field_of field)) (reading (field_of field) (bytes (field_of field) m.now) 0 0) (accepted [])) result index.new }
{
    if !message::active(over, field) {
        return Ok(());
    }
    walk(index, field, message::field_bytes(m, field))?;
    Ok(())
}

// The fields of a message one after another.
fn fill(index: &mut [u16; 256], m: &[u8]) -> Result<(), Refusal>
    requires { (length m.now ≤ 1472) × Marked index.old }
    ensures { Enters index.old (all_fields m.now) result index.new }
{
    let over = walk(
        index,
        Field::Options,
        message::field_bytes(m, Field::Options),
    )?;
    walk_if(index, over, Field::File, m)?;
    walk_if(index, over, Field::Sname, m)
}

// The entry of option 52, without its mark.
fn entry_52(entry: u16) -> u16
    ensures { result ≡ unmarked entry }
{
    if entry == 65535 { 0 } else { entry }
}

// Puts the options of a message that fits into an index of zeros. A refusal leaves it with what was put in before.
fn enter(index: &mut [u16; 256], m: &[u8]) -> Result<(), Refusal>
    requires { (unfit_of m.now ≡ 0) × (index.old ≡ replicate 256 0) }
    ensures { Indexes (all_fields m.now) result index.new }
{
    index[0] = 65535;
    index[52] = 65535;
    index[255] = 65535;
    fill(index, m)?;
    let over = entry_52(index[52]);
    index[0] = 0;
    index[52] = over;
    index[255] = 0;
    Ok(())
}

// Builds the index of a message: the message is walked once.
pub fn build(m: &[u8], index: &mut [u16]) -> Result<usize, Refusal>
    ensures { Fills (asked.build m.now index.old) result index.new }
{
    message::fit(m)?;
    let count = index.len();
    if count != 256 {
        return Err(Rule::BadIndexCount.at(count));
    }
    // A refusal changes no number of the caller's, so the walk fills numbers of its own.
    let mut entries = [0u16; 256];
    enter(&mut entries, m)?;
    index.copy_from_slice(&entries);
    Ok(512)
}

// Builds the index of a message in numbers that are of no further use to the caller: the walk fills them themselves, and a refusal leaves zeros.
pub fn build_anew(m: &[u8], index: &mut [u16; 256]) -> Result<usize, Refusal>
    ensures { Fills (asked.build m.now (replicate 256 0)) result index.new }
{
    *index = [0u16; 256];
    message::fit(m)?;
    if let Err(refusal) = enter(index, m) {
        *index = [0u16; 256];
        return Err(refusal);
    }
    Ok(512)
}

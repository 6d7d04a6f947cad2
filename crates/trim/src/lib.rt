// Where the options field of a message has its END, so that a sender can cut off what follows (docs/RULES.md, Q19).
#![tactic(auto)]

ghost use Rattle.std.specs.Prelude.{◌≡◌, cond, [], ◌≤◌, ◌<◌, length};
ghost use Rattle.options.specs.Message.{bytes};
ghost use Rattle.options.specs.Reading.{accepted, is_options_value};
ghost use Rattle.options.specs.Trim.{options_end_value};
ghost use Rattle.options.specs.TrimClaims.{OptionsEndIsRight, OneEndPlace, BehindEndIsNotRead, CutReadsTheSame};
ghost use Rattle.message.specs.Fields.{field_of};
ghost use Rattle.message.specs.Active.{active_in};
ghost use Rattle.index.specs.Filling.{reading};
ghost use Rattle.trim.specs.Ending.{LooksAt, Walks, Judges};
ghost use Rattle.trim.specs.Plain.{ended_by, plain_end, EndGivenByCase, EndByCase, EndKept};

use message::Field;
use refusal::{Refusal, Rule};

// refusal: 0 where the message is accepted, and place is that of its END; else the number of the refusal, and its place.
#[repr(C)]
#[derive(Clone, Copy)]
pub struct PlainEnd {
    pub refusal: u32,
    pub place: usize,
}

impl From<Result<usize, Refusal>> for PlainEnd {
    ghost from_gives = { λ e p. p ≡ plain_end (ended_by e) };

    fn from(end: Result<usize, Refusal>) -> PlainEnd {
        match end {
            Ok(place) => PlainEnd { refusal: 0, place },
            Err(Refusal { rule, place }) => PlainEnd {
                refusal: rule.number(),
                place,
            },
        }
    }
}

// Where the walk of a field goes on, or its END; and the value of option 52 there (0: not met).
#[derive(Clone, Copy)]
struct Next {
    at: usize,
    over: u32,
}

fn is_options(field: Field) -> bool
    ensures { result ≡ is_options_value (field_of field) }
{
    matches!(field, Field::Options)
}

// What stands at i: where the walk goes on, or none at END.
fn look(field: Field, f: &[u8], i: usize, over: u32) -> Result<Option<Next>, Refusal>
    requires { (i < length f.now) × (length f.now ≤ 65000) }
    ensures { LooksAt (field_of field) f.now i over result }
{
    let c = f[i];
    if c == 0 {
        return Ok(Some(Next { at: i + 1, over }));
    }
    if c == 255 {
        return Ok(None);
    }
    let place = message::base(field) + i;
    let j = i + 2;
    if f.len() < j {
        return Err(Rule::OptionTruncated.at(place));
    }
    let e = j + num::wide(f[i + 1]);
    if f.len() < e {
        return Err(Rule::OptionTruncated.at(place));
    }
    if let Err(rule) = message::over_stop(is_options(field), over, c, &f[j..e]) {
        return Err(rule.at(place));
    }
    let over = message::over_after(over, c, &f[j..e]);
    Ok(Some(Next { at: e, over }))
}

// Walks one field to its END.
fn walk(field: Field, f: &[u8]) -> Result<Next, Refusal>
    requires { length f.now ≤ 65000 }
    ensures { Walks (field_of field) f.now 0 0 result }
{
    let mut over: u32 = 0;
    let mut i: usize = 0;
    // A `while`: how far a step goes is read from the bytes.
    while i < f.len() {
        match look(field, f, i, over)? {
            Some(next) => {
                over = next.over;
                i = next.at;
            }
            None => return Ok(Next { at: i, over }),
        }
    }
    Err(Rule::NoEnd.at(message::base(field) + f.len()))
}

// A further field, where it is active by the value of option 52.
fn walk_if(over: u32, field: Field, m: &[u8]) -> Result<(), Refusal>
    requires { length m.now ≤ 1472 }
    ensures { Judges (cond (active_in over (field_of field)) (reading (field_of field) (bytes (field_of field) m.now) 0 0) (accepted [])) result }
{
    if !message::active(over, field) {
        return Ok(());
    }
    walk(field, message::field_bytes(m, field))?;
    Ok(())
}

// The place of END in the options field of an accepted message: the message is walked once.
pub fn options_end(m: &[u8]) -> Result<usize, Refusal>
    ensures { ended_by result ≡ options_end_value m.now }
{
    message::fit(m)?;
    let end = walk(Field::Options, message::field_bytes(m, Field::Options))?;
    walk_if(end.over, Field::File, m)?;
    walk_if(end.over, Field::Sname, m)?;
    Ok(240 + end.at)
}

// What is proved of the definition.
pub fn proved()
    ensures { OptionsEndIsRight × OneEndPlace × BehindEndIsNotRead × CutReadsTheSame × EndGivenByCase × EndByCase × EndKept }
{}

// The options of an accepted message one after another, over all its active fields in reading order (document 01, The message and its fields).
#![tactic(auto)]

ghost use Rattle.std.specs.Prelude.{◌≡◌, length};
ghost use Rattle.std.specs.Iterator.{at_most};
ghost use Rattle.message.specs.Fields.{field_of};
ghost use Rattle.message.specs.Active.{field_from, later_fields};
ghost use Rattle.cursor.specs.Cursor.{first_position, left, step_of, Step, StepsGiveTheOptions};

use message::Field;

// Where reading goes on: an offset in a field, the fields after it being still to read.
#[derive(Clone, Copy, Debug, PartialEq, Eq)]
pub struct Position {
    pub field: Field,
    pub offset: usize,
}

// An option of a message: its field, the offset of its code byte there, its code and the length of its data.
#[derive(Clone, Copy, Debug, PartialEq, Eq)]
pub struct Item {
    pub field: Field,
    pub offset: usize,
    pub code: u8,
    pub len: usize,
}

// The next option of one field.
fn in_field(m: &[u8], over: u32, field: Field, from: usize) -> Option<Item>
    ensures { result ≡ step_of (field_from over m.now (field_of field) from) }
{
    if !message::active(over, field) {
        return None;
    }
    wire::next_option(message::field_bytes(m, field), from).map(|found| Item {
        field,
        offset: found.offset,
        code: found.code,
        len: found.len,
    })
}

// The first option of the fields that are read after a field.
fn after_field(m: &[u8], over: u32, field: Field) -> Option<Item>
    ensures { result ≡ step_of (later_fields over m.now (field_of field)) }
{
    match field {
        Field::Options => {
            in_field(m, over, Field::File, 0).or_else(|| in_field(m, over, Field::Sname, 0))
        }
        Field::File => in_field(m, over, Field::Sname, 0),
        Field::Sname => None,
    }
}

// The first position of a message.
pub fn first() -> Position
    ensures { result ≡ first_position }
{
    Position {
        field: Field::Options,
        offset: 0,
    }
}

// The next option from a position on, in a message whose option 52 has the value `over` (0: it has none). The position after it is `offset + 2 + len` of
// the same field.
pub fn next_option(m: &[u8], over: u32, from: Position) -> Option<Item>
    ensures { result ≡ step_of (left over m.now from) }
{
    in_field(m, over, from.field, from.offset).or_else(|| after_field(m, over, from.field))
}

// The options of a message from a position on, in reading order; `over` is the value of its option 52 (0: it has none).
#[derive(Clone, Copy, Drop)]
pub struct Options<'a> {
    pub m: &'a [u8],
    pub over: u32,
    pub at: Position,
}

impl<'a> Iterator for Options<'a> {
    type Item = Item;

    ghost next_gives = { Step };

    ghost remaining = { λ s. at_most (length (left s.over s.m.now s.at)) };

    fn next(&mut self) -> Option<Item> {
        let item = next_option(self.m, self.over, self.at)?;
        self.at = Position {
            field: item.field,
            offset: item.offset + 2 + item.len,
        };
        Some(item)
    }
}

// The statements of specs/ hold.
pub fn proved()
    ensures { StepsGiveTheOptions }
{}

// The room left in a field: one option is written at its start, or END and zeros.
#![tactic(auto)]

ghost use Rattle.std.specs.Prelude.{◌≡◌, length};
ghost use Rattle.field_writer.specs.Room.{with_option, end_and_zeros};

// Writes an option at the start of the room, where it fits and its length goes into one byte; else nothing.
pub fn put_option(room: &mut [u8], code: u8, body: &[u8])
    ensures { room.new ≡ with_option room.old code body.now }
{
    let n = body.len();
    if 255 < n {
        return;
    }
    buffer::put(room, &[code, n as u8], body);
}

// Writes END at the start of the room, and zeros after it.
pub fn close(room: &mut [u8])
    ensures { room.new ≡ end_and_zeros (length room.old) }
{
    if let Some((end, rest)) = room.split_first_mut() {
        *end = 255;
        rest.fill(0);
    }
}

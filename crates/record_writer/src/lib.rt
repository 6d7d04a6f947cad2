// A record written into a lent buffer (document 01, The settings sheet and the writer).
#![tactic(auto)]

ghost use Rattle.std.specs.Prelude.{◌≡◌};
ghost use Rattle.record_writer.specs.Room.{with_record};

// Writes a record at the start of the room, where it fits and its length goes into two bytes; else nothing.
pub fn put_record(room: &mut [u8], tag: u8, body: &[u8])
    ensures { room.new ≡ with_record room.old tag body.now }
{
    let n = body.len();
    if 65535 < n {
        return;
    }
    buffer::put(room, &[tag, (n / 256) as u8, (n % 256) as u8], body);
}

// The pieces of a code, end to end (document 02, request 02).
#![tactic(auto)]

ghost use Rattle.text.specs.Text.{Puts};
ghost use Rattle.gather.specs.Joined.{joined_from};

use cursor::{Options, Position};

// Puts the data of the options with a code into the buffer, as much as there is room for, from `at` on, and gives the index after it: those from a position on,
// in a message whose option 52 has the value `over` (0: it has none). Never put into a caller: with a buffer of the caller's own the compiler would copy by memcpy,
// which the archive of captures does without.
#[inline(never)]
pub fn gather(m: &[u8], over: u32, begin: Position, code: u8, out: &mut [u8], at: usize) -> usize
    ensures { Puts out.old at (joined_from over m.now begin code) result out.new }
{
    let mut o = at;
    let options = Options { m, over, at: begin };
    for item in options {
        if code == item.code {
            let start = message::base(item.field) + item.offset + 2;
            o = text::put_word(out, o, message::part(m, start, item.len));
        }
    }
    o
}

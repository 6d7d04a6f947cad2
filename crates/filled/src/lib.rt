// What a call gives that fills a lent buffer (document 02, request 02: "it answers how many bytes it gave").
#![tactic(auto)]

ghost use Rattle.std.specs.Prelude.{◌≡◌};
ghost use Rattle.options.specs.Answers.{filled_with};
ghost use Rattle.filled.specs.Fill.{given_of, Fills, FillsByCase};
ghost use Rattle.filled.specs.Plain.{plain_filled, FilledByCase};

use refusal::{Refusal, Rule};

// What is given, for C. refusal: 0 where size bytes were given; else its number, with its place, and the buffer is as it was.
#[repr(C)]
#[derive(Clone, Copy)]
pub struct PlainFilled {
    pub refusal: u32,
    pub size: usize,
    pub place: usize,
}

// Each case of the answer, in the code and for C, has the numbers that the rules give it.
pub fn proved()
    ensures { FillsByCase × FilledByCase }
{}

impl From<Result<usize, Refusal>> for PlainFilled {
    ghost from_gives = { λ g p. p ≡ plain_filled (given_of g) };

    fn from(given: Result<usize, Refusal>) -> PlainFilled {
        match given {
            Ok(size) => PlainFilled {
                refusal: 0,
                size,
                place: 0,
            },
            Err(Refusal { rule, place }) => PlainFilled {
                refusal: rule.number(),
                size: 0,
                place,
            },
        }
    }
}

// Copies xs to the front of a lent buffer where it has room, and gives their number; else a refusal, and no byte.
pub fn give(xs: &[u8], out: &mut [u8]) -> Result<usize, Refusal>
    ensures { Fills (filled_with xs.now out.old) result out.new }
{
    let room = out.len();
    if room < xs.len() {
        return Err(Rule::NoRoom.at(room));
    }
    buffer::copy(out, xs);
    Ok(xs.len())
}

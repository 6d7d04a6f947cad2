// The codes present in a message (document 01, What is asked of a message: the roll call).
#![tactic(auto)]

ghost use Rattle.std.specs.Prelude.{◌≡◌};
ghost use Rattle.options.specs.Answers.{present};
ghost use Rattle.present.specs.Marked.{codes_of, shown_by, CodesByCase, ShownByCase, RefusedByANumber};

use refusal::Refusal;

// The set of the codes present, 52 included, how many they are, and the lowest of them (0 if none).
#[derive(Clone, Copy, Debug, PartialEq, Eq)]
pub struct Codes {
    pub words: [u64; 4],
    pub count: u32,
    pub lowest: u32,
}

// Each case of the answer has the numbers that the rules give it, and none of a refusal is 0.
pub fn proved()
    ensures { CodesByCase × ShownByCase × RefusedByANumber }
{}

// One walk over the message; the codes are counted per word, and the lowest is the first bit set.
pub fn present(m: &[u8]) -> Result<Codes, Refusal>
    ensures { shown_by result ≡ codes_of (present m.now) }
{
    let mut words = [0; 4];
    message::codes(m, &mut words)?;
    Ok(Codes {
        words,
        count: codeset::count(words),
        lowest: codeset::lowest(words),
    })
}

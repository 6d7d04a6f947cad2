// Text put into a lent buffer: words, bytes and numbers in decimal.
#![tactic(auto)]

ghost use Rattle.std.specs.Prelude.{[], ◌∷◌};
ghost use Rattle.options.specs.Answers.{decimal};
ghost use Rattle.text.specs.Text.{Puts};

// Each of these writes as much of its text as there is room for, from `at` on, and gives the index after it.

pub fn put_byte(out: &mut [u8], at: usize, x: u8) -> usize
    ensures { Puts out.old at (x ∷ []) result out.new }
{
    if out.len() <= at {
        return at;
    }
    out[at] = x;
    at + 1
}

pub fn put_word(out: &mut [u8], at: usize, word: &[u8]) -> usize
    ensures { Puts out.old at word.now result out.new }
{
    if out.len() <= at {
        return at;
    }
    let n = word.len().min(out.len() - at);
    buffer::copy(&mut out[at..], &word[..n]);
    at + n
}

// A number in decimal: the digits before the last one, then that one.
pub fn put_decimal(out: &mut [u8], at: usize, n: usize) -> usize
    ensures { Puts out.old at (decimal n) result out.new }
{
    if n < 10 {
        return put_byte(out, at, b'0' + n as u8);
    }
    let last = put_decimal(out, at, n / 10);
    put_byte(out, last, b'0' + (n % 10) as u8)
}

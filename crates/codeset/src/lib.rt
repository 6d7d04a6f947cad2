// A set of option codes as four words: code c stands at bit c mod 64 of word c div 64 (document 01, What is asked of a message).
#![tactic(auto)]

ghost use Rattle.std.specs.Prelude.{◌≡◌, ◌/◌, ◌<◌, not, length, get_or};
ghost use Rattle.options.specs.CodeSet.{marked, with_mark, count_of, lowest_of};

// The word of a code.
pub fn word(c: u8) -> usize
    ensures { (result ≡ c / 64) × (result < 4) }
{
    usize::from(c / 64)
}

// Whether a code is in the set.
pub fn has(w: &[u64; 4], c: u8) -> bool
    ensures { result ≡ marked w.now c }
{
    let x = w[word(c)];
    (x >> (c % 64)) % 2 == 1
}

// Puts a code into the set, and says whether it was not there before.
pub fn insert(w: &mut [u64; 4], c: u8) -> bool
    ensures new { w.new ≡ with_mark w.old c }
    ensures first { result ≡ not (marked w.old c) }
{
    let k = word(c);
    let old = w[k];
    let new = old | (1u64 << (c % 64));
    w[k] = new;
    new != old
}

// The word that holds a code. It is chosen by tests and not by an index, so that a set passed by value stays out of memory.
fn holding(w: [u64; 4], c: u8) -> u64
    ensures { result ≡ get_or w (c / 64) 0 }
{
    match c {
        ..=63 => w[0],
        64..=127 => w[1],
        128..=191 => w[2],
        _ => w[3],
    }
}

// Whether a code is in the set.
pub fn contains(w: [u64; 4], c: u8) -> bool
    ensures { result ≡ marked w c }
{
    let x = holding(w, c);
    (x >> (c % 64)) % 2 == 1
}

// Puts a code into the set. Where it is there already nothing is stored, so that a test which follows need not wait for the store.
pub fn mark(w: &mut [u64; 4], c: u8)
    ensures { (w.new ≡ with_mark w.old c) × (length w.old ≡ 4) }
{
    if !has(w, c) {
        insert(w, c);
    }
}

// How many codes are in the set.
pub fn count(w: [u64; 4]) -> u32
    ensures { result ≡ count_of w }
{
    let [a, b, c, d] = w;
    a.count_ones() + b.count_ones() + c.count_ones() + d.count_ones()
}

// The lowest code in the set, or 0 if there is none.
pub fn lowest(w: [u64; 4]) -> u32
    ensures { result ≡ lowest_of w 0 }
{
    for (k, x) in w.iter().enumerate() {
        if *x != 0 {
            return k as u32 * 64 + x.trailing_zeros();
        }
    }
    0
}

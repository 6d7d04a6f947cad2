// The report of captures as text (document 02, request 11).
#![tactic(auto)]

ghost use Rattle.std.specs.Prelude.{◌≡◌, cond, [], ◌≤◌, eqb, length, drop};
ghost use Rattle.options.specs.Captures.{refusals_lines, code_line, code_lines, lease_line};
ghost use Rattle.tally.specs.Noted.{lease_of};
ghost use Rattle.text.specs.Text.{Puts};
ghost use Rattle.report.specs.Printed.{line_text, is_open_value, last_text, Reports, FileIsReported};

use captures::Progress;
use refusal::Rule;
use tally::Lease;

// Each of these puts a text into the buffer from `at` on, and gives the index after it.

// A word and numbers: `messages 4`, `refusals 5 1`, `code 51 2 8`.
fn put_line(out: &mut [u8], at: usize, word: &[u8], first: usize, others: &[usize]) -> usize
    ensures { Puts out.old at (line_text word.now first others.now) result out.new }
{
    let a = text::put_word(out, at, word);
    let mut o = text::put_decimal(out, a, first);
    for n in others {
        let b = text::put_byte(out, o, b' ');
        o = text::put_decimal(out, b, *n);
    }
    text::put_byte(out, o, b'\n')
}

// The line of a code, if it is held.
fn put_held(out: &mut [u8], at: usize, code: usize, n: u64, size: u64) -> usize
    ensures { Puts out.old at (cond (eqb n 0) [] (code_line code n size)) result out.new }
{
    if n == 0 {
        return at;
    }
    put_line(out, at, b"code ", code, &[n as usize, size as usize])
}

// `refusals 1 0` to `refusals 7 0`. What stands before them is the number of accepted messages.
fn put_refusals(out: &mut [u8], at: usize, verdicts: &[u64; 8]) -> usize
    ensures { Puts out.old at (refusals_lines 1 (drop 1 verdicts.now)) result out.new }
{
    let mut o = at;
    for number in 1..verdicts.len() {
        o = put_line(out, o, b"refusals ", number, &[verdicts[number] as usize]);
    }
    o
}

// The lines of the codes that are held.
fn put_codes(out: &mut [u8], at: usize, held: &[u64; 256], bytes: &[u64; 256]) -> usize
    ensures { Puts out.old at (code_lines 0 held.now bytes.now) result out.new }
{
    let mut o = at;
    for (code, n) in held.iter().enumerate() {
        o = put_held(out, o, code, *n, bytes[code]);
    }
    o
}

fn put_lease(out: &mut [u8], at: usize, lease: Option<Lease>) -> usize
    ensures { Puts out.old at (lease_line (lease_of lease)) result out.new }
{
    match lease {
        Some(l) => put_line(
            out,
            at,
            b"lease ",
            l.smallest as usize,
            &[l.largest as usize],
        ),
        None => text::put_word(out, at, b"lease none\n"),
    }
}

fn is_open(p: Progress) -> bool
    ensures { result ≡ is_open_value p }
{
    p.stage != 0 || p.read < p.size
}

// The refusal of the file, where a record is not whole or was refused.
fn put_last(out: &mut [u8], at: usize, p: Progress) -> usize
    ensures { Puts out.old at (last_text p) result out.new }
{
    if !is_open(p) {
        return at;
    }
    put_line(
        out,
        at,
        b"refused ",
        Rule::BadCapture.number() as usize,
        &[p.began as usize],
    )
}

// Writes the report of what was read at the front of a buffer, and gives its length. No report is longer than the buffer, whatever the numbers are. They are not one
// struct, as tally::Tally is: C lends them each by itself, and to be read alone.
pub fn report(
    p: Progress,
    verdicts: &[u64; 8],
    held: &[u64; 256],
    bytes: &[u64; 256],
    out: &mut [u8; 16384],
) -> usize
    ensures size { result ≤ length out.new }
    ensures text { Reports p verdicts.now held.now bytes.now out.old result out.new }
{
    let a = put_line(out, 0, b"messages ", p.messages as usize, &[]);
    let b = put_line(out, a, b"accepted ", verdicts[0] as usize, &[]);
    let c = put_refusals(out, b, verdicts);
    let d = put_codes(out, c, held, bytes);
    let e = put_lease(out, d, p.lease);
    put_last(out, e, p)
}

// What the contract rests on holds.
pub fn proved()
    ensures { FileIsReported }
{}

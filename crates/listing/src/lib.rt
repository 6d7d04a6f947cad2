// The listing of a message as text (document 01, Bench table: the listing program).
#![tactic(auto)]

ghost use Rattle.std.specs.Prelude.{◌≡◌, ◌++◌, length, drop};
ghost use Rattle.options.specs.Answers.{field_name, accepted_line, refused_line, lines_of, listing};
ghost use Rattle.message.specs.Fields.{field_of};
ghost use Rattle.message.specs.Active.{active_options};
ghost use Rattle.refusal.specs.Refused.{number_of};
ghost use Rattle.text.specs.Text.{Puts};
ghost use Rattle.listing.specs.Line.{line_text};

use cursor::Options;
use message::Field;
use refusal::Refusal;

// Each of these puts a text into the buffer from `at` on, or from its first byte on, and gives the index after it. Each step takes the index that the one before gave:
// a writer that holds both would only hand them on to the functions of `text`.

// The name of a field (document 02, request 01).
fn put_name(out: &mut [u8], at: usize, field: Field) -> usize
    ensures { Puts out.old at (field_name (field_of field)) result out.new }
{
    match field {
        Field::Options => text::put_word(out, at, b"options"),
        Field::File => text::put_word(out, at, b"file"),
        Field::Sname => text::put_word(out, at, b"sname"),
    }
}

// The line of an option: its code, the place where its data start, their length, and the name of its field.
fn put_line(out: &mut [u8], at: usize, code: u8, start: usize, len: usize, field: Field) -> usize
    ensures { Puts out.old at (line_text code start len (field_of field)) result out.new }
{
    let a = text::put_decimal(out, at, code as usize);
    let b = text::put_byte(out, a, b' ');
    let c = text::put_decimal(out, b, start);
    let d = text::put_byte(out, c, b' ');
    let e = text::put_decimal(out, d, len);
    let f = text::put_byte(out, e, b' ');
    let g = put_name(out, f, field);
    text::put_byte(out, g, b'\n')
}

// The lines of a message's options; `over` is the value of option 52.
fn put_lines(m: &[u8], over: u32, out: &mut [u8], at: usize) -> usize
    ensures { Puts out.old at (lines_of (active_options over m.now)) result out.new }
{
    let mut o = at;
    let options = Options {
        m,
        over,
        at: cursor::first(),
    };
    for item in options {
        let start = message::base(item.field) + item.offset + 2;
        o = put_line(out, o, item.code, start, item.len, item.field);
    }
    o
}

// The first line: how many options there are.
fn put_count(n: usize, out: &mut [u8]) -> usize
    ensures { Puts out.old 0 (accepted_line n) result out.new }
{
    let a = text::put_word(out, 0, b"accepted ");
    let b = text::put_decimal(out, a, n);
    text::put_byte(out, b, b'\n')
}

// The one line of a refusal.
fn put_refusal(refusal: Refusal, out: &mut [u8]) -> usize
    ensures { Puts out.old 0 (refused_line (number_of refusal.rule) refusal.place) result out.new }
{
    let a = text::put_word(out, 0, b"refused ");
    let b = text::put_decimal(out, a, refusal.rule.number() as usize);
    let c = text::put_byte(out, b, b' ');
    let d = text::put_decimal(out, c, refusal.place);
    text::put_byte(out, d, b'\n')
}

// Writes the listing of a message at the front of a buffer, and gives its length (document 01, Bench table: "the number of options walked,
// then code, data start and length of each", or the refusal; document 02, request 01: "the field's name"). No listing is longer than the buffer.
pub fn list(m: &[u8], out: &mut [u8; 16384]) -> usize
    ensures size { result ≡ length (listing m.now) }
    ensures text { out.new ≡ listing m.now ++ drop (length (listing m.now)) out.old }
{
    let mut seen = [0; 4];
    match message::codes(m, &mut seen) {
        Ok(w) => {
            let a = put_count(w.count, out);
            put_lines(m, w.over, out, a)
        }
        Err(refusal) => put_refusal(refusal, out),
    }
}

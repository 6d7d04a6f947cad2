// Inside an option: the items of vendor information, option 43 (document 02, request 05; RFC 2132, 8.4), and the sub-options of relay information,
// option 82 (request 09; RFC 3046), written from records.
#![tactic(auto)]

ghost use Rattle.std.specs.Prelude.{◌≡◌, ◌≤◌, length, ltb};
ghost use Rattle.options.specs.Reading.{either};
ghost use Rattle.options.specs.SheetWalk.{records_left, Whole};
ghost use Rattle.options.specs.Writing.{option_bytes};
ghost use Rattle.options.specs.Vendor.{longest_vendor, vendor_write_value};
ghost use Rattle.options.specs.Relay.{relay_write_value};
ghost use Rattle.buffer.specs.Written.{Written};
ghost use Rattle.refusal.specs.Refused.{rule_in};
ghost use Rattle.filled.specs.Fill.{Fills};
ghost use Rattle.item_writer.specs.Judge.{sheet_of, wrong_tag_of, broken_rule_value, judge_of, judged_by, write_value, AllBrief, JudgedByCase};

use refusal::{Refusal, Rule};
use sheet::Step;

// Whether a tag may not stand: 0 and 255, where they are pad and END, as in vendor information (MARKED).
fn wrong_tag<const MARKED: bool>(tag: u8) -> bool
    ensures { result ≡ wrong_tag_of MARKED tag }
{
    MARKED && (tag == 0 || tag == 255)
}

// Judges a whole record: the first rule that it breaks.
fn judge_record<const MARKED: bool>(tag: u8, size: usize) -> Result<(), Rule>
    ensures { rule_in result ≡ broken_rule_value MARKED tag size }
{
    if wrong_tag::<MARKED>(tag) {
        return Err(Rule::BadCode);
    }
    if 255 < size {
        return Err(Rule::RecordTooLong);
    }
    Ok(())
}

// Judges the records in one walk: the first that is faulty, or the bytes that the items take.
fn judge<const MARKED: bool>(s: &[u8]) -> Result<usize, Refusal>
    ensures { judged_by result ≡ judge_of (sheet_of MARKED s.now) }
{
    let mut total = 0;
    let mut at = 0;
    // No iterator: how far a step goes is read from the bytes.
    loop {
        match sheet::next_record(s, at) {
            Step::End => return Ok(total),
            Step::Cut => return Err(Rule::RecordTruncated.at(at)),
            Step::Record { tag, size } => {
                if let Err(rule) = judge_record::<MARKED>(tag, size) {
                    return Err(rule.at(at));
                }
                total = total + 2 + size;
                at = at + 3 + size;
            }
        }
    }
}

// Lays the items of the records of s over out from its start on, and gives the place after them. The records are judged: each is whole, and its length is
// its second length byte. So it walks by that byte alone: `sheet::next_record` would test each head again.
fn put_items(s: &[u8], out: &mut [u8]) -> usize
    requires { (length (option_bytes (records_left s.now 0)) ≤ length out.old) × AllBrief (records_left s.now 0) × Whole s.now 0 }
    ensures { Written out.old 0 (option_bytes (records_left s.now 0)) result out.new }
{
    let mut o = 0;
    let mut at = 0;
    while at < s.len() {
        let size = num::wide(s[at + 2]);
        let start = at + 3;
        let end = start + size;
        let next = o + 2 + size;
        field_writer::put_option(&mut out[o..next], s[at], &s[start..end]);
        at = end;
        o = next;
    }
    o
}

// Whether the items exceed the n bytes of the output, or what an option can hold in one piece.
fn too_small(n: usize, total: usize) -> bool
    ensures { result ≡ either (ltb longest_vendor total) (ltb n total) }
{
    255 < total || n < total
}

// The items of the records of s, in the buffer out: one walk that judges and measures, then one that writes. A refusal changes no byte.
fn write<const MARKED: bool>(s: &[u8], out: &mut [u8]) -> Result<usize, Refusal>
    ensures { Fills (write_value MARKED s.now out.old) result out.new }
{
    if 4096 < s.len() {
        return Err(Rule::SheetTooLong.at(s.len()));
    }
    let total = judge::<MARKED>(s)?;
    let room = out.len();
    if too_small(room, total) {
        return Err(Rule::NoRoom.at(room));
    }
    Ok(put_items(s, out))
}

// What an option 43 is to hold.
pub fn vendor_write(s: &[u8], out: &mut [u8]) -> Result<usize, Refusal>
    ensures { Fills (vendor_write_value s.now out.old) result out.new }
{
    write::<true>(s, out)
}

// What an option 82 is to hold: at least one sub-option.
pub fn relay_write(s: &[u8], out: &mut [u8]) -> Result<usize, Refusal>
    ensures { Fills (relay_write_value s.now out.old) result out.new }
{
    if s.is_empty() {
        return Err(Rule::BadLength.at(0));
    }
    write::<false>(s, out)
}

// The statement of specs/ holds.
pub fn proved()
    ensures { JudgedByCase }
{}

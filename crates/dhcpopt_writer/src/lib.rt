// The writer and the calls on grouped sheets for C (document 01: "calls these on plain numbers and byte slices"): a library of its own, so that who only reads links no byte of it.
#![tactic(auto)]

ghost use Rattle.std.specs.Prelude.{◌≡◌};
ghost use Rattle.options.specs.Kinds.{kinds};
ghost use Rattle.options.specs.Writing as options;
ghost use Rattle.options.specs.Vendor.{vendor_write_value};
ghost use Rattle.options.specs.Relay.{relay_write_value};
ghost use Rattle.options.specs.Grouped as grouped;
ghost use Rattle.groups.specs.Check.{plain_checked};
ghost use Rattle.filled.specs.Plain.{plain_filled};
ghost use Rattle.plan.specs.Answer.{chosen_by};
ghost use Rattle.dhcpopt_writer.specs.Plain.{plain_wrote, plain_of, WroteByCase, VendorKept, RelayKept};
ghost use Rattle.dhcpopt_writer.specs.Grouped.{ChoiceKept, MoveKept, BackKept};

use filled::PlainFilled;
use groups::PlainChecked;
use plan::Choice;
use refusal::Refusal;

// refusal: 0 where the sheet was written, and plan is the plan used; else its number, with its place, and the buffer is as it was.
#[repr(C)]
#[derive(Clone, Copy)]
pub struct PlainWrote {
    pub refusal: u32,
    pub plan: u32,
    pub place: usize,
}

// The struct has the numbers that the rules give each case; no refusal of a call that fills a buffer has number 0, and none changes a byte.
pub fn proved()
    ensures { WroteByCase × VendorKept × RelayKept × ChoiceKept × MoveKept × BackKept }
{}

impl From<Result<Choice, Refusal>> for PlainWrote {
    ghost from_gives = { λ c p. p ≡ plain_of (chosen_by c) };

    fn from(wrote: Result<Choice, Refusal>) -> PlainWrote {
        match wrote {
            Ok(choice) => PlainWrote {
                refusal: 0,
                plan: u32::from(choice.plan),
                place: 0,
            },
            Err(Refusal { rule, place }) => PlainWrote {
                refusal: rule.number(),
                plan: 0,
                place,
            },
        }
    }
}

// Writes a settings sheet into a message buffer whose header is there.
#[unsafe(no_mangle)]
pub extern "C" fn dhcpopt_write(s: &[u8], m: &mut [u8], permission: u8) -> PlainWrote
    ensures { (result ≡ plain_wrote (options.writer kinds s.now m.old permission)) × (m.new ≡ options.buffer_after m.old (options.writer kinds s.now m.old permission)) }
{
    PlainWrote::from(writer::write(s, m, permission))
}

// The items of the records of a sheet, in the buffer out: what an option 43 is to hold.
#[unsafe(no_mangle)]
pub extern "C" fn dhcpopt_vendor_write(s: &[u8], out: &mut [u8]) -> PlainFilled
    ensures { (result ≡ plain_filled (vendor_write_value s.now out.old).answer) × (out.new ≡ (vendor_write_value s.now out.old).buffer) }
{
    PlainFilled::from(item_writer::vendor_write(s, out))
}

// The sub-options of the records of a sheet, in the buffer out: what an option 82 is to hold (document 02, request 09).
#[unsafe(no_mangle)]
pub extern "C" fn dhcpopt_relay_write(s: &[u8], out: &mut [u8]) -> PlainFilled
    ensures { (result ≡ plain_filled (relay_write_value s.now out.old).answer) × (out.new ≡ (relay_write_value s.now out.old).buffer) }
{
    PlainFilled::from(item_writer::relay_write(s, out))
}

// Checks a grouped file (document 02, request 08).
#[unsafe(no_mangle)]
pub extern "C" fn dhcpopt_check_grouped(f: &[u8]) -> PlainChecked
    ensures { result ≡ plain_checked (grouped.check f.now) }
{
    PlainChecked::from(groups::check(f))
}

// Chooses from a grouped file for a class: the records of the groups reached, at the front of the sheet out.
#[unsafe(no_mangle)]
pub extern "C" fn dhcpopt_choose(f: &[u8], class: &[u8], out: &mut [u8]) -> PlainFilled
    ensures { (result ≡ plain_filled (grouped.choice f.now class.now out.old).answer) × (out.new ≡ (grouped.choice f.now class.now out.old).buffer) }
{
    PlainFilled::from(choice::choose(f, class, out))
}

// Moves an old sheet into a nameless outermost group, at the front of the buffer out.
#[unsafe(no_mangle)]
pub extern "C" fn dhcpopt_group(s: &[u8], out: &mut [u8]) -> PlainFilled
    ensures { (result ≡ plain_filled (grouped.move s.now out.old).answer) × (out.new ≡ (grouped.move s.now out.old).buffer) }
{
    PlainFilled::from(regroup::group(s, out))
}

// Takes the sheet back out of a grouped file, at the front of the sheet out.
#[unsafe(no_mangle)]
pub extern "C" fn dhcpopt_ungroup(f: &[u8], out: &mut [u8]) -> PlainFilled
    ensures { (result ≡ plain_filled (grouped.go_back f.now out.old).answer) × (out.new ≡ (grouped.go_back f.now out.old).buffer) }
{
    PlainFilled::from(regroup::ungroup(f, out))
}

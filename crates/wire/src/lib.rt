// The options of one field of a message, one after another (document 01, The message and its fields). All offsets are in the field.
#![tactic(auto)]

ghost use Rattle.std.specs.Prelude.{◌≡◌, ◌<◌, length, get_or, drop};
ghost use Rattle.options.specs.Reading.{parse};
ghost use Rattle.wire.specs.Ahead.{next_of, pads_in, code_from, ItemKeepsTheOption};

// An option of a field: the offset of its code byte, its code, and how many data bytes it has.
#[derive(Clone, Copy, Debug, PartialEq, Eq)]
pub struct Item {
    pub offset: usize,
    pub code: u8,
    pub len: usize,
}

// The option at i, where no pad stands.
fn item_at(f: &[u8], i: usize) -> Option<Item>
    requires { (i < length f.now) × (get_or f.now i 0 ≡ 0 → ⊥) }
    ensures { result ≡ next_of (parse i 0 (drop i f.now)) }
{
    let code = f[i];
    if code == 255 {
        return None;
    }
    let len = usize::from(*f.get(i + 1)?);
    if f.len() < i + 2 + len {
        return None;
    }
    Some(Item {
        offset: i,
        code,
        len,
    })
}

// How many pads come before another byte; none where there is no other.
fn pads(f: &[u8]) -> Option<usize>
    ensures { result ≡ pads_in f.now }
{
    f.iter().position(|c| *c != 0)
}

// The first offset from `from` on where no pad stands; none where the field ends before.
pub fn code_at(f: &[u8], from: usize) -> Option<usize>
    ensures { result ≡ code_from from (drop from f.now) }
{
    let n = pads(f.get(from..)?)?;
    Some(from + n)
}

// The next option from an offset on; END and an option that runs past the field both stop.
pub fn next_option(f: &[u8], from: usize) -> Option<Item>
    ensures { result ≡ next_of (parse from 0 (drop from f.now)) }
{
    item_at(f, code_at(f, from)?)
}

// The statements of specs/ hold.
pub fn proved()
    ensures { ItemKeepsTheOption }
{}

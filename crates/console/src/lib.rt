// Cases on standard input, bytes and numbers on standard output, for the programs that run cases.
#![tactic(auto)]

ghost use Rattle.std.specs.Prelude.{◌≡◌, ◌≤◌, length, IfOk, IfSome, OnErr};
ghost use Rattle.console.specs.Sum.{sum_of};
ghost use Rattle.console.specs.Heads.{head_of};
ghost use Rattle.console.specs.Filled.{Rises};

use std::io;
use std::io::{Read, Stdin, Stdout};

// Bytes as they are.
pub fn word(to: Stdout, text: &[u8]) -> io::Result<()> {
    to.write_all(text)
}

// A name and one number after it.
pub fn one(to: Stdout, name: &[u8], n: u64) -> io::Result<()> {
    word(to, name)?;
    print!(to; " {n}")
}

// A blank and a number for each byte.
pub fn bytes(to: Stdout, s: &[u8]) -> io::Result<()> {
    for x in s {
        print!(to; " {x}")?;
    }
    Ok(())
}

// Two hexadecimal digits for each byte.
pub fn hex(to: Stdout, s: &[u8]) -> io::Result<()> {
    for x in s {
        print!(to; "{x:02x}")?;
    }
    Ok(())
}

// A number for a run of bytes: each byte adds itself to 31 times what was there.
pub fn sum(s: &[u8]) -> u64
    ensures { result ≡ sum_of 0 s.now }
{
    let mut t: u64 = 0;
    for x in s {
        t = (t * 31 + u64::from(*x)) % 1000003;
    }
    t
}

// Fills buf with first, first + 1 and so on, modulo 256, so that a byte that is moved or changed shows.
pub fn fill(buf: &mut [u8], first: u8)
    ensures { Rises first buf.old buf.new }
{
    let mut x = first;
    for b in buf {
        *b = x;
        x = x.wrapping_add(1);
    }
}

// What the 8 bytes say with which a case begins: the call asked for, how many bytes are lent, the first of them, and the lengths of a name and of what is handed over, which follow.
#[derive(Clone, Copy, Debug, PartialEq, Eq)]
pub struct Head {
    pub call: u8,
    pub room: u16,
    pub first: u8,
    pub letters: u16,
    pub size: u16,
}

// A case as it was read: the call asked for, how many bytes are lent, and how many of a name and of what is handed over were read.
#[derive(Clone, Copy, Debug, PartialEq, Eq)]
pub struct Case {
    pub call: u8,
    pub room: usize,
    pub letters: usize,
    pub size: usize,
}

impl From<[u8; 8]> for Head {
    ghost from_gives = { λ h r. r ≡ head_of h };

    fn from(h: [u8; 8]) -> Head {
        let [
            call,
            room_high,
            room_low,
            first,
            letters_high,
            letters_low,
            size_high,
            size_low,
        ] = h;
        Head {
            call,
            room: u16::from_be_bytes([room_high, room_low]),
            first,
            letters: u16::from_be_bytes([letters_high, letters_low]),
            size: u16::from_be_bytes([size_high, size_low]),
        }
    }
}

// Reads until buf is full or the input ends, and returns how many bytes it put at the front of buf. A loop of its own: std's `read_exact` does not tell how many came.
pub fn read_full(from: Stdin, buf: &mut [u8]) -> io::Result<usize>
    ensures { IfOk result (λ n. n ≤ length buf.new) }
{
    let mut input = from;
    let mut done: usize = 0;
    while done < buf.len() {
        let n = input.read(&mut buf[done..])?;
        if n == 0 {
            break;
        }
        done += n;
    }
    Ok(done)
}

// Reads what the head says into `name` and `given`, and fills what is lent.
fn body(
    from: Stdin,
    h: Head,
    name: &mut [u8],
    given: &mut [u8],
    out: &mut [u8],
) -> io::Result<Option<Case>>
    ensures ok { IfOk result (λ r. IfSome r (λ c. (c.room ≤ length out.old) × (c.letters ≤ length name.new) × (c.size ≤ length given.new))) }
    ensures err { OnErr result (out.new ≡ out.old) }
{
    let room = usize::from(h.room);
    let letters = usize::from(h.letters);
    let size = usize::from(h.size);
    if out.len() < room || name.len() < letters || given.len() < size {
        return Ok(None);
    }
    let letters = read_full(from, &mut name[..letters])?;
    let size = read_full(from, &mut given[..size])?;
    fill(out, h.first);
    Ok(Some(Case {
        call: h.call,
        room,
        letters,
        size,
    }))
}

// Reads the next case: `letters` bytes of `name` and `size` bytes of `given`; `room` bytes of `out` are lent. There is none at the end of the input, or where a length is
// greater than what there is room for. Where a read fails, `out` is as it was.
pub fn next(
    from: Stdin,
    name: &mut [u8],
    given: &mut [u8],
    out: &mut [u8],
) -> io::Result<Option<Case>>
    ensures ok { IfOk result (λ r. IfSome r (λ c. (c.room ≤ length out.old) × (c.letters ≤ length name.new) × (c.size ≤ length given.new))) }
    ensures err { OnErr result (out.new ≡ out.old) }
{
    let mut head = [0u8; 8];
    if read_full(from, &mut head)? < 8 {
        return Ok(None);
    }
    body(from, Head::from(head), name, given, out)
}

// What a program does with a case: with its call, its name, what is handed over and what is lent.
pub trait Run {
    fn run(&mut self, call: u8, name: &[u8], given: &[u8], out: &mut [u8]) -> io::Result<()>;
}

// Runs the cases one after another, at most so many. The three buffers are the program's, and each keeps its length; what stands in them then is what the last case left.
pub fn each<R: Run>(
    from: Stdin,
    most: usize,
    name: &mut [u8],
    given: &mut [u8],
    out: &mut [u8],
    cases: &mut R,
) -> io::Result<()>
    ensures { (length name.new ≡ length name.old) × (length given.new ≡ length given.old) × (length out.new ≡ length out.old) }
{
    for _ in 0..most {
        let Some(c) = next(from, name, given, out)? else {
            break;
        };
        cases.run(
            c.call,
            &name[..c.letters],
            &given[..c.size],
            &mut out[..c.room],
        )?;
    }
    Ok(())
}

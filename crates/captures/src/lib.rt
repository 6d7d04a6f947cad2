// A file of captures, taken part by part (document 02, request 11). The caller lends the numbers, and a buffer for one message.
#![tactic(auto)]

ghost use Rattle.std.specs.Prelude.{◌≡◌, ℕ, ◌+◌, ◌<◌, ◌≤◌, ◌⊎◌, List, [], ◌∷◌, length, take, if◌then◌else◌, nat_eq, nat_lt};
ghost use Rattle.options.specs.Captures.{most_messages};
ghost use Rattle.tally.specs.Noted.{StaysLent};
ghost use Rattle.captures.specs.Standing.{told_by, taken_value, tidied as tidy, EveryStateStands, StandingIsTidy, NeverWraps, StandingByCase, none_read, BegunEmpty, Takes, Feeds, behind_of, NotesKept, Closes, Whole, Fitting, Keeps};

use refusal::Rule;
use tally::{Lease, Tally};

// Where reading is. began: the place of the record's first byte in the file; stage: 0 before a record or in its message, 1 after its tag, 2 after its high length
// byte, 3 where a record was refused; high: that byte; size: the length of the message that is read, and read: how many of its bytes were. Then the messages
// that were seen, and their lease times. Numbers, and no enum: a caller may lend any, and the contracts say what follows from them.
#[derive(Clone, Copy)]
pub struct Progress {
    pub began: u64,
    pub stage: u32,
    pub high: u8,
    pub size: usize,
    pub read: usize,
    pub messages: u64,
    pub lease: Option<Lease>,
}

// The stage as a part is taken: before a record's tag, its high length byte or its low one; in its message, of which so many bytes were read; or behind a record that
// was refused.
#[derive(Clone, Copy)]
pub enum Stage {
    Tag,
    High,
    Low { high: u8 },
    Message { size: usize, read: usize },
    Stopped,
}

// Where reading is, as a part is taken.
#[derive(Clone, Copy)]
pub struct Standing {
    pub began: u64,
    pub stage: Stage,
    pub messages: u64,
    pub lease: Option<Lease>,
}

// A caller may lend any numbers: a stage above 3 is 3, and a message with no byte to come is none.
impl From<Progress> for Standing {
    ghost from_gives = { λ p q. told_by q ≡ tidy p };

    fn from(p: Progress) -> Standing {
        let stage = if p.read < p.size {
            Stage::Message {
                size: p.size,
                read: p.read,
            }
        } else {
            match p.stage {
                0 => Stage::Tag,
                1 => Stage::High,
                2 => Stage::Low { high: p.high },
                _ => Stage::Stopped,
            }
        };
        Standing {
            began: p.began,
            stage,
            messages: p.messages,
            lease: p.lease,
        }
    }
}

impl From<Standing> for Progress {
    ghost from_gives = { λ q p. p ≡ told_by q };

    fn from(q: Standing) -> Progress {
        let (stage, high, size, read) = match q.stage {
            Stage::Tag => (0, 0, 0, 0),
            Stage::High => (1, 0, 0, 0),
            Stage::Low { high } => (2, high, 0, 0),
            Stage::Message { size, read } => (0, 0, size, read),
            Stage::Stopped => (3, 0, 0, 0),
        };
        Progress {
            began: q.began,
            stage,
            high,
            size,
            read,
            messages: q.messages,
            lease: q.lease,
        }
    }
}

impl Standing {
    // The same record, at another stage.
    fn at(self, stage: Stage) -> Standing
        ensures { result ≡ record { began = self.began; stage = stage; messages = self.messages; lease = self.lease } }
    {
        Standing { stage, ..self }
    }

    // Behind a message of `size` bytes with this lease time: the next record begins there.
    fn behind(self, size: usize, time: Option<u32>) -> Standing
        ensures { told_by result ≡ behind_of (told_by self) size time }
    {
        Standing {
            began: self.began.wrapping_add(3).wrapping_add(size as u64),
            stage: Stage::Tag,
            messages: self.messages.wrapping_add(1),
            lease: tally::widen(self.lease, time),
        }
    }
}

// Notes a message of which the buffer holds all bytes. One that is longer than the buffer was not kept: it is refused as too long, whatever it holds.
fn note(size: usize, message: &[u8], tally: &mut Tally) -> Option<u32>
    ensures same { StaysLent tally.old tally.new }
    ensures notes { NotesKept size message.now tally.old.verdicts.now tally.old.held.now tally.old.bytes.now result tally.new.verdicts.now tally.new.held.now tally.new.bytes.now }
{
    if message.len() < size {
        tally.refuse(Rule::MessageTooLong);
        return None;
    }
    tally.note(&message[..size])
}

// Closes a message.
fn close(p: Standing, size: usize, message: &[u8], tally: &mut Tally) -> Standing
    ensures same { StaysLent tally.old tally.new }
    ensures closes { Closes size (told_by p) message.now tally.old.verdicts.now tally.old.held.now tally.old.bytes.now (told_by result) tally.new.verdicts.now tally.new.held.now tally.new.bytes.now }
{
    let time = note(size, message, tally);
    p.behind(size, time)
}

// Whether a record with this tag is taken: neither another tag nor message 1,000,001.
fn is_taken(tag: u8, messages: u64) -> bool
    ensures { result ≡ taken_value tag messages }
{
    tag == 1 && messages < 1000000
}

// One byte of a record's head. A message with no byte to come is none.
fn head(b: u8, p: Standing, message: &[u8], tally: &mut Tally) -> Standing
    ensures same { StaysLent tally.old tally.new }
    ensures takes { (told_by p).size ≤ (told_by p).read → Takes (b ∷ []) (told_by p) message.now tally.old.verdicts.now tally.old.held.now tally.old.bytes.now (told_by result) message.now tally.new.verdicts.now tally.new.held.now tally.new.bytes.now }
{
    match p.stage {
        Stage::Tag | Stage::Message { .. } => {
            if is_taken(b, p.messages) {
                p.at(Stage::High)
            } else {
                p.at(Stage::Stopped)
            }
        }
        Stage::High => p.at(Stage::Low { high: b }),
        Stage::Low { high } => {
            let size = num::be16(high, b) as usize;
            if size == 0 {
                return close(p, 0, message, tally);
            }
            p.at(Stage::Message { size, read: 0 })
        }
        Stage::Stopped => p,
    }
}

// Keeps bytes of a message for which the buffer has room.
fn keep(message: &mut [u8], size: usize, read: usize, run: &[u8])
    requires { read + length run.now ≤ size }
    ensures { Keeps size read run.now message.old message.new }
{
    if message.len() < size {
        return;
    }
    text::put_word(message, read, run);
}

// Bytes of a message, at most as many as are still to come.
fn take_message(
    run: &[u8],
    p: Standing,
    size: usize,
    read: usize,
    message: &mut [u8],
    tally: &mut Tally,
) -> Standing
    requires { ((told_by p).size ≡ size) × ((told_by p).read ≡ read) × (read < size) × (read + length run.now ≤ size) × (0 < length run.now) }
    ensures same { StaysLent tally.old tally.new }
    ensures takes { Takes run.now (told_by p) message.old tally.old.verdicts.now tally.old.held.now tally.old.bytes.now (told_by result) message.new tally.new.verdicts.now tally.new.held.now tally.new.bytes.now }
{
    keep(message, size, read, run);
    let next = read + run.len();
    if next < size {
        return p.at(Stage::Message { size, read: next });
    }
    close(p, size, message, tally)
}

// A record of which all bytes are there: its message is noted where it stands.
fn take_record(run: &[u8], p: Standing, tally: &mut Tally) -> Standing
    requires { ((told_by p).stage ≡ 0) × ((told_by p).size ≤ (told_by p).read) × Whole (told_by p).messages run.now }
    ensures same { StaysLent tally.old tally.new }
    ensures takes { (message : List ℕ) → Takes run.now (told_by p) message tally.old.verdicts.now tally.old.held.now tally.old.bytes.now (told_by result) message tally.new.verdicts.now tally.new.held.now tally.new.bytes.now }
{
    let size = run.len() - 3;
    let time = tally.note(&run[3..]);
    p.behind(size, time)
}

// Bytes of one record.
fn take_run(run: &[u8], p: Standing, message: &mut [u8], tally: &mut Tally) -> Standing
    requires { Fitting (told_by p) run.now }
    ensures same { StaysLent tally.old tally.new }
    ensures takes { Takes run.now (told_by p) message.old tally.old.verdicts.now tally.old.held.now tally.old.bytes.now (told_by result) message.new tally.new.verdicts.now tally.new.held.now tally.new.bytes.now }
{
    if let Stage::Message { size, read } = p.stage {
        if read < size {
            return take_message(run, p, size, read, message, tally);
        }
    }
    if 1 < run.len() {
        return take_record(run, p, tally);
    }
    head(run[0], p, message, tally)
}

// The length of the record that the bytes begin with, if it is whole and may be taken; else 1.
fn record_length(rest: &[u8], messages: u64) -> usize
    requires { 0 < length rest.now }
    ensures { (0 < result) × (result ≤ length rest.now) × ((result ≡ 1) ⊎ Whole messages (take result rest.now)) }
{
    if rest.len() < 3 {
        return 1;
    }
    if !is_taken(rest[0], messages) {
        return 1;
    }
    let n = num::be16(rest[1], rest[2]) as usize + 3;
    if rest.len() < n {
        return 1;
    }
    n
}

// How many of the next bytes are taken at once.
fn run_length(p: Standing, rest: &[u8]) -> usize
    requires { 0 < length rest.now }
    ensures { (result ≤ length rest.now) × Fitting (told_by p) (take result rest.now) }
{
    match p.stage {
        Stage::Message { size, read } if read < size => (size - read).min(rest.len()),
        Stage::Tag => record_length(rest, p.messages),
        _ => 1,
    }
}

// Nothing was read yet. The lent numbers are to be zeros.
pub fn begin() -> Progress
    ensures { result ≡ none_read }
{
    Progress {
        began: 0,
        stage: 0,
        high: 0,
        size: 0,
        read: 0,
        messages: 0,
        lease: None,
    }
}

// Takes the next part of the file; message: what was read of a message that came in parts. Any numbers may be lent: they are those of the messages before.
pub fn feed(part: &[u8], p: Progress, message: &mut [u8; 1472], tally: &mut Tally) -> Progress
    ensures same { StaysLent tally.old tally.new }
    ensures feeds { Feeds part.now p message.old tally.old.verdicts.now tally.old.held.now tally.old.bytes.now result message.new tally.new.verdicts.now tally.new.held.now tally.new.bytes.now }
{
    let mut q = Standing::from(p);
    let mut rest = part;
    // No iterator: how far a step goes is read from the bytes.
    while rest.len() != 0 {
        let (run, after) = rest.split_at(run_length(q, rest));
        q = take_run(run, q, message, tally);
        rest = after;
    }
    q.into()
}

// What the contracts rest on holds.
pub fn proved()
    ensures { BegunEmpty × EveryStateStands × StandingIsTidy × NeverWraps × StandingByCase }
{}

// The tally of captures for C (document 02, request 11): the caller lends the numbers and the buffers, which are arrays; how far the file was read is a struct by value.
#![tactic(auto)]

ghost use Rattle.std.specs.Prelude.{◌≡◌, ◌≤◌, length};
ghost use Rattle.report.specs.Printed.{Reports};
ghost use Rattle.dhcpopt_captures.specs.Plain.{progress_of_value, plain_of, BeginsWith, FeedsPlain};
ghost use Rattle.dhcpopt_captures.specs.Told.{BegunForC, FedForC, ProgressByCase, ProgressByCaseBoth, CapturesRefusedForC, CapturesReportedForC};

use captures::Progress;
use tally::{Lease, Tally};

// captures::Progress with its lease times. leases: 1 where there are any, else 0.
#[repr(C)]
#[derive(Clone, Copy)]
pub struct PlainProgress {
    pub began: u64,
    pub messages: u64,
    pub size: usize,
    pub read: usize,
    pub stage: u32,
    pub leases: u32,
    pub smallest: u32,
    pub largest: u32,
    pub high: u8,
}

impl From<PlainProgress> for Progress {
    ghost from_gives = { λ p q. q ≡ progress_of_value p };

    fn from(p: PlainProgress) -> Progress {
        let lease = if p.leases == 0 {
            None
        } else {
            Some(Lease {
                smallest: p.smallest,
                largest: p.largest,
            })
        };
        Progress {
            began: p.began,
            stage: p.stage,
            high: p.high,
            size: p.size,
            read: p.read,
            messages: p.messages,
            lease,
        }
    }
}

impl From<Progress> for PlainProgress {
    ghost from_gives = { λ q p. p ≡ plain_of q };

    fn from(q: Progress) -> PlainProgress {
        let (leases, smallest, largest) = match q.lease {
            Some(l) => (1, l.smallest, l.largest),
            None => (0, 0, 0),
        };
        PlainProgress {
            began: q.began,
            messages: q.messages,
            size: q.size,
            read: q.read,
            stage: q.stage,
            leases,
            smallest,
            largest,
            high: q.high,
        }
    }
}

// What the calls' contracts come to, in the numbers of a file.
pub fn proved()
    ensures { BegunForC × FedForC × ProgressByCase × ProgressByCaseBoth × CapturesRefusedForC × CapturesReportedForC }
{}

// Begins a tally: the lent numbers become zeros.
#[unsafe(no_mangle)]
pub extern "C" fn dhcpopt_captures_begin(
    verdicts: &mut [u64; 8],
    held: &mut [u64; 256],
    bytes: &mut [u64; 256],
) -> PlainProgress
    ensures { BeginsWith result verdicts.new held.new bytes.new }
{
    *verdicts = [0; 8];
    *held = [0; 256];
    *bytes = [0; 256];
    captures::begin().into()
}

// Takes the next part of the file.
#[unsafe(no_mangle)]
pub extern "C" fn dhcpopt_captures_feed(
    part: &[u8],
    p: PlainProgress,
    message: &mut [u8; 1472],
    verdicts: &mut [u64; 8],
    held: &mut [u64; 256],
    bytes: &mut [u64; 256],
) -> PlainProgress
    ensures { FeedsPlain part.now p message.old verdicts.old held.old bytes.old result message.new verdicts.new held.new bytes.new }
{
    let mut tally = Tally {
        verdicts,
        held,
        bytes,
    };
    captures::feed(part, p.into(), message, &mut tally).into()
}

// Writes the report of what was read, and gives its length.
#[unsafe(no_mangle)]
pub extern "C" fn dhcpopt_captures_report(
    p: PlainProgress,
    verdicts: &[u64; 8],
    held: &[u64; 256],
    bytes: &[u64; 256],
    out: &mut [u8; 16384],
) -> usize
    ensures size { result ≤ length out.new }
    ensures text { Reports (progress_of_value p) verdicts.now held.now bytes.now out.old result out.new }
{
    report::report(p.into(), verdicts, held, bytes, out)
}

// Writes the listing of the message on standard input to standard output (document 01, Bench table: the listing program).
#![tactic(auto)]

ghost use Rattle.std.specs.Prelude.{◌≡◌, ◌++◌, length, take, drop};
ghost use Rattle.options.specs.Answers.{listing};

use std::io;

// The text that is printed, at the front of `text`, and its length: the listing of the first n bytes of what was read into.
// One byte more than the longest message is read, so that a longer one is refused ("at most 1,473 bytes").
// The length beside the buffer, not a slice: so the contract says which bytes are listed, as `main` has none.
fn listed(read: &[u8; 1473], n: usize, text: &mut [u8; 16384]) -> usize
    ensures size { result ≡ length (listing (take n read.now)) }
    ensures text { text.new ≡ listing (take n read.now) ++ drop (length (listing (take n read.now))) text.old }
{
    listing::list(message::part(read, 0, n), text)
}

fn main(rt: HostRuntime) -> io::Result<()> {
    let mut read = [0u8; 1473];
    let mut text = [0u8; 16384];
    let n = console::read_full(rt.stdin(), &mut read)?;
    let size = listed(&read, n, &mut text);
    rt.write_all(&text[..size])
}

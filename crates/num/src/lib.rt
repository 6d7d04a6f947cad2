// Numbers in bytes (document 01: "Multi-byte numbers have the high byte first"). Each function is total: bytes that are missing count as 0.
#![tactic(auto)]

ghost use Rattle.std.specs.Prelude.{◌≡◌, ◌<◌, get_or};
ghost use Rattle.options.specs.Kinds.{pair16, word32, first16, first32, twos_complement};

// A byte as a place or a size.
pub fn wide(x: u8) -> usize
    ensures { (result ≡ x) × (result < 256) }
{
    usize::from(x)
}

// The byte at i, or 0 past the end: what a number in data is made of (document 01, The kinds).
pub fn byte(m: &[u8], i: usize) -> u8
    ensures { result ≡ get_or m.now i 0 }
{
    m.get(i).copied().unwrap_or(0)
}

// A 16-bit number, the high byte first (document 01, The message and its fields).
pub fn be16(a: u8, b: u8) -> u16
    ensures { result ≡ pair16 a b }
{
    u16::from_be_bytes([a, b])
}

// A 32-bit number, the high byte first (document 01, The message and its fields).
pub fn be32(a: u8, b: u8, c: u8, d: u8) -> u32
    ensures { result ≡ word32 a b c d }
{
    u32::from_be_bytes([a, b, c, d])
}

// The 16-bit number that d begins with (document 01, The kinds); bytes that are missing count as 0.
pub fn first16(d: &[u8]) -> u16
    ensures { result ≡ first16 d.now }
{
    // One test for both bytes.
    match d.first_chunk::<2>() {
        Some(bytes) => u16::from_be_bytes(*bytes),
        None => be16(byte(d, 0), byte(d, 1)),
    }
}

// The 32-bit number that d begins with (document 01, The kinds); bytes that are missing count as 0.
pub fn first32(d: &[u8]) -> u32
    ensures { result ≡ first32 d.now }
{
    // The compiler makes one load of this.
    match d.first_chunk::<4>() {
        Some(bytes) => u32::from_be_bytes(*bytes),
        None => be32(byte(d, 0), byte(d, 1), byte(d, 2), byte(d, 3)),
    }
}

// The number whose two's complement is w (document 01, The kinds: signed 32-bit).
pub fn signed(w: u32) -> i32
    ensures { result ≡ twos_complement w }
{
    w.cast_signed()
}

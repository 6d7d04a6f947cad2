// Bytes copied from one buffer to another.
#![tactic(auto)]

ghost use Rattle.std.specs.Prelude.{◌≡◌, ◌+◌, ◌++◌, ◌≤◌, ◌<◌, length};
ghost use Rattle.buffer.specs.Copy.{whole, copied};

// Each of these copies all of src to the start of dst.

// Byte by byte: `copy_from_slice` would call memcpy, which takes 12 to 17 instructions more at fewer than 4 bytes.
fn copy_bytes(dst: &mut [u8], src: &[u8])
    requires { length src.now ≤ length dst.old }
    ensures { dst.new ≡ whole dst.old src.now }
{
    for i in 0..src.len() {
        dst[i] = src[i];
    }
}

// Of as many bytes as dst has, up to 128. All are read before the first is stored: so, where their number is known, the compiler loads and stores
// 16 at a time, and tests neither the number nor whether the two buffers overlap. The array is gone then.
fn copy_block(dst: &mut [u8], src: &[u8])
    requires { (length dst.old ≡ length src.now) × (length src.now ≤ 128) }
    ensures { dst.new ≡ src.now }
{
    let mut held = [0; 128];
    let n = src.len();
    held[..n].copy_from_slice(src);
    dst.copy_from_slice(&held[..n]);
}

// Of k to 2 k bytes: the first k and the last k, which may have some in common.
fn copy_ends(dst: &mut [u8], src: &[u8], k: usize)
    requires { (k ≤ 128) × (k ≤ length src.now) × (length src.now ≤ k + k) × (length src.now ≤ length dst.old) }
    ensures { dst.new ≡ whole dst.old src.now }
{
    copy_block(&mut dst[0..k], &src[0..k]);
    let n = src.len();
    let last = n - k;
    copy_block(&mut dst[last..n], &src[last..n]);
}

// Of 128 bytes or more: 128 after 128. The last 128 end where src does, and may have some in common with those before. Their place comes
// from `min`: a loop whose turns the compiler can count is unrolled, which costs more than it saves at this length.
fn copy_blocks(dst: &mut [u8], src: &[u8])
    requires { (128 ≤ length src.now) × (length src.now ≤ length dst.old) }
    ensures { dst.new ≡ whole dst.old src.now }
{
    let last = src.len() - 128;
    let mut at = 0;
    loop {
        copy_block(&mut dst[at..at + 128], &src[at..at + 128]);
        if at == last {
            return;
        }
        at = (at + 128).min(last);
    }
}

// Of fewer than 8 bytes.
fn copy_short(dst: &mut [u8], src: &[u8])
    requires { (length src.now < 8) × (length src.now ≤ length dst.old) }
    ensures { dst.new ≡ whole dst.old src.now }
{
    if src.len() < 4 {
        copy_bytes(dst, src);
        return;
    }
    copy_ends(dst, src, 4);
}

// Of more than 128 bytes.
fn copy_long(dst: &mut [u8], src: &[u8])
    requires { (128 < length src.now) × (length src.now ≤ length dst.old) }
    ensures { dst.new ≡ whole dst.old src.now }
{
    let n = src.len();
    if n <= 160 {
        copy_ends(dst, src, 80);
        return;
    }
    if n <= 256 {
        copy_ends(dst, src, 128);
        return;
    }
    copy_blocks(dst, src);
}

// Of any number. Short data comes first, which most options have. Each k is written down, so that the compiler knows it.
fn copy_all(dst: &mut [u8], src: &[u8])
    requires { length src.now ≤ length dst.old }
    ensures { dst.new ≡ whole dst.old src.now }
{
    let n = src.len();
    if n < 8 {
        copy_short(dst, src);
        return;
    }
    if n <= 16 {
        copy_ends(dst, src, 8);
        return;
    }
    if n <= 32 {
        copy_ends(dst, src, 16);
        return;
    }
    if 128 < n {
        copy_long(dst, src);
        return;
    }
    if n <= 64 {
        copy_ends(dst, src, 32);
        return;
    }
    copy_ends(dst, src, 64);
}

// Copies src to the start of dst where it fits; else nothing.
pub fn copy(dst: &mut [u8], src: &[u8])
    ensures { dst.new ≡ copied dst.old src.now }
{
    if dst.len() < src.len() {
        return;
    }
    copy_all(dst, src);
}

// Writes a head and a body behind it at the start of the room, where both fit; else nothing. Who lends just as much room as they take lets the compiler
// drop the test.
pub fn put<const HEAD: usize>(room: &mut [u8], head: &[u8; HEAD], body: &[u8])
    ensures { room.new ≡ copied room.old (head.now ++ body.now) }
{
    if room.len() < body.len() + head.len() {
        return;
    }
    copy_bytes(room, head);
    copy(&mut room[HEAD..], body);
}

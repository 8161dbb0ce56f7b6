// Numbers in two bytes and in four, each a line of std with a definition of the rules in its clause, for which a trait over u16, u32 and both
// orders would be longer; copies and zeros in lent slices.
#![tactic(auto)]

ghost use Rattle.std.specs.Prelude.{◌≡◌, ◌+◌, ◌<◌, ◌≤◌, length};
ghost use Rattle.rules.specs.Basic.{little_endian, little_endian_at, big_endian, big_endian_at, big_endian_4, big_endian_4_at, little_endian_4, little_endian_4_at, zeros};
ghost use Rattle.primitives.specs.Bytes.{over, all_zero};

// The number in two bytes, least significant first.
#[tactic(auto, unfolding(rules::specs::Basic::little_endian_at))]
pub fn little_endian_at(s: &[u8], at: usize) -> u16
    requires { at + 1 < length s.now }
    ensures { result ≡ little_endian_at at s.now }
{
    u16::from_le_bytes([s[at], s[at + 1]])
}

// The number in two bytes, most significant first.
pub fn big_endian_at(s: &[u8], at: usize) -> u16
    requires { at + 1 < length s.now }
    ensures { result ≡ big_endian_at at s.now }
{
    u16::from_be_bytes([s[at], s[at + 1]])
}

// The number in four bytes, most significant first.
#[tactic(auto, unfolding(rules::specs::Basic::big_endian_4_at))]
pub fn big_endian_4_at(s: &[u8], at: usize) -> u32
    requires { at + 3 < length s.now }
    ensures { result ≡ big_endian_4_at at s.now }
{
    u32::from_be_bytes([s[at], s[at + 1], s[at + 2], s[at + 3]])
}

// The number in four bytes, least significant first.
#[tactic(auto, unfolding(rules::specs::Basic::little_endian_at, rules::specs::Basic::little_endian_4_at))]
pub fn little_endian_4_at(s: &[u8], at: usize) -> u32
    requires { at + 3 < length s.now }
    ensures { result ≡ little_endian_4_at at s.now }
{
    u32::from_le_bytes([s[at], s[at + 1], s[at + 2], s[at + 3]])
}

// Puts src at a place of dst: a loop, since the library's copy calls memmove, and firmware need not have it.
pub fn put(dst: &mut [u8], at: usize, src: &[u8])
    requires { at + length src.now ≤ length dst.old }
    ensures { dst.new ≡ over at src.now dst.old }
{
    for i in 0..src.len() {
        dst[at + i] = src[i];
    }
}

// Puts a number in two bytes, most significant first.
pub fn put_big_endian(dst: &mut [u8], at: usize, n: u16)
    requires { at + 2 ≤ length dst.old }
    ensures { dst.new ≡ over at (big_endian n) dst.old }
{
    put(dst, at, &n.to_be_bytes());
}

// Puts a number in two bytes, least significant first.
pub fn put_little_endian(dst: &mut [u8], at: usize, n: u16)
    requires { at + 2 ≤ length dst.old }
    ensures { dst.new ≡ over at (little_endian n) dst.old }
{
    put(dst, at, &n.to_le_bytes());
}

// Puts a number in four bytes, most significant first.
#[tactic(auto, unfolding(rules::specs::Basic::big_endian_4))]
pub fn put_big_endian_4(dst: &mut [u8], at: usize, n: u32)
    requires { at + 3 < length dst.old }
    ensures { dst.new ≡ over at (big_endian_4 n) dst.old }
{
    put(dst, at, &n.to_be_bytes());
}

// Puts a number in four bytes, least significant first.
#[tactic(auto, unfolding(rules::specs::Basic::little_endian_4))]
pub fn put_little_endian_4(dst: &mut [u8], at: usize, n: u32)
    requires { at + 3 < length dst.old }
    ensures { dst.new ≡ over at (little_endian_4 n) dst.old }
{
    put(dst, at, &n.to_le_bytes());
}

// Zeros all of dst.
pub fn clear(dst: &mut [u8])
    ensures { dst.new ≡ zeros (length dst.old) }
{
    dst.fill(0);
}

// Puts n zeros at a place of dst.
// Zeros have no slice to be copied from: where they go and how many is all.
#[tactic(auto, unfolding(crate::specs::Bytes::over))]
pub fn put_zeros(dst: &mut [u8], at: usize, n: usize)
    requires { at + n ≤ length dst.old }
    ensures { dst.new ≡ over at (zeros n) dst.old }
{
    dst[at..at + n].fill(0);
}

// Zeros all of dst but src, which is put at a place of it.
pub fn put_alone(dst: &mut [u8], at: usize, src: &[u8])
    requires { at + length src.now ≤ length dst.old }
    ensures { dst.new ≡ over at src.now (zeros (length dst.old)) }
{
    clear(dst);
    put(dst, at, src);
}

// An or of all bytes with no early return, so that the loop is vectorised.
#[tactic(auto, using(crate::proofs::Zeros::zero_on, crate::proofs::Zeros::zero_end))]
pub fn all_zero(s: &[u8]) -> bool
    ensures { result ≡ all_zero s.now }
{
    let mut all = 0;
    for byte in s {
        all |= *byte;
    }
    all == 0
}

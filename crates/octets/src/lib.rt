// Byte slices: numbers at a place, the most significant byte first; bytes compared, copied and zeroed.
//
// The lowest crate. What a slice holds is a list of numbers (`Bytes`, specs/Bytes.antt), each below 256, and every
// contract above speaks of such lists by the words defined there: `number_at`, `digits`, `splice` for bytes replaced
// from a place on, `same`, `blank`. What is written part behind part is `Put` (specs/Put.antt). The other files of
// specs/ are laws of these words; look there before proving something of lists.
//
// A function that writes takes the slice and a place, and promises `splice`: just these bytes are replaced.
#![tactic(auto)]

ghost use Rattle.std.specs.Prelude.{◌≡◌, [], ◌∷◌, ◌+◌, ◌^◌, ◌≤◌, ◌<◌, length, take, drop};
ghost use Rattle.octets.specs.Bytes.{same, begins, zeros, blank, digits, value, number_at, splice};

// Whether a and b hold the same bytes.
pub fn equal(a: &[u8], b: &[u8]) -> bool
    ensures { result ≡ same a.now b.now }
{
    a == b
}

// Whether a begins with b.
pub fn starts(a: &[u8], b: &[u8]) -> bool
    ensures { result ≡ begins b.now a.now }
{
    a.starts_with(b)
}

// Whether all bytes are zero. They are joined by or, and the loop has one way out: LLVM takes many bytes at a time.
pub fn is_blank(s: &[u8]) -> bool
    ensures { result ≡ blank s.now }
{
    let mut joined: u8 = 0;
    for byte in s {
        joined |= *byte;
    }
    joined == 0
}

// ---- numbers

// The number that s is.
pub fn number(s: &[u8]) -> u64
    requires { length s.now ≤ 8 }
    ensures { (result ≡ value s.now) × (result < 256 ^ length s.now) }
{
    let mut v = 0;
    for byte in s {
        v = v * 256 + u64::from(*byte);
    }
    v
}

// The N bytes from a place on.
fn bytes_at<const N: usize>(s: &[u8], at: usize) -> [u8; N]
    requires { at + N ≤ length s.now }
    ensures { result ≡ take N (drop at s.now) }
{
    s[at..at + N].try_into().unwrap()
}

// The number in two bytes.
pub fn get16(s: &[u8], at: usize) -> u16
    requires { at + 2 ≤ length s.now }
    ensures { result ≡ number_at 2 s.now at }
{
    u16::from_be_bytes(bytes_at(s, at))
}

// The number in four bytes.
pub fn get32(s: &[u8], at: usize) -> u32
    requires { at + 4 ≤ length s.now }
    ensures { result ≡ number_at 4 s.now at }
{
    u32::from_be_bytes(bytes_at(s, at))
}

// The number in eight bytes.
pub fn get64(s: &[u8], at: usize) -> u64
    requires { at + 8 ≤ length s.now }
    ensures { result ≡ number_at 8 s.now at }
{
    u64::from_be_bytes(bytes_at(s, at))
}

// v goes into two bytes.
pub fn put16(s: &mut [u8], at: usize, v: u16)
    requires { at + 2 ≤ length s.old }
    ensures { s.new ≡ splice s.old at (digits 2 v) }
{
    put_bytes(s, at, &v.to_be_bytes());
}

// v goes into four bytes.
pub fn put32(s: &mut [u8], at: usize, v: u32)
    requires { at + 4 ≤ length s.old }
    ensures { s.new ≡ splice s.old at (digits 4 v) }
{
    put_bytes(s, at, &v.to_be_bytes());
}

// v goes into eight bytes.
pub fn put64(s: &mut [u8], at: usize, v: u64)
    requires { at + 8 ≤ length s.old }
    ensures { s.new ≡ splice s.old at (digits 8 v) }
{
    put_bytes(s, at, &v.to_be_bytes());
}

// ---- bytes

pub fn put_byte(s: &mut [u8], at: usize, v: u8)
    requires { at < length s.old }
    ensures { s.new ≡ splice s.old at (v ∷ []) }
{
    s[at] = v;
}

// All of src goes into d. A loop of our own: where LLVM can't tell that the two lie apart, `copy_from_slice` would be a call of `memmove`, and a
// host gives the library `memcpy` and `memset` alone (docs/TRUST.md).
fn copy(d: &mut [u8], src: &[u8])
    requires { length d.old ≡ length src.now }
    ensures { d.new ≡ src.now }
{
    for (i, to) in d.iter_mut().enumerate() {
        *to = src[i];
    }
}

// src goes into the bytes from a place on.
pub fn put_bytes(s: &mut [u8], at: usize, src: &[u8])
    requires { at + length src.now ≤ length s.old }
    ensures { s.new ≡ splice s.old at src.now }
{
    copy(&mut s[at..at + src.len()], src);
}

// n bytes from a place on become zero.
pub fn put_zeros(s: &mut [u8], at: usize, n: usize)
    requires { at + n ≤ length s.old }
    ensures { s.new ≡ splice s.old at (zeros n) }
{
    s[at..at + n].fill(0);
}

// White space in UTF-8, and a string without it at both ends.
ghost use Rattle.std.specs.Prelude.{◌≡◌, ℕ, [], ◌∷◌, ◌+◌, ◌≤◌, ◌<◌, get_or, cond, length, take, drop, SomeIff, IfSome};
ghost use Rattle.definition.specs.White.{space, start_from, end_from};

// Whether white space goes on with b after C2: U+0085 and U+00A0.
fn ends_c2(b: u8) -> bool
    ensures { (c : ℕ) → space (0xC2 ∷ b ∷ c ∷ []) ≡ cond result 2 0 }
{
    b == 0x85 || b == 0xA0
}

// The same with b and c after E1: U+1680.
fn ends_e1(b: u8, c: u8) -> bool
    ensures { space (0xE1 ∷ b ∷ c ∷ []) ≡ cond result 3 0 }
{
    b == 0x9A && c == 0x80
}

// After E2 80: U+2000 to U+200A, U+2028, U+2029, U+202F.
fn ends_e280(c: u8) -> bool
    ensures { space (0xE2 ∷ 0x80 ∷ c ∷ []) ≡ cond result 3 0 }
{
    matches!(c, 0x80..=0x8A | 0xA8..=0xA9 | 0xAF)
}

// After E2: those, and U+205F.
fn ends_e2(b: u8, c: u8) -> bool
    ensures { space (0xE2 ∷ b ∷ c ∷ []) ≡ cond result 3 0 }
{
    match b {
        0x80 => ends_e280(c),
        0x81 => c == 0x9F,
        _ => false,
    }
}

// After E3: U+3000.
fn ends_e3(b: u8, c: u8) -> bool
    ensures { space (0xE3 ∷ b ∷ c ∷ []) ≡ cond result 3 0 }
{
    b == 0x80 && c == 0x80
}

// How many bytes the white space character takes that begins with a, b and c, if one does.
fn space_of(a: u8, b: u8, c: u8) -> Option<usize>
    ensures { SomeIff result (0 < space (a ∷ b ∷ c ∷ [])) (space (a ∷ b ∷ c ∷ [])) }
{
    match a {
        // U+0009 to U+000D, and U+0020
        0x09..=0x0D | 0x20 => Some(1),
        0xC2 => ends_c2(b).then_some(2),
        0xE1 => ends_e1(b, c).then_some(3),
        0xE2 => ends_e2(b, c).then_some(3),
        0xE3 => ends_e3(b, c).then_some(3),
        _ => None,
    }
}

// The byte of s at i, 0 past the end: no white space has it.
fn byte_at(s: &[u8], i: usize) -> u8
    ensures { result ≡ get_or s.now i 0 }
{
    s.get(i).copied().unwrap_or(0)
}

// How many bytes the white space character takes that s begins with, if it begins with one. Below C2 the first byte decides, and the two behind
// it are left alone: each letter of each stored cause is asked at every call.
pub(crate) fn space(s: &[u8]) -> Option<usize>
    ensures tells { SomeIff result (0 < space s.now) (space s.now) }
    ensures within { IfSome result (λ n. n ≤ length s.now) }
{
    let first = byte_at(s, 0);
    if first < 0xC2 {
        return space_of(first, 0, 0);
    }
    space_of(first, byte_at(s, 1), byte_at(s, 2))
}

// The place at which s starts without the white space at its start.
pub(crate) fn trim_start(s: &[u8]) -> usize
    ensures { (result ≤ length s.now) × (start_from 0 s.now ≡ drop result s.now) }
{
    let mut start = 0;
    while let Some(n) = space(&s[start..]) {
        start += n;
    }
    start
}

// The length of s without the white space at its end. Two places move, by 1 to 3 bytes a turn: no iterator goes like that.
pub(crate) fn trim_end(s: &[u8]) -> usize
    ensures { (result ≤ length s.now) × (end_from 0 s.now ≡ take result s.now) }
{
    let mut i = 0;
    let mut end = 0;
    while i < s.len() {
        if let Some(n) = space(&s[i..]) {
            i += n;
        } else {
            i += 1;
            end = i;
        }
    }
    end
}

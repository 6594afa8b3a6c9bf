// UTF-8 by RFC 3629, section 4: which byte strings are well formed, and how many code points they have.
//
// `character` is that section's syntax: a case for each of its rows, in its order, by the first byte and the range of
// the second. A string is well formed if it is a run of characters, and each is a code point (`code_points` in
// definition, specs/Utf8.antt). Most strings are ASCII, and so are most bytes of the others: a string of ASCII is seen
// at once by `check`, and between other letters ASCII is passed eight bytes at a time.
#![tactic(auto)]

ghost use Rattle.std.specs.Prelude.{◌≡◌, ◌≤◌};
ghost use Rattle.definition.specs.Utf8.{◌–◌, inside, tail, character as the_character, code_points, utf8};
ghost use Rattle.utf8.specs.Meaning.{plain, starts_plain, width_of, row_width, ahead as the_ahead, leads_in, counted};

// UTF8-tail   = %x80-BF
fn is_tail(b: u8) -> bool
    ensures { result ≡ inside tail b }
{
    matches!(b, 0x80..=0xBF)
}

// A row of n bytes whose first is there: n, where a second from lo to hi follows and then tails.
fn row(s: &[u8], n: usize, lo: u8, hi: u8) -> Option<usize>
    requires { 2 ≤ n }
    ensures { result ≡ row_width n (lo – hi) s.now }
{
    if s.len() < n {
        return None;
    }
    if !(lo..=hi).contains(&s[1]) {
        return None;
    }
    s[2..n].iter().all(|b| is_tail(*b)).then_some(n)
}

// How many bytes the character takes that s begins with, if it begins with one:
// UTF8-char   = UTF8-1 / UTF8-2 / UTF8-3 / UTF8-4
fn character(s: &[u8]) -> Option<usize>
    ensures { result ≡ width_of (the_character s.now) }
{
    let [first, ..] = s else {
        return None;
    };
    match *first {
        // UTF8-1      = %x00-7F
        0x00..=0x7F => Some(1),
        // UTF8-2      = %xC2-DF UTF8-tail
        0xC2..=0xDF => row(s, 2, 0x80, 0xBF),
        // UTF8-3      = %xE0 %xA0-BF UTF8-tail / %xE1-EC 2( UTF8-tail ) /
        //               %xED %x80-9F UTF8-tail / %xEE-EF 2( UTF8-tail )
        0xE0 => row(s, 3, 0xA0, 0xBF),
        0xE1..=0xEC => row(s, 3, 0x80, 0xBF),
        0xED => row(s, 3, 0x80, 0x9F),
        0xEE..=0xEF => row(s, 3, 0x80, 0xBF),
        // UTF8-4      = %xF0 %x90-BF 2( UTF8-tail ) / %xF1-F3 3( UTF8-tail ) /
        //               %xF4 %x80-8F 2( UTF8-tail )
        0xF0 => row(s, 4, 0x90, 0xBF),
        0xF1..=0xF3 => row(s, 4, 0x80, 0xBF),
        0xF4 => row(s, 4, 0x80, 0x8F),
        // 80-C1 and F5-FF begin no row
        _ => None,
    }
}

// Whether all bytes of s are below 128. They are joined by or, and the loop has one way out: LLVM takes many bytes at a time.
fn is_ascii(s: &[u8]) -> bool
    ensures { result ≡ plain s.now }
{
    let mut joined = 0;
    for b in s {
        joined |= *b;
    }
    joined < 128
}

// Whether s begins with eight bytes of ASCII.
fn starts_plain(s: &[u8]) -> bool
    ensures { result ≡ starts_plain s.now }
{
    8 <= s.len() && is_ascii(&s[..8])
}

// How many bytes at the front of s are whole characters: eight where these are ASCII, else those of the first
// character, if s begins with one.
fn ahead(s: &[u8]) -> Option<usize>
    ensures { result ≡ the_ahead s.now }
{
    if starts_plain(s) {
        return Some(8);
    }
    character(s)
}

// Whether s is a run of characters, UTF8-octets = *( UTF8-char ). It is called, so that what counts is small enough to be inlined.
#[inline(never)]
fn is_run(s: &[u8]) -> bool
    ensures { result ≡ utf8 s.now }
{
    let mut rest = s;
    while let Some(n) = ahead(rest) {
        rest = &rest[n..];
    }
    rest.is_empty()
}

// How many bytes of s are no tails: in a run each character has one of them, its first. A loop with one way out, of which LLVM takes many
// bytes at a time.
fn leads(s: &[u8]) -> usize
    ensures { result ≡ leads_in s.now }
{
    let mut n = 0;
    for b in s {
        n += usize::from(!is_tail(*b));
    }
    n
}

// How many code points s has, if it is well formed, by its characters alone. They are counted by a loop of their own, and
// not in that of `is_run`: LLVM leaves it out where nobody asks for their number.
pub fn check_run(s: &[u8]) -> Option<usize>
    ensures { counted result ≡ code_points s.now }
{
    is_run(s).then(|| leads(s))
}

// The same, quicker than `check_run` where s may well be ASCII.
pub fn check(s: &[u8]) -> Option<usize>
    ensures { counted result ≡ code_points s.now }
{
    if is_ascii(s) {
        return Some(s.len());
    }
    check_run(s)
}

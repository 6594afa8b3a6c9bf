// The cause of an alarm: one of 21 names, or `other:` and a dotted name.
//
// Two things are asked. `cause_of`, of a string in a call: which cause is it? White space around a dotted name is not stored, so the answer
// is a name's place, or the part of the string that stays. `is_stored`, of a string in a record: is it a cause as it is stored? That is
// asked of each record at each call, and has to be quick.
//
// Both answer as the definition does, for every string, UTF-8 or not: read `cause_of` and `stored` in crates/definition/specs/Cause.antt
// first. `names` knows the names and writes one by its place; `white` knows white space.
#![tactic(auto)]

ghost use Rattle.std.specs.Prelude.{◌≡◌, ◌+◌, true, false, length, drop, MatchOption};
ghost use Rattle.octets.specs.Bytes.{begins};
ghost use Rattle.definition.specs.Cause.{names, one_of, other as mark, dotted, cause_of, stored};
ghost use Rattle.cause.specs.Meaning.{cause_value, cause_fits};

mod names;
mod white;

pub use names::put_name;

// A cause: a name by its place, or the part of the string that is the trimmed name after `other:`.
#[derive(Clone, Copy)]
pub enum Cause {
    Name(usize),
    Other { at: usize, len: usize },
}

// What stands before a dotted name.
const OTHER: &[u8; 6] = b"other:";

// Whether s is a dotted name.
fn is_dotted(s: &[u8]) -> bool
    ensures { result ≡ dotted s.now }
{
    let mut open = false;
    let mut dot = false;
    for (i, b) in s.iter().enumerate() {
        if *b == b'.' {
            if !open {
                return false;
            }
            open = false;
            dot = true;
        } else {
            if white::space(&s[i..]).is_some() {
                return false;
            }
            open = true;
        }
    }
    open && dot
}

// What s has behind `other:`, if it begins with that.
fn behind_other(s: &[u8]) -> Option<&[u8]>
    ensures { MatchOption result (begins mark s.now ≡ false) (λ name. (begins mark s.now ≡ true) × (name.now ≡ drop 6 s.now) × (length name.now + 6 ≡ length s.now)) }
{
    s.strip_prefix(OTHER)
}

// The cause that s is, if it is one.
pub fn cause_of(s: &[u8]) -> Option<Cause>
    ensures { (cause_value s.now result ≡ cause_of s.now) × cause_fits s.now result }
{
    match names::name(s) {
        Some(k) => Some(Cause::Name(k)),
        None => other(s),
    }
}

// The cause that s is, where it is none of the names.
fn other(s: &[u8]) -> Option<Cause>
    requires { one_of names s.now ≡ false }
    ensures { (cause_value s.now result ≡ cause_of s.now) × cause_fits s.now result }
{
    let name = behind_other(s)?;
    let start = white::trim_start(name);
    let len = white::trim_end(&name[start..]);
    let end = start + len;
    is_dotted(&name[start..end]).then_some(Cause::Other {
        at: OTHER.len() + start,
        len,
    })
}

// Whether s is a cause in its stored form.
pub fn is_stored(s: &[u8]) -> bool
    ensures { result ≡ stored s.now }
{
    names::is_one(s) || other_stored(s)
}

// Whether s is such a cause, where it is none of the names.
fn other_stored(s: &[u8]) -> bool
    requires { one_of names s.now ≡ false }
    ensures { result ≡ stored s.now }
{
    behind_other(s).is_some_and(is_dotted)
}

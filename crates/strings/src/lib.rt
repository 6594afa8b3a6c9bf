// What is put into a slice as a call has it: bytes, numbers, strings and causes, one behind the other.
//
// What is hashed for a key and what answers hold is put by a `Writer`: it borrows a slice and keeps the place behind what it put. Each method
// promises by `Wrote` (specs/Writing.antt) which bytes it put there, and that it changed no other; specs/WritingLaws.antt joins a row of
// them. A cause is put in its stored form: one of the 21 names, or `other:` and the trimmed name, which the parser left in the call. A call's
// limits bound all lengths; who calls sees to the room.
#![tactic(auto)]

ghost use Rattle.std.specs.Prelude.{◌≡◌, [], ◌∷◌, ◌++◌, ◌+◌, ◌≤◌, ◌<◌, length, take, get_or};
ghost use Rattle.octets.specs.Bytes.{be32};
ghost use Rattle.definition.specs.Limits.{cause_limit};
ghost use Rattle.definition.specs.Cause.{names, other};
ghost use Rattle.definition.specs.Key.{string};
ghost use Rattle.model.specs.Meaning.{cause_part, cause_within};
ghost use Rattle.strings.specs.Writing.{Room, Wrote};

use model::{CauseSpan, Record};

// What stands before a cause that is no name.
const OTHER: &[u8; 6] = b"other:";

// A slice, and the place where the next bytes go.
#[derive(Drop)]
pub struct Writer<'a> {
    slice: &'a mut [u8],
    at: usize,
}

impl<'a> Writer<'a> {
    // Writes into a slice from a place on.
    pub fn new(slice: &'a mut [u8], at: usize) -> Writer<'a>
        ensures same_slice { result.slice.ghost_name ≡ slice.entry.ghost_name }
        ensures bytes { result.slice.now ≡ slice.old }
        ensures place { result.at ≡ at }
    {
        Writer { slice, at }
    }

    // The place behind all that was put.
    pub fn place(&self) -> usize
        ensures { result ≡ self.now.at }
    {
        self.at
    }

    // All bytes of the slice up to that place.
    pub fn written(&self) -> &[u8]
        requires { Room self.now 0 }
        ensures { result.now ≡ take self.now.at self.now.slice.now }
    {
        &self.slice[..self.at]
    }

    pub fn put(&mut self, bytes: &[u8])
        requires { Room self.old (length bytes.now) }
        ensures { Wrote self.old bytes.now self.new }
    {
        octets::put_bytes(self.slice, self.at, bytes);
        self.at += bytes.len();
    }

    pub fn put_byte(&mut self, v: u8)
        requires { Room self.old 1 }
        ensures { Wrote self.old (v ∷ []) self.new }
    {
        self.put(&[v]);
    }

    // v in four bytes.
    pub fn put_u32(&mut self, v: u32)
        requires { Room self.old 4 }
        ensures { Wrote self.old (be32 v) self.new }
    {
        self.put(&v.to_be_bytes());
    }

    // The length of s, and its bytes.
    pub fn put_string(&mut self, s: &[u8])
        requires { Room self.old (4 + length s.now) × (length s.now < 4294967296) }
        ensures { Wrote self.old (string s.now) self.new }
    {
        self.put_u32(s.len() as u32);
        self.put(s);
    }

    // A cause in its stored form, as a string.
    pub fn put_cause(&mut self, call: &[u8], cause: CauseSpan)
        requires { Room self.old (4 + cause_limit) × cause_within call.now cause }
        ensures { Wrote self.old (string (cause_part call.now cause)) self.new }
    {
        match cause {
            CauseSpan::Name(k) => self.put_name(k),
            CauseSpan::Other(name) => self.put_other(model::part(call, name)),
        }
    }

    // A name by its place.
    fn put_name(&mut self, k: usize)
        requires { Room self.old (4 + cause_limit) × (k < 21) }
        ensures { Wrote self.old (string (get_or names k [])) self.new }
    {
        let mut name = [0u8; Record::CAUSE];
        let n = cause::put_name(&mut name, 0, k);
        self.put_string(&name[..n]);
    }

    // `other:` and the trimmed name.
    fn put_other(&mut self, name: &[u8])
        requires { Room self.old (4 + cause_limit) × (6 + length name.now ≤ cause_limit) }
        ensures { Wrote self.old (string (other ++ name.now)) self.new }
    {
        self.put_u32((OTHER.len() + name.len()) as u32);
        self.put(OTHER);
        self.put(name);
    }
}

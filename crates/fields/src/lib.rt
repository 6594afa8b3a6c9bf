// The fields of a call: numbers, choices, strings, options and causes, read one behind the other from its bytes.
//
// Each field but a flag has two readers. `read_number` and its like (src/part.rt) receive a part of the call, what is left of it, and read the field
// at the part's start: no place of the call comes into them. The methods of `Reader` keep the places: they lend what is left of the call to
// the reader of the part, carry its answer over to the call's places, and go on behind the field. The first refusal ends a row of fields.
//
// Nothing is copied: a string is a span, its place and its length. Each contract says that the function does what the definition's reader of
// the same name does (Reader.antt), and that a span lies in what was lent, within its limit: who looks at its bytes later tests nothing.
// `Finds` in specs/Reading.antt is that promise on a part's bytes, `Reads` on a call's. specs/ReadingLaws.antt has the laws by which the readers
// of a row of fields are proved, of which most need only `row_is`; specs/MovedLaws.antt has those that carry an answer over.
#![tactic(auto)]

ghost use Rattle.std.specs.Prelude.{◌≡◌, ◌+◌, ◌^◌, ◌≤◌, ◌<◌, length, drop, min, IsTrue, OnErr, ◌↔◌, ⊤};
ghost use Rattle.definition.specs.Limits.{text_limit};
ghost use Rattle.definition.specs.Reader.{number, choice, text, optional, cause_text};
ghost use Rattle.definition.specs.Parse.{raise_text};
ghost use Rattle.model.specs.Meaning.{part as part_of, opt_part, cause_part, within, opt_within, cause_within};
ghost use Rattle.fields.specs.Reading.{Reads, left, itself, of_width, between, flag, anywhere};
ghost use Rattle.fields.specs.StringKind.{string_by};

use model::{CauseSpan, Refusal, Span};
use std::alloc::AllocError;
use std::marker::Model;

mod moved;
mod part;

use moved::Moved;
pub use moved::Read;
pub use part::{read_cause, read_choice, read_number, read_option, read_raise_text, read_text};

// Which strings a field takes: those in UTF-8, or any bytes. Two names say at each field what a closure would have to spell out.
#[derive(Clone, Copy)]
pub enum StringKind {
    Text,
    Blob,
}

// A call, and how many of its bytes are read.
#[derive(Drop)]
pub struct Reader<'a> {
    call: &'a [u8],
    at: usize,
}

impl<'a> Model for Reader<'a> {
    ghost use Rattle.std.specs.Prelude.{◌≤◌, length};
    ghost use Rattle.fields.specs.Reading.{Reading};

    ghost Value = { Reading };

    ghost view = { λ r. record { call = r.call.now; at = r.at } };

    ghost invariant = { λ r. r.at ≤ length r.call.now };
}

// A copy reads on from the same place of the same call.
impl<'a> Clone for Reader<'a> {
    ghost is_clone = { λ s r. r ≡ s };

    ghost is_infallible = { λ _. ⊤ };

    fn clone(&self) -> Result<Reader<'a>, AllocError> {
        Ok(Reader {
            call: self.call,
            at: self.at,
        })
    }
}

impl<'a> Reader<'a> {
    // Reads a call from a place on. Past the end nothing is left.
    pub fn new(call: &'a [u8], at: usize) -> Reader<'a>
        ensures call { result.call ≡ call.now }
        ensures place { result.at ≡ min at (length call.now) }
        ensures left { left result ≡ drop at call.now }
    {
        Reader {
            call,
            at: at.min(call.len()),
        }
    }

    // How many bytes of the call are read: the place where the next field starts.
    pub fn place(&self) -> usize
        ensures { result ≡ self.now.at }
    {
        self.at
    }

    // Whether all bytes of the call are read.
    pub fn is_done(&self) -> bool
        ensures { IsTrue result ↔ length self.now.call ≤ self.now.at }
    {
        self.call.len() <= self.at
    }

    // What is left of the call.
    fn left(&self) -> &[u8]
        ensures value { result.now ≡ left self.now }
        ensures place { self.now.at + length result.now ≡ length self.now.call }
    {
        &self.call[self.at..]
    }

    // What was read of the part that is left, in the call's places; the reading goes on behind it.
    fn pass<T: Moved>(&mut self, read: Read<T>) -> T
        requires inside { self.old.at + read.next ≤ length self.old.call }
        requires start { self.old.at + T.start read.value ≤ length self.old.call }
        ensures value { result ≡ T.on self.old.at read.value }
        ensures call { self.new.call ≡ self.old.call }
        ensures place { self.new.at ≡ self.old.at + read.next }
    {
        let Read { value, next } = read.behind(self.at);
        self.at = next;
        value
    }

    // A number of n bytes.
    pub fn number(&mut self, n: usize) -> Result<u64, Refusal>
        requires { n ≤ 8 }
        ensures reads { Reads self.old self.new (number n) itself (of_width n) result }
        ensures refused { OnErr result (self.new ≡ self.old) }
    {
        let read = read_number(self.left(), n)?;
        Ok(self.pass(read))
    }

    // A byte from lo to hi.
    pub fn choice(&mut self, lo: u8, hi: u8) -> Result<u8, Refusal>
        ensures reads { Reads self.old self.new (choice lo hi) itself (between lo hi) result }
        ensures refused { OnErr result (self.new ≡ self.old) }
    {
        let read = read_choice(self.left(), lo, hi)?;
        Ok(self.pass(read))
    }

    // A flag: byte 0 or 1.
    pub fn flag(&mut self) -> Result<bool, Refusal>
        ensures reads { Reads self.old self.new (choice 0 1) flag anywhere result }
        ensures refused { OnErr result (self.new ≡ self.old) }
    {
        let byte = self.choice(0, 1)?;
        Ok(byte == 1)
    }

    // A string in UTF-8.
    pub fn text(&mut self, limit: usize) -> Result<Span, Refusal>
        ensures reads { Reads self.old self.new (text limit) part_of (λ s. within s limit) result }
        ensures refused { OnErr result (self.new ≡ self.old) }
    {
        let read = read_text(self.left(), limit)?;
        Ok(self.pass(read))
    }

    // A raise's text: a string in UTF-8 of at most 120 code points.
    pub fn raise_text(&mut self) -> Result<Span, Refusal>
        ensures reads { Reads self.old self.new raise_text part_of (λ s. within s text_limit) result }
        ensures refused { OnErr result (self.new ≡ self.old) }
    {
        let read = read_raise_text(self.left())?;
        Ok(self.pass(read))
    }

    // An optional string: byte 0, or byte 1 and the string.
    pub fn option(&mut self, limit: usize, kind: StringKind) -> Result<Option<Span>, Refusal>
        ensures reads { Reads self.old self.new (optional (string_by kind limit)) opt_part (λ s. opt_within s limit) result }
        ensures refused { OnErr result (self.new ≡ self.old) }
    {
        let read = read_option(self.left(), limit, kind)?;
        Ok(self.pass(read))
    }

    // A cause: a string in UTF-8, and the cause that it is.
    pub fn cause(&mut self) -> Result<CauseSpan, Refusal>
        ensures reads { Reads self.old self.new cause_text cause_part cause_within result }
        ensures refused { OnErr result (self.new ≡ self.old) }
    {
        let read = read_cause(self.left())?;
        Ok(self.pass(read))
    }
}

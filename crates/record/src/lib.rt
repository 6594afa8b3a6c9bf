// The fields of an alarm in its payload, the 1,532 bytes of a record behind the next index: read, compared, and
// changed in place. Where each field stands, and how wide its slot is, places.rt says once for all code.
//
// Readers promise the field of the definition's `read_alarm` of the bytes, whatever these are. Setters promise
// `Becomes` (specs/Change.antt): just these bytes are replaced, and what held an alarm holds it with that field
// changed. A setter's proof is the number of its slot, since one law of `definition` has all slots. A string's
// slot has room for the longest string of its field, with zeros behind a shorter one: `put_string` writes both.
#![tactic(auto)]

ghost use Rattle.std.specs.Prelude.{◌≡◌, [], ◌∷◌, ◌+◌, ◌≤◌, T, length};
ghost use Rattle.std.proofs.Math.Option.{none, some};
ghost use Rattle.octets.specs.Bytes.{same, zeros, digits, splice};
ghost use Rattle.definition.specs.Limits.{text_limit, details_limit};
ghost use Rattle.definition.specs.Alarm.{same_maybe, same_identity, with_severity, with_state, with_updated, with_cleared, with_text, with_details, with_raises, with_end};
ghost use Rattle.definition.specs.Book.{payload_width};
ghost use Rattle.definition.specs.Slot.{string_bytes};
ghost use Rattle.definition.specs.Record.{last_state, read_alarm, sound_alarm};
ghost use Rattle.model.specs.Meaning.{opt_time};
ghost use Rattle.record.specs.Meaning.{string_at, option_at};
ghost use Rattle.record.specs.Change.{Becomes};

use model::{Payload, Record};

mod places;
mod values;

pub use places::{AlarmAt, EventAt, ObjectAt, Slot};
pub use values::{Severity, State};

// ---- fields read

pub fn severity(p: &Payload) -> u8
    ensures { result ≡ (read_alarm p.now).severity }
{
    p[AlarmAt::SEVERITY]
}

pub fn state(p: &Payload) -> u8
    ensures { result ≡ (read_alarm p.now).state }
{
    p[AlarmAt::STATE]
}

pub fn raised_at(p: &Payload) -> u64
    ensures { result ≡ (read_alarm p.now).raised_at }
{
    octets::get64(p, AlarmAt::RAISED_AT)
}

pub fn updated_at(p: &Payload) -> u64
    ensures { result ≡ (read_alarm p.now).updated_at }
{
    octets::get64(p, AlarmAt::UPDATED_AT)
}

pub fn raises(p: &Payload) -> u32
    ensures { result ≡ (read_alarm p.now).raises }
{
    octets::get32(p, AlarmAt::RAISES)
}

// The end of a suppression.
pub fn end(p: &Payload) -> Option<u64>
    ensures { opt_time result ≡ (read_alarm p.now).end }
{
    if p[AlarmAt::END] == 0 {
        return None;
    }
    Some(octets::get64(p, AlarmAt::END + Slot::MARK))
}

// The string in a slot; all of its room where the length is above it.
fn string_of(p: &Payload, at: usize, n: usize) -> &[u8]
    requires { at + (2 + n) ≤ payload_width }
    ensures { result.now ≡ string_at n p.now at }
{
    let m = n.min(octets::get16(p, at) as usize);
    let a = at + Slot::LENGTH;
    let e = a + m;
    &p[a..e]
}

pub fn id(p: &Payload) -> &[u8]
    ensures { result.now ≡ (read_alarm p.now).id }
{
    string_of(p, AlarmAt::ID, Record::SHORT)
}

pub fn cause(p: &Payload) -> &[u8]
    ensures { result.now ≡ (read_alarm p.now).about.cause }
{
    string_of(p, AlarmAt::CAUSE, Record::CAUSE)
}

// Whether the slot of an optional string has one, and it is s.
pub fn has_some(p: &Payload, at: usize, n: usize, s: &[u8]) -> bool
    requires { at + (3 + n) ≤ payload_width }
    ensures { result ≡ same_maybe same (some s.now) (option_at n p.now at) }
{
    if p[at] == 0 {
        return false;
    }
    let a = at + Slot::MARK;
    octets::equal(s, string_of(p, a, n))
}

// Whether two sound alarms are the same to history.
pub fn same_alarm(p: &Payload, q: &Payload) -> bool
    requires { T (sound_alarm last_state p.now)
        × T (sound_alarm last_state q.now) }
    ensures { result ≡ same_identity (read_alarm p.now) (read_alarm q.now) }
{
    octets::equal(
        &p[AlarmAt::SEVERITY..AlarmAt::RAISED_AT],
        &q[AlarmAt::SEVERITY..AlarmAt::RAISED_AT],
    ) & octets::equal(
        &p[AlarmAt::ID..AlarmAt::TEXT],
        &q[AlarmAt::ID..AlarmAt::TEXT],
    )
}

// ---- fields changed

// The slot of a string of at most n bytes.
pub fn put_string(p: &mut [u8], at: usize, n: usize, s: &[u8])
    requires { (at + (2 + n) ≤ length p.old) × (length s.now ≤ n) × (n ≤ details_limit) }
    ensures { p.new ≡ splice p.old at (string_bytes n s.now) }
{
    let m = s.len();
    octets::put16(p, at, m as u16);
    let a = at + Slot::LENGTH;
    octets::put_bytes(p, a, s);
    let b = a + m;
    octets::put_zeros(p, b, n - m);
}

// A byte, and the slot of a string behind it: an option that is there, or a kind with its string.
pub fn put_marked(p: &mut [u8], at: usize, n: usize, mark: u8, s: &[u8])
    requires { (at + (3 + n) ≤ length p.old) × (length s.now ≤ n) × (n ≤ details_limit) }
    ensures { p.new ≡ splice p.old at (mark ∷ string_bytes n s.now) }
{
    octets::put_byte(p, at, mark);
    let a = at + Slot::MARK;
    put_string(p, a, n, s);
}

pub fn set_severity(p: &mut Payload, v: u8)
    ensures { Becomes (with_severity v) 16 (v ∷ []) p.old p.new }
{
    octets::put_byte(p, AlarmAt::SEVERITY, v);
}

pub fn set_state(p: &mut Payload, v: u8)
    ensures { Becomes (with_state v) 17 (v ∷ []) p.old p.new }
{
    octets::put_byte(p, AlarmAt::STATE, v);
}

pub fn set_updated(p: &mut Payload, t: u64)
    ensures { Becomes (with_updated t) 26 (digits 8 t) p.old p.new }
{
    octets::put64(p, AlarmAt::UPDATED_AT, t);
}

// The slot of an optional time that is there.
fn put_time(p: &mut [u8], at: usize, t: u64)
    requires { at + 9 ≤ length p.old }
    ensures { p.new ≡ splice p.old at (1 ∷ digits 8 t) }
{
    octets::put_byte(p, at, 1);
    let a = at + Slot::MARK;
    octets::put64(p, a, t);
}

pub fn set_cleared(p: &mut Payload, t: u64)
    ensures { Becomes (with_cleared t) 34 (1 ∷ digits 8 t) p.old p.new }
{
    put_time(p, AlarmAt::CLEARED_AT, t);
}

pub fn set_text(p: &mut Payload, s: &[u8])
    requires { length s.now ≤ text_limit }
    ensures { Becomes
        (with_text s.now)
        674
        (string_bytes text_limit s.now)
        p.old
        p.new }
{
    put_string(p, AlarmAt::TEXT, Record::TEXT, s);
}

pub fn set_details(p: &mut Payload, s: &[u8])
    requires { length s.now ≤ details_limit }
    ensures { Becomes
        (with_details (some s.now))
        932
        (1 ∷ string_bytes details_limit s.now)
        p.old
        p.new }
{
    put_marked(p, AlarmAt::DETAILS, Record::DETAILS, 1, s);
}

pub fn no_details(p: &mut Payload)
    ensures { Becomes (with_details none) 932 (zeros 515) p.old p.new }
{
    octets::put_zeros(p, AlarmAt::DETAILS, Slot::OPTIONAL_DETAILS);
}

pub fn set_raises(p: &mut Payload, n: u32)
    ensures { Becomes (with_raises n) 1447 (digits 4 n) p.old p.new }
{
    octets::put32(p, AlarmAt::RAISES, n);
}

pub fn set_end(p: &mut Payload, t: u64)
    ensures { Becomes (with_end (some t)) 1451 (1 ∷ digits 8 t) p.old p.new }
{
    put_time(p, AlarmAt::END, t);
}

pub fn no_end(p: &mut Payload)
    ensures { Becomes (with_end none) 1451 (zeros 9) p.old p.new }
{
    octets::put_zeros(p, AlarmAt::END, Slot::OPTIONAL_TIME);
}

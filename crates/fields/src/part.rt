// The readers that receive a part of the call: what is left of it, with the field at its start.
//
// A reader knows nothing of the call around its part. Its places count from the part's start, and its contract is the definition's reader of
// the same name on the part's bytes. A field of several pieces lends what is left behind the first to the reader of the next; the bytes that
// a string is are lent on to the UTF-8 and the cause code by `model::part`.
ghost use Rattle.std.specs.Prelude.{◌≡◌, ◌^◌, ◌≤◌, ◌<◌};
ghost use Rattle.definition.specs.Limits.{text_limit};
ghost use Rattle.definition.specs.Reader.{bytes, number, choice, blob, text, optional, cause_text};
ghost use Rattle.definition.specs.Parse.{raise_text};
ghost use Rattle.model.specs.Meaning.{part as part_of, opt_part, cause_part, within, opt_within, cause_within};
ghost use Rattle.fields.specs.Reading.{Finds, itself, of_width, between};
ghost use Rattle.fields.specs.StringKind.{obeyed, string_by};

use super::{Read, StringKind};
use cause::Cause;
use model::{CauseSpan, Prefix, Record, Refusal, Span};

// ---- bytes and numbers

// The next n bytes.
fn read_bytes(left: &[u8], n: usize) -> Result<Read<Span>, Refusal>
    ensures { Finds left.now (bytes n) part_of (λ s. within s n) result }
{
    if left.len() < n {
        return Err(Refusal::CallLength);
    }
    Ok(Read {
        value: Span { at: 0, len: n },
        next: n,
    })
}

// A number of n bytes.
pub fn read_number(left: &[u8], n: usize) -> Result<Read<u64>, Refusal>
    requires { n ≤ 8 }
    ensures { Finds left.now (number n) itself (of_width n) result }
{
    let Read { value, next } = read_bytes(left, n)?;
    Ok(Read {
        value: octets::number(model::part(left, value)),
        next,
    })
}

// A byte from lo to hi.
pub fn read_choice(left: &[u8], lo: u8, hi: u8) -> Result<Read<u8>, Refusal>
    ensures { Finds left.now (choice lo hi) itself (between lo hi) result }
{
    let Read { value, next } = read_number(left, 1)?;
    let value = value as u8;
    if !(lo..=hi).contains(&value) {
        return Err(Refusal::Value);
    }
    Ok(Read { value, next })
}

// ---- strings

// A string, its bytes as they stand. The limit is tested before the bytes are looked for.
fn read_blob(left: &[u8], limit: usize) -> Result<Read<Span>, Refusal>
    ensures { Finds left.now (blob limit) part_of (λ s. within s limit) result }
{
    let Read { value, next } = read_number(left, Prefix::LENGTH)?;
    let len = value as usize;
    if len > limit {
        return Err(Refusal::TooLong);
    }
    let string = read_bytes(&left[next..], len)?;
    Ok(string.behind(next))
}

// Whether a string of this kind may have these bytes.
fn obeys(string: &[u8], kind: StringKind) -> bool
    ensures { result ≡ obeyed kind string.now }
{
    match kind {
        StringKind::Text => utf8::check(string).is_some(),
        StringKind::Blob => true,
    }
}

// A string by its kind.
fn read_string(left: &[u8], limit: usize, kind: StringKind) -> Result<Read<Span>, Refusal>
    ensures { Finds left.now (string_by kind limit) part_of (λ s. within s limit) result }
{
    let string = read_blob(left, limit)?;
    if !obeys(model::part(left, string.value), kind) {
        return Err(Refusal::Utf8);
    }
    Ok(string)
}

// A string in UTF-8.
pub fn read_text(left: &[u8], limit: usize) -> Result<Read<Span>, Refusal>
    ensures { Finds left.now (text limit) part_of (λ s. within s limit) result }
{
    read_string(left, limit, StringKind::Text)
}

// A raise's text: a string in UTF-8 of at most 120 code points. One check of its bytes tells both.
pub fn read_raise_text(left: &[u8]) -> Result<Read<Span>, Refusal>
    ensures { Finds left.now raise_text part_of (λ s. within s text_limit) result }
{
    let string = read_blob(left, Record::TEXT)?;
    let Some(code_points) = utf8::check(model::part(left, string.value)) else {
        return Err(Refusal::Utf8);
    };
    let limit = Record::TEXT_CODE_POINTS;
    if code_points > limit {
        return Err(Refusal::CodePoints);
    }
    Ok(string)
}

// An optional string: byte 0, or byte 1 and the string.
pub fn read_option(
    left: &[u8],
    limit: usize,
    kind: StringKind,
) -> Result<Read<Option<Span>>, Refusal>
    ensures { Finds left.now (optional (string_by kind limit)) opt_part (λ s. opt_within s limit) result }
{
    let Read { value: mark, next } = read_choice(left, 0, 1)?;
    if mark == 0 {
        return Ok(Read { value: None, next });
    }
    let Read { value, next } = read_string(&left[next..], limit, kind)?.behind(next);
    Ok(Read {
        value: Some(value),
        next,
    })
}

// ---- causes

// A cause: a string in UTF-8, and the cause that it is.
pub fn read_cause(left: &[u8]) -> Result<Read<CauseSpan>, Refusal>
    ensures { Finds left.now cause_text cause_part cause_within result }
{
    let Read {
        value: string,
        next,
    } = read_text(left, Record::CAUSE)?;
    let value = match cause::cause_of(model::part(left, string)) {
        Some(Cause::Name(k)) => CauseSpan::Name(k),
        Some(Cause::Other { at, len }) => CauseSpan::Other(Span {
            at: string.at + at,
            len,
        }),
        None => return Err(Refusal::Cause),
    };
    Ok(Read { value, next })
}

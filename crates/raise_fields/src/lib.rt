// The fields of a raise and of a clear: operations 1 and 2.
//
// Both name an alarm by its type and the fields of `read_key`; a raise has more before them, its head, and behind them, the text and the
// details. It has two rules of its own: a region that is there and has no byte is refused with 29, before the text is read, and a text of
// more than 120 code points with 33, before the details are.
// specs/Meaning.antt says which value of the definition each struct means, and within which limits its spans lie: who puts them into a
// record relies on these.
#![tactic(auto)]

ghost use Rattle.std.specs.Prelude.{◌≡◌};
ghost use Rattle.definition.specs.Parse.{raise_head, raise_fields, clear_fields};
ghost use Rattle.fields.specs.Reading.{Reads};
ghost use Rattle.raise_fields.specs.Meaning.{head_value, raise_value, clear_value, named_span, HeadWithin, RaiseWithin, ClearWithin};

use fields::{Reader, StringKind};
use key_fields::read_key;
use model::{KeyFields, Record, Refusal, Span};

// How a raise begins.
#[derive(Clone, Copy)]
pub struct RaiseHead {
    pub time: u64,
    pub id: Span,
    pub alarm_type: Span,
    pub severity: u8,
}

#[derive(Clone, Copy)]
pub struct Raise {
    pub head: RaiseHead,
    pub key: KeyFields,
    pub text: Span,
    pub details: Option<Span>,
}

#[derive(Clone, Copy)]
pub struct Clear {
    pub time: u64,
    pub alarm_type: Span,
    pub key: KeyFields,
}

// ---- raise

#[tactic(auto, using(fields::specs::ReadingLaws::row_is), unfolding(definition::specs::Parse::raise_head))]
fn read_head(reader: &mut Reader) -> Result<RaiseHead, Refusal>
    ensures { Reads reader.old reader.new raise_head head_value HeadWithin result }
{
    let time = reader.number(8)?;
    let id = reader.text(Record::SHORT)?;
    let alarm_type = reader.text(Record::SHORT)?;
    let severity = reader.choice(0, 5)?;
    Ok(RaiseHead {
        time,
        id,
        alarm_type,
        severity,
    })
}

// Whether a region has a byte, where there is one.
fn is_named(region: Option<Span>) -> bool
    ensures { result ≡ named_span region }
{
    region.is_none_or(|span| 0 < span.len)
}

// The fields of a raise.
#[tactic(auto, using(crate::proofs::Body::rows), unfolding(definition::specs::Parse::raise_fields, definition::specs::Parse::raise_body))]
pub fn read_raise(reader: &mut Reader) -> Result<Raise, Refusal>
    ensures { Reads reader.old reader.new raise_fields raise_value RaiseWithin result }
{
    let head = read_head(reader)?;
    let key = read_key(reader)?;
    if !is_named(key.places.region) {
        return Err(Refusal::Region);
    }
    let text = reader.raise_text()?;
    let details = reader.option(Record::DETAILS, StringKind::Blob)?;
    Ok(Raise {
        head,
        key,
        text,
        details,
    })
}

// ---- clear

// The fields of a clear.
#[tactic(auto, using(fields::specs::ReadingLaws::row_is), unfolding(definition::specs::Parse::clear_fields))]
pub fn read_clear(reader: &mut Reader) -> Result<Clear, Refusal>
    ensures { Reads reader.old reader.new clear_fields clear_value ClearWithin result }
{
    let time = reader.number(8)?;
    let alarm_type = reader.text(Record::SHORT)?;
    let key = read_key(reader)?;
    Ok(Clear {
        time,
        alarm_type,
        key,
    })
}

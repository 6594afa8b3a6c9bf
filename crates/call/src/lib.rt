// A call read whole: its operation byte, then its fields in order, and nothing after.
//
// `parse` answers the operation with its fields, as numbers and as spans of the call's bytes; or the call's first refusal, one of 23 to 29, 33
// and 34. What the outcome means on these bytes, `outcome_value` in specs/Meaning.antt, is what the definition's `parse_call` gives
// (Parse.antt), and every span lies in the call, within its limit: operations look at their bytes and test nothing.
//
// The fields of each operation are read by the crate of its fields. A new operation is a variant of `Parsed`, with its lines in `meaning` and
// `parsed_within`, and in `parsed_flags` where it has flags, an arm of `read_operation`, and a law in proofs/EachOperation.antt.
#![tactic(auto)]

ghost use Rattle.std.specs.Prelude.{◌≡◌, IfOk};
ghost use Rattle.definition.specs.Parse.{severity_or_all, until_fields, fields_of, parse_call};
ghost use Rattle.fields.specs.Reading.{Reads, itself, anywhere};
ghost use Rattle.call.specs.Meaning.{said, parsed_within, parsed_flags, later, Means};

use action_fields::{Plain, Policy, read_plain, read_policy, read_policy_from};
use fields::{Reader, StringKind};
use model::{Action, Deed, Record, Refusal, Span};
use raise_fields::{Clear, Raise, read_clear, read_raise};

// A call.
#[derive(Clone, Copy)]
pub enum Parsed {
    Raise(Raise),
    Clear(Clear),
    Plain(Action, Plain),
    Policy(Deed, Policy),
    Expire(u64),
    // A severity, or 255 for all, as the call and the active list have it.
    Active(u8),
    History {
        tenant: Option<Span>,
        slice: Option<Span>,
    },
    Counts,
    Summary,
    TakeAudit(u16),
    Lift(u64),
}

// A severity, or 255 for all.
#[tactic(auto, using(fields::specs::ReadingLaws::row_is), unfolding(definition::specs::Parse::severity_or_all))]
fn read_severity_or_all(reader: &mut Reader) -> Result<u8, Refusal>
    ensures { Reads reader.old reader.new severity_or_all itself anywhere result }
{
    let severity = reader.number(1)? as u8;
    if severity > 5 && severity != 255 {
        return Err(Refusal::Value);
    }
    Ok(severity)
}

// A suppression until its end: the call's time, the end, and the fields that operation 6 has behind its time.
#[tactic(auto, using(fields::specs::ReadingLaws::row_is), unfolding(definition::specs::Parse::until_fields))]
fn read_until(reader: &mut Reader) -> Result<Parsed, Refusal>
    ensures reads { Reads reader.old reader.new until_fields said parsed_within result }
    ensures flags { IfOk result parsed_flags }
{
    let time = reader.number(8)?;
    let end = reader.number(8)?;
    let policy = read_policy_from(reader, time)?;
    Ok(Parsed::Policy(Deed::Until(end), policy))
}

// The fields of an operation.
#[tactic(auto, using(crate::proofs::EachOperation::operations), unfolding(definition::specs::Parse::history_fields, definition::specs::Reader::into))]
fn read_operation(reader: &mut Reader, operation: u8) -> Result<Parsed, Refusal>
    ensures reads { Reads reader.old reader.new (fields_of operation) said parsed_within result }
    ensures flags { IfOk result parsed_flags }
{
    let parsed = match operation {
        1 => Parsed::Raise(read_raise(reader)?),
        2 => Parsed::Clear(read_clear(reader)?),
        3 => Parsed::Plain(Action::Acknowledge, read_plain(reader)?),
        4 => Parsed::Plain(Action::Suppress, read_plain(reader)?),
        5 => Parsed::Policy(Deed::Untimed(Action::Acknowledge), read_policy(reader)?),
        6 => Parsed::Policy(Deed::Untimed(Action::Suppress), read_policy(reader)?),
        7 => Parsed::Expire(reader.number(8)?),
        8 => Parsed::Active(read_severity_or_all(reader)?),
        9 => Parsed::History {
            tenant: reader.option(Record::SHORT, StringKind::Text)?,
            slice: reader.option(Record::SHORT, StringKind::Text)?,
        },
        10 => Parsed::Counts,
        11 => Parsed::Summary,
        12 => Parsed::TakeAudit(reader.number(2)? as u16),
        13 => read_until(reader)?,
        14 => Parsed::Lift(reader.number(8)?),
        _ => return Err(Refusal::Operation),
    };
    Ok(parsed)
}

// Whether a suppression's end is later than the call's time, where a call has one.
fn ends_later(parsed: Parsed) -> bool
    ensures { result ≡ later parsed }
{
    match parsed {
        Parsed::Policy(Deed::Until(end), policy) => time::is_before(policy.actor.time, end),
        _ => true,
    }
}

// What a call says. An end that is not later is refused last: a fault of a field and bytes left over come before it.
#[tactic(auto, using(crate::proofs::Whole::whole))]
pub fn parse(call: &[u8]) -> Result<Parsed, Refusal>
    ensures means { Means call.now result (parse_call call.now) }
    ensures flags { IfOk result parsed_flags }
{
    let Some(operation) = call.first() else {
        return Err(Refusal::Operation);
    };
    let mut reader = Reader::new(call, 1);
    let parsed = read_operation(&mut reader, *operation)?;
    if !reader.is_done() {
        return Err(Refusal::CallLength);
    }
    if !ends_later(parsed) {
        return Err(Refusal::End);
    }
    Ok(parsed)
}

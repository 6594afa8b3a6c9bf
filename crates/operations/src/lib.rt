// What was read of a call, on a sound register: room for its answer, and then its operation.
//
// `perform` is the definition's `perform` (crates/definition/specs/Perform.antt). The answer's room is one test before the dispatch: operations 1 to 7, 11, 13 and 14 ask
// for a head and a record, whatever they will answer (30); the others know their answer's size when they have made it, and test it themselves. The
// dispatch has one line for each operation. A raise and a clear are searched for here, along the active chain, and their steps are given
// what was found (`raising::raise_at`, `state::clear_at`). A new operation is a line of the dispatch, one of `asks_record`, and a crate.
// Next: specs/RoomLaws.antt, and the crate of the operation that you look for.
#![tactic(auto)]

ghost use Rattle.std.specs.Prelude.{◌≡◌, length, Ok};
ghost use Rattle.octets.specs.Bytes.{Bytes};
ghost use Rattle.definition.specs.Value.{op_of};
ghost use Rattle.definition.specs.Clauses.Does.{Answers};
ghost use Rattle.definition.specs.Steps as S;
ghost use Rattle.definition.specs.Perform.{asks_record, perform as performed};
ghost use Rattle.raise_fields.specs.Meaning.{raise_value, clear_value};
ghost use Rattle.call.specs.Meaning.{meaning, outcome_value};
ghost use Rattle.raising.specs.Meaning.{Ready};
ghost use Rattle.state.specs.Meaning.{Clearing};
ghost use Rattle.reply.specs.Meaning.{Replies};
ghost use Rattle.operations.specs.Meaning.{Called, HasRoom, with_room};

use call::Parsed;
use model::{Answer, Record, Refusal};
use raise_fields::{Clear, Raise};
use register::Ends;
use reply::Reply;

// A head and a record.
const ROOM: usize = Answer::HEAD + Record::WIDTH;

// ---- 1 and 2: a step, given what the search for the key found

fn raise(register: &mut [u8], ends: Ends, call: &[u8], r: Raise, answer: &mut [u8]) -> Reply
    requires { Ready register.old ends call.now r answer.old }
    ensures { Replies
        result
        (S.raise (raise_value call.now r))
        register.old
        register.new
        answer.old
        answer.new }
{
    let about = r.key;
    let key = key::key_of(call, r.head.alarm_type, about);
    let found = register::find_key(register, &key);
    raising::raise_at(register, ends, call, r, &key, found, answer)
}

fn clear(register: &mut [u8], ends: Ends, call: &[u8], c: Clear, answer: &mut [u8]) -> usize
    requires { Clearing register.old ends call.now c answer.old }
    ensures { Answers
        (S.clear (clear_value call.now c))
        register.old
        register.new
        answer.old
        answer.new
        result }
{
    let about = c.key;
    let key = key::key_of(call, c.alarm_type, about);
    let found = register::find_key(register, &key);
    state::clear_at(register, ends, call, c, &key, found, answer)
}

// ---- room for the answer

// Whether a call asks for room for a record before its step: operations 1 to 7, 11, 13 and 14.
fn asks_record(parsed: Parsed) -> bool
    ensures { (call : Bytes) → result ≡ asks_record (op_of (meaning call parsed)) }
{
    match parsed {
        Parsed::Raise(_) => true,
        Parsed::Clear(_) => true,
        Parsed::Plain(_, _) => true,
        Parsed::Policy(_, _) => true,
        Parsed::Expire(_) => true,
        Parsed::Active(_) => false,
        Parsed::History {
            tenant: _,
            slice: _,
        } => false,
        Parsed::Counts => false,
        Parsed::Summary => true,
        Parsed::TakeAudit(_) => false,
        Parsed::Lift(_) => true,
    }
}

// ---- the operations

// The operation of a call, where there is room for a record if it asks for one.
fn dispatch(
    register: &mut [u8],
    ends: Ends,
    call: &[u8],
    parsed: Parsed,
    answer: &mut [u8],
) -> Reply
    requires called { Called register.old ends call.now (Ok parsed) }
    requires has_room { HasRoom (meaning call.now parsed) (length answer.old) }
    ensures { Replies
        result
        (with_room (meaning call.now parsed) (length answer.old))
        register.old
        register.new
        answer.old
        answer.new }
{
    match parsed {
        Parsed::Raise(r) => raise(register, ends, call, r, answer),
        Parsed::Clear(c) => Ok(clear(register, ends, call, c, answer)),
        Parsed::Plain(action, p) => Ok(state::plain(register, ends, call, p, action, answer)),
        Parsed::Policy(deed, p) => Ok(admin::apply_admin_action(
            register, ends, call, p, deed, answer,
        )),
        Parsed::Expire(cutoff) => Ok(expiry::expire(register, ends, cutoff, answer)),
        Parsed::Active(severity) => alarm_lists::active_list(register, severity, answer),
        Parsed::History { tenant, slice } => alarm_lists::history_list(
            register, call, tenant, slice, answer,
        ),
        Parsed::Counts => metrics::counts(register, answer),
        Parsed::Summary => Ok(metrics::summary(register, answer)),
        Parsed::TakeAudit(n) => audit_log::take_audit(register, n, answer),
        Parsed::Lift(cutoff) => Ok(expiry::lift(register, ends, cutoff, answer)),
    }
}

// A call that was read: 30 where there is no room for a record that it asks for, else its operation.
fn perform_call(
    register: &mut [u8],
    ends: Ends,
    call: &[u8],
    parsed: Parsed,
    answer: &mut [u8],
) -> Reply
    requires { Called register.old ends call.now (Ok parsed) }
    ensures { Replies
        result
        (performed (meaning call.now parsed) (length answer.old))
        register.old
        register.new
        answer.old
        answer.new }
{
    let lacks = answer.len() < ROOM;
    if asks_record(parsed) & lacks {
        return Err(Refusal::AnswerLength);
    }
    dispatch(register, ends, call, parsed, answer)
}

// What was read of a call, on a sound register and its chains' ends. What was refused as it was read stays refused.
#[tactic(auto, using(crate::specs::RoomLaws::stays_refused))]
pub fn perform(
    register: &mut [u8],
    ends: Ends,
    call: &[u8],
    outcome: Result<Parsed, Refusal>,
    answer: &mut [u8],
) -> Reply
    requires { Called register.old ends call.now outcome }
    ensures { Replies
        result
        (performed (outcome_value call.now outcome) (length answer.old))
        register.old
        register.new
        answer.old
        answer.new }
{
    let parsed = outcome?;
    perform_call(register, ends, call, parsed, answer)
}

// Operation 1, a raise, given what a search for its key found.
//
// The search is the caller's: along the active chain for a single call (crates/operations), and it may be another where many calls come
// together. `raise_at` is the definition's `raise_at`: an alarm that was found is updated in its place; else a new one is stored, unless
// the active chain is full (code 5) or the id is active (31). It has room for a record in the answer, and the chains' ends, from its
// caller. The payloads are made by `changes` and `build`, and go to the register by `history`. Next: specs/RaiseLaws.antt has the step as the code's
// moves make it, one law for each way.
#![tactic(auto)]

ghost use Rattle.std.specs.Prelude.{◌≡◌, T};
ghost use Rattle.definition.specs.Chain.{present, first};
ghost use Rattle.definition.specs.Alarm.{has_key, has_id};
ghost use Rattle.definition.specs.Limits.{short_limit};
ghost use Rattle.definition.specs.Sound.{station, sound};
ghost use Rattle.definition.specs.Steps as S;
ghost use Rattle.definition.specs.Clauses.Does.{Answers};
ghost use Rattle.model.specs.Meaning.{part, within};
ghost use Rattle.raise_fields.specs.Meaning.{raise_value};
ghost use Rattle.register.specs.Search.{Finds};
ghost use Rattle.history.specs.Meaning.{OnActive, ActiveRoom};
ghost use Rattle.reply.specs.Meaning.{Replies};
ghost use Rattle.raising.specs.Meaning.{Ready, updates_at, raises_new};

use answers::Code;
use changes::News;
use model::{Key, Record, Refusal, Span};
use raise_fields::Raise;
use register::{Chain, Ends, Found};
use reply::Reply;

// Active record i has the key.
fn update(
    register: &mut [u8],
    i: u32,
    ends: Ends,
    call: &[u8],
    r: Raise,
    answer: &mut [u8],
) -> usize
    requires { Ready register.old ends call.now r answer.old × OnActive register.old i }
    ensures { Answers
        (updates_at register.old i (raise_value call.now r))
        register.old
        register.new
        answer.old
        answer.new
        result }
{
    let news = News {
        time: r.head.time,
        severity: r.head.severity,
        text: r.text,
        details: r.details,
    };
    let mut p = state::load(register, i);
    changes::updated_by(&mut p, call, news);
    history::revise(register, i, ends, &p);
    answers::put_alarm(answer, Code::Updated as u8, &p)
}

// Whether an active alarm has the id.
fn is_active(register: &[u8], call: &[u8], id: Span) -> bool
    requires { T (sound register.now) × within call.now short_limit id }
    ensures { result
        ≡ present (first (has_id (part call.now id)) (station register.now).active) }
{
    register::find_id(register, model::part(call, id)).is_some()
}

// A new alarm, where there is room on the active chain.
fn insert(
    register: &mut [u8],
    ends: Ends,
    call: &[u8],
    r: Raise,
    key: &Key,
    answer: &mut [u8],
) -> Reply
    requires { Ready register.old ends call.now r answer.old
        × ActiveRoom register.old ends.active }
    ensures { Replies
        result
        (S.store_new (S.new_alarm (raise_value call.now r) key.now))
        register.old
        register.new
        answer.old
        answer.new }
{
    if is_active(register, call, r.head.id) {
        return Err(Refusal::IdActive);
    }
    let mut p = [0u8; Record::PAYLOAD];
    build::alarm_into(&mut p, key, call, r);
    history::store(register, ends, &p);
    Ok(answers::put_alarm(answer, Code::Raised as u8, &p))
}

// No active alarm has the key.
fn raise_new(
    register: &mut [u8],
    ends: Ends,
    call: &[u8],
    r: Raise,
    key: &Key,
    answer: &mut [u8],
) -> Reply
    requires { Ready register.old ends call.now r answer.old }
    ensures { Replies
        result
        (raises_new (raise_value call.now r) key.now)
        register.old
        register.new
        answer.old
        answer.new }
{
    let limit = register::limit(register, Chain::Active);
    if limit <= register::held(register, Chain::Active) {
        return Ok(answers::put_limit(answer, key, limit as u64));
    }
    insert(register, ends, call, r, key, answer)
}

// A raise whose key was looked for, in whatever way.
pub fn raise_at(
    register: &mut [u8],
    ends: Ends,
    call: &[u8],
    r: Raise,
    key: &Key,
    found: Option<Found>,
    answer: &mut [u8],
) -> Reply
    requires { Ready register.old ends call.now r answer.old
        × Finds (has_key key.now) register.old found }
    ensures { Replies
        result
        (S.raise_at
        (raise_value call.now r)
        key.now
        (first (has_key key.now) (station register.old).active))
        register.old
        register.new
        answer.old
        answer.new }
{
    match found {
        Some(found) => Ok(update(register, found.at, ends, call, r, answer)),
        None => raise_new(register, ends, call, r, key, answer),
    }
}

// Operations 2, 3 and 4: the manager's steps on one active alarm, clear, acknowledge and suppress without a policy.
//
// Each takes the alarm's payload out of its record (`load`), changes it there (crates/changes) and puts it back or into history
// (crates/history), and answers. `act` is the step of an acknowledgement or a suppression on a record that was found; the policy gate
// (crates/admin) ends in it too. `clear_at` is the definition's `clear_at`: it is given what a search for the key found, and the search is the
// caller's. Next: specs/ActLaws.antt and specs/ClearLaws.antt, the steps as the code's moves make them.
#![tactic(auto)]

ghost use Rattle.std.specs.Prelude.{◌≡◌, ◌≤◌, T, length};
ghost use Rattle.definition.specs.Limits.{short_limit};
ghost use Rattle.definition.specs.Chain.{entry, first};
ghost use Rattle.definition.specs.Alarm.{has_key};
ghost use Rattle.definition.specs.Record.{last_active};
ghost use Rattle.definition.specs.Book.{record_of};
ghost use Rattle.definition.specs.Steps as S;
ghost use Rattle.definition.specs.Answer.{Unauthorized, answer_bytes};
ghost use Rattle.definition.specs.Sound.{station, sound};
ghost use Rattle.definition.specs.Clauses.Moves.{CanRelease};
ghost use Rattle.definition.specs.Clauses.Does.{Answers};
ghost use Rattle.octets.specs.Put.{Put};
ghost use Rattle.answers.specs.Code.{code_number};
ghost use Rattle.model.specs.Meaning.{within, action_of, deed_of};
ghost use Rattle.raise_fields.specs.Meaning.{clear_value};
ghost use Rattle.action_fields.specs.Meaning.{plain_value};
ghost use Rattle.register.specs.Search.{alarm_at, Finds};
ghost use Rattle.history.specs.Meaning.{IsAlarm, Newest, OnActive};
ghost use Rattle.state.specs.Meaning.{Authorised, Clearing, EndsInTime, action_code, cleared_at};

use action_fields::Plain;
use answers::Code;
use model::{Action, Deed, Key, Payload};
use raise_fields::Clear;
use register::{Ends, Found};

// Active record i's payload, copied.
pub fn load(register: &[u8], i: u32) -> Payload
    requires { T (sound register.now) × OnActive register.now i }
    ensures { (result ≡ (record_of register.now i).content) × IsAlarm last_active result }
{
    *register::payload(register, i)
}

// ---- 3 acknowledge, 4 suppress

fn code_of(action: Action) -> Code
    ensures { code_number result ≡ action_code (action_of action) }
{
    match action {
        Action::Acknowledge => Code::Acknowledged,
        Action::Suppress => Code::Suppressed,
    }
}

// Active record i is acknowledged or suppressed.
pub fn act(
    register: &mut [u8],
    i: u32,
    ends: Ends,
    deed: Deed,
    time: u64,
    answer: &mut [u8],
) -> usize
    requires { Newest register.old ends.history
        × OnActive register.old i
        × EndsInTime deed
        × (1552 ≤ length answer.old) }
    ensures { Answers
        (S.act (deed_of deed) time (entry i (alarm_at register.old i)))
        register.old
        register.new
        answer.old
        answer.new
        result }
{
    let mut p = load(register, i);
    changes::acted_on(&mut p, deed, time);
    history::revise(register, i, ends, &p);
    let code = code_of(model::action_of(deed));
    answers::put_alarm(answer, u8::from(code), &p)
}

fn not_authorized(answer: &mut [u8], action: Action) -> usize
    requires { 1552 ≤ length answer.old }
    ensures { Put
        answer.old
        0
        (answer_bytes (Unauthorized (S.not_authorized (action_of action))))
        result
        answer.new }
{
    let message: &[u8] = match action {
        Action::Acknowledge => b"acknowledge not authorized",
        Action::Suppress => b"suppress not authorized",
    };
    answers::put_text(answer, Code::Unauthorized as u8, message)
}

// The alarm with the id, if it is active; the call says that it is authorised.
fn plain_on(
    register: &mut [u8],
    ends: Ends,
    id: &[u8],
    time: u64,
    action: Action,
    answer: &mut [u8],
) -> usize
    requires { Newest register.old ends.history
        × (length id.now ≤ short_limit)
        × (1552 ≤ length answer.old) }
    ensures { Authorised
        (action_of action)
        time
        id.now
        register.old
        register.new
        answer.old
        answer.new
        result }
{
    match register::find_id(register, id) {
        Some(found) => act(
            register,
            found.at,
            ends,
            Deed::Untimed(action),
            time,
            answer,
        ),
        None => answers::put_text(answer, Code::NotFound as u8, id),
    }
}

pub fn plain(
    register: &mut [u8],
    ends: Ends,
    call: &[u8],
    p: Plain,
    action: Action,
    answer: &mut [u8],
) -> usize
    requires { Newest register.old ends.history
        × within call.now short_limit p.id
        × (1552 ≤ length answer.old) }
    ensures { Answers
        (S.plain (action_of action) (plain_value call.now p))
        register.old
        register.new
        answer.old
        answer.new
        result }
{
    if action_fields::says_no(p.authorised) {
        return not_authorized(answer, action);
    }
    plain_on(
        register,
        ends,
        model::part(call, p.id),
        p.time,
        action,
        answer,
    )
}

// ---- 2 clear

// Active record i, which follows `previous`, is cleared.
fn clear_found(
    register: &mut [u8],
    i: u32,
    previous: u32,
    ends: Ends,
    time: u64,
    answer: &mut [u8],
) -> usize
    requires { Newest register.old ends.history
        × CanRelease register.old 0 i previous
        × (1552 ≤ length answer.old) }
    ensures { Answers
        (cleared_at time (entry i (alarm_at register.old i)))
        register.old
        register.new
        answer.old
        answer.new
        result }
{
    let mut p = load(register, i);
    changes::cleared_by(&mut p, time);
    history::retire(register, i, previous, ends, &p);
    answers::put_text(answer, Code::Cleared as u8, record::id(&p))
}

// A clear whose key was looked for, in whatever way.
pub fn clear_at(
    register: &mut [u8],
    ends: Ends,
    call: &[u8],
    c: Clear,
    key: &Key,
    found: Option<Found>,
    answer: &mut [u8],
) -> usize
    requires { Clearing register.old ends call.now c answer.old
        × Finds (has_key key.now) register.old found }
    ensures { Answers
        (S.clear_at
        (clear_value call.now c)
        key.now
        (first (has_key key.now) (station register.old).active))
        register.old
        register.new
        answer.old
        answer.new
        result }
{
    match found {
        Some(Found { at, previous }) => clear_found(register, at, previous, ends, c.time, answer),
        None => answers::put_without(answer, key, call, c.key.cause),
    }
}

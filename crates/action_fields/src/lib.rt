// The fields of an acknowledgement or a suppression, without and with a policy: operations 3 to 6 and 13.
//
// An acknowledgement and a suppression have the same fields, so that nothing here depends on the action: `call` keeps it beside them. The
// end of operation 13 stands between the call's time and the other fields, so these can be read behind a time that was read before.
// With a policy, a call says who asks (the actor), why and for what (the request), and what the authoriser answered (the verdict).
// specs/Meaning.antt says which value of the definition each struct means, and within which limits its spans lie: who puts them into an
// audit event relies on these.
#![tactic(auto)]

ghost use Rattle.std.specs.Prelude.{◌≡◌, IfOk, eqb};
ghost use Rattle.definition.specs.Parse.{plain_fields, scope, actor, request, verdict, policy_from, policy_fields};
ghost use Rattle.fields.specs.Reading.{Reads};
ghost use Rattle.action_fields.specs.Meaning.{plain_value, scope_value, actor_value, request_value, verdict_value, policy_value};
ghost use Rattle.action_fields.specs.Meaning.{plain_flag, verdict_flags, plain_within, scope_within, ActorWithin, RequestWithin, verdict_within, PolicyWithin};

use fields::{Reader, StringKind};
use model::{Record, Refusal, Span};

// Whether a flag says no. A call's flag is 0 or 1; of any byte, 0 alone says no.
pub fn says_no(flag: u8) -> bool
    ensures { result ≡ eqb flag 0 }
{
    flag == 0
}

// An acknowledgement or a suppression without a policy.
#[derive(Clone, Copy)]
pub struct Plain {
    pub time: u64,
    pub id: Span,
    pub authorised: u8,
}

// What is asked for: one alarm by its id, the alarms of a tenant, or all.
#[derive(Clone, Copy)]
pub enum Scope {
    Alarm(Span),
    Tenant(Span),
    Global,
}

// Who asks, when, and for which alarm.
#[derive(Clone, Copy)]
pub struct Actor {
    pub time: u64,
    pub id: Span,
    pub principal: Span,
    pub tenant: Option<Span>,
}

// Why, and for what.
#[derive(Clone, Copy)]
pub struct Request {
    pub reason: Span,
    pub scope: Scope,
    pub correlation: Option<Span>,
}

// What the authoriser answered.
#[derive(Clone, Copy)]
pub struct Verdict {
    pub critical_allowed: u8,
    pub authorised: u8,
    pub denial: Span,
}

#[derive(Clone, Copy)]
pub struct Policy {
    pub actor: Actor,
    pub request: Request,
    pub verdict: Verdict,
}

// ---- 3 acknowledge, 4 suppress

// The fields of operations 3 and 4.
#[tactic(auto, using(fields::specs::ReadingLaws::row_is), unfolding(definition::specs::Parse::plain_fields))]
pub fn read_plain(reader: &mut Reader) -> Result<Plain, Refusal>
    ensures reads { Reads reader.old reader.new plain_fields plain_value plain_within result }
    ensures flag { IfOk result plain_flag }
{
    let time = reader.number(8)?;
    let id = reader.text(Record::SHORT)?;
    let authorised = u8::from(reader.flag()?);
    Ok(Plain {
        time,
        id,
        authorised,
    })
}

// ---- 5, 6 the same with policy, and 13

// A kind, and the string of the kinds 0 and 1.
#[tactic(auto, using(crate::proofs::EachScope::scopes), unfolding(definition::specs::Parse::scope, definition::specs::Reader::into))]
fn read_scope(reader: &mut Reader) -> Result<Scope, Refusal>
    ensures { Reads reader.old reader.new scope scope_value scope_within result }
{
    let scope = match reader.choice(0, 2)? {
        0 => Scope::Alarm(reader.text(Record::SHORT)?),
        1 => Scope::Tenant(reader.text(Record::SHORT)?),
        _ => Scope::Global,
    };
    Ok(scope)
}

// Id, principal and tenant, behind the call's time.
#[tactic(auto, using(fields::specs::ReadingLaws::row_is), unfolding(definition::specs::Parse::actor))]
fn read_actor(reader: &mut Reader, time: u64) -> Result<Actor, Refusal>
    ensures reads { Reads reader.old reader.new (actor time) actor_value ActorWithin result }
    ensures time { IfOk result (λ a. a.time ≡ time) }
{
    let id = reader.text(Record::SHORT)?;
    let principal = reader.text(Record::SHORT)?;
    let tenant = reader.option(Record::SHORT, StringKind::Text)?;
    Ok(Actor {
        time,
        id,
        principal,
        tenant,
    })
}

#[tactic(auto, using(fields::specs::ReadingLaws::row_is), unfolding(definition::specs::Parse::request))]
fn read_request(reader: &mut Reader) -> Result<Request, Refusal>
    ensures { Reads reader.old reader.new request request_value RequestWithin result }
{
    let reason = reader.text(Record::TEXT)?;
    let scope = read_scope(reader)?;
    let correlation = reader.option(Record::SHORT, StringKind::Text)?;
    Ok(Request {
        reason,
        scope,
        correlation,
    })
}

#[tactic(auto, using(fields::specs::ReadingLaws::row_is), unfolding(definition::specs::Parse::verdict))]
fn read_verdict(reader: &mut Reader) -> Result<Verdict, Refusal>
    ensures reads { Reads reader.old reader.new verdict verdict_value verdict_within result }
    ensures flags { IfOk result verdict_flags }
{
    let critical_allowed = u8::from(reader.flag()?);
    let authorised = u8::from(reader.flag()?);
    let denial = reader.text(Record::REGION)?;
    Ok(Verdict {
        critical_allowed,
        authorised,
        denial,
    })
}

// The fields of operations 5, 6 and 13 behind the call's time, and behind the end that 13 has.
#[tactic(auto, using(fields::specs::ReadingLaws::row_is), unfolding(definition::specs::Parse::policy_from))]
pub fn read_policy_from(reader: &mut Reader, time: u64) -> Result<Policy, Refusal>
    ensures reads { Reads reader.old reader.new (policy_from time) policy_value PolicyWithin result }
    ensures time { IfOk result (λ p. p.actor.time ≡ time) }
    ensures flags { IfOk result (λ p. verdict_flags p.verdict) }
{
    let actor = read_actor(reader, time)?;
    let request = read_request(reader)?;
    let verdict = read_verdict(reader)?;
    Ok(Policy {
        actor,
        request,
        verdict,
    })
}

// The fields of operations 5 and 6.
#[tactic(auto, using(fields::specs::ReadingLaws::row_is), unfolding(definition::specs::Parse::policy_fields))]
pub fn read_policy(reader: &mut Reader) -> Result<Policy, Refusal>
    ensures reads { Reads reader.old reader.new policy_fields policy_value PolicyWithin result }
    ensures flags { IfOk result (λ p. verdict_flags p.verdict) }
{
    let time = reader.number(8)?;
    read_policy_from(reader, time)
}

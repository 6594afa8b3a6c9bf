// An alarm changed as a step changes it: by an action, a clear, an expiry, the end of its suppression, or a raise that finds its key active.
//
// Each function turns the payload of a sound alarm into that of the alarm which the definition's step makes of it
// (`acted_on`, `cleared_by`, `expired_by`, `lifted_by`, `updated_by` in definition, specs/Steps.antt). It is a row of setters of
// `record`, in which each gives what its field becomes; specs/ChangeLaws.antt joins them to the step's change. No
// function looks at a byte. What a raise brings to the alarm is `News`, so that this crate does not know the parser of
// raises.
#![tactic(auto)]

ghost use Rattle.std.specs.Prelude.{◌≡◌};
ghost use Rattle.definition.specs.Limits.{details_limit};
ghost use Rattle.definition.specs.Record.{last_active, alarm_bytes, read_alarm};
ghost use Rattle.definition.specs.Steps.{updated_state, one_more_raise, cleared_by, acted_on, expired_by, lifted_by};
ghost use Rattle.definition.specs.Value.{deed_end};
ghost use Rattle.definition.specs.Alarm.{with_details, with_end};
ghost use Rattle.model.specs.Meaning.{opt_part, opt_within, deed_of};
ghost use Rattle.history.specs.Meaning.{IsAlarm};
ghost use Rattle.changes.specs.Meaning.{Turns, NewsWithin, news_of, updated_with};

use model::{Deed, Payload, Span};
use record::{Severity, State};

// ---- "Plain 3, 4": the state of the action, the later time, and operation 13's end

// The end of a timed suppression; any other removes it.
fn set_end(p: &mut Payload, deed: Deed)
    ensures { Turns (with_end (deed_end (deed_of deed))) p.old p.new }
{
    match deed {
        Deed::Untimed(_) => record::no_end(p),
        Deed::Until(end) => record::set_end(p, end),
    }
}

pub fn acted_on(p: &mut Payload, deed: Deed, time: u64)
    requires { IsAlarm last_active p.old }
    ensures { p.new ≡ alarm_bytes (acted_on (deed_of deed) time (read_alarm p.old)) }
{
    let t = time::late(time, record::raised_at(p));
    let state = State::from(model::action_of(deed));
    record::set_state(p, u8::from(state));
    record::set_updated(p, t);
    set_end(p, deed);
}

// ---- "Clear": state 4, severity 0, cleared_at and updated_at late, no end

pub fn cleared_by(p: &mut Payload, time: u64)
    requires { IsAlarm last_active p.old }
    ensures { p.new ≡ alarm_bytes (cleared_by time (read_alarm p.old)) }
{
    let t = time::late(time, record::raised_at(p));
    record::set_severity(p, Severity::Cleared as u8);
    record::set_state(p, State::Cleared as u8);
    record::set_updated(p, t);
    record::set_cleared(p, t);
    record::no_end(p);
}

// ---- "Expire": state 5, updated_at and cleared_at the cutoff, no end

pub fn expired_by(p: &mut Payload, cutoff: u64)
    requires { IsAlarm last_active p.old }
    ensures { p.new ≡ alarm_bytes (expired_by cutoff (read_alarm p.old)) }
{
    record::set_state(p, State::Expired as u8);
    record::set_updated(p, cutoff);
    record::set_cleared(p, cutoff);
    record::no_end(p);
}

// ---- operation 14: state 1, the later of cutoff and raised_at, no end

pub fn lifted_by(p: &mut Payload, cutoff: u64)
    requires { IsAlarm last_active p.old }
    ensures { p.new ≡ alarm_bytes (lifted_by cutoff (read_alarm p.old)) }
{
    let t = time::late(cutoff, record::raised_at(p));
    record::set_state(p, State::Updated as u8);
    record::set_updated(p, t);
    record::no_end(p);
}

// ---- "Raise, key active": severity, text, details replaced, updated_at late, 0 and 1 become 1, 2 and 3 stay; one more raise

fn updated_state(state: u8) -> u8
    ensures { result ≡ updated_state state }
{
    if state == State::Raised as u8 {
        return State::Updated as u8;
    }
    state
}

const MOST_RAISES: u32 = 4294967295;

// Held at the most that the record has room for.
fn one_more_raise(raises: u32) -> u32
    ensures { result ≡ one_more_raise raises }
{
    raises.checked_add(1).unwrap_or(MOST_RAISES)
}

fn set_details(p: &mut Payload, call: &[u8], details: Option<Span>)
    requires { opt_within call.now details_limit details }
    ensures { Turns (with_details (opt_part call.now details)) p.old p.new }
{
    match details {
        None => record::no_details(p),
        Some(s) => record::set_details(p, model::part(call, s)),
    }
}

// What a raise brings to an alarm that is active.
#[derive(Clone, Copy)]
pub struct News {
    pub time: u64,
    pub severity: u8,
    pub text: Span,
    pub details: Option<Span>,
}

pub fn updated_by(p: &mut Payload, call: &[u8], news: News)
    requires { IsAlarm last_active p.old × NewsWithin call.now news }
    ensures { p.new
        ≡ alarm_bytes (updated_with (news_of call.now news) (read_alarm p.old)) }
{
    let t = time::late(news.time, record::raised_at(p));
    let s = updated_state(record::state(p));
    let n = one_more_raise(record::raises(p));
    record::set_severity(p, news.severity);
    record::set_text(p, model::part(call, news.text));
    set_details(p, call, news.details);
    record::set_state(p, s);
    record::set_updated(p, t);
    record::set_raises(p, n);
}

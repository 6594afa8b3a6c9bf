// Operations 7 and 14: alarms and suppressions whose time has come. An expiry takes each active alarm whose last update is before the cutoff into
// history; a lift makes each suppressed alarm updated whose end is not after it.
//
// Both are one sweep along the active chain: where the round takes a record, it is taken off the chain or changed where it stands, and put into
// history before the next is looked at. So the sweep reads the next index first: a freed record is the one that history takes. `Sweep`
// (specs/Sweep.antt) is what holds at each turn: the register is that of the definition's step on the part that is passed, and what is left of the
// chain is untouched. Next: specs/SweepLaws.antt, how a sweep starts, goes on and ends.
#![tactic(auto)]

ghost use Rattle.std.specs.Prelude.{◌≡◌, ◌+◌, ◌*◌, ◌≤◌, ◌<◌, length};
ghost use Rattle.definition.specs.Chain.{entry};
ghost use Rattle.definition.specs.Alarm.{has_ended, is_due, is_over};
ghost use Rattle.definition.specs.Steps.{retire_due, lift_over, expire as expiring, lift as lifting};
ghost use Rattle.definition.specs.Clauses.Moves.{CanRelease};
ghost use Rattle.definition.specs.Clauses.Does.{Answers};
ghost use Rattle.model.specs.Meaning.{opt_time};
ghost use Rattle.history.specs.Meaning.{Newest, OnActive, Files};
ghost use Rattle.history.specs.Walk.{alarm_at};
ghost use Rattle.expiry.specs.Sweep.{takes, step_of, kept_by, Swept, Passes};

use record::State;
use register::{Chain, Ends};

// What a sweep does to the alarms that it takes. An enum and no trait: the laws of a sweep (specs/SweepLaws.antt) tell the two rounds apart.
#[derive(Clone, Copy)]
enum Round {
    Expire,
    Lift,
}

// ---- which alarms a round takes

// Whether record i's alarm is due.
fn is_due(register: &[u8], i: u32, cutoff: u64) -> bool
    requires { 1536 * i + 1536 ≤ length register.now }
    ensures { result ≡ is_due cutoff (alarm_at register.now i) }
{
    time::is_before(record::updated_at(register::payload(register, i)), cutoff)
}

fn has_ended(end: Option<u64>, cutoff: u64) -> bool
    ensures { result ≡ has_ended cutoff (opt_time end) }
{
    match end {
        None => false,
        Some(t) => !time::is_before(cutoff, t),
    }
}

// Whether the suppression of record i's alarm is over.
fn is_over(register: &[u8], i: u32, cutoff: u64) -> bool
    requires { 1536 * i + 1536 ≤ length register.now }
    ensures { result ≡ is_over cutoff (alarm_at register.now i) }
{
    let p = register::payload(register, i);
    record::state(p) == State::Suppressed as u8 && has_ended(record::end(p), cutoff)
}

fn is_taken(register: &[u8], i: u32, round: Round, cutoff: u64) -> bool
    requires { 1536 * i + 1536 ≤ length register.now }
    ensures { result ≡ takes round cutoff (alarm_at register.now i) }
{
    match round {
        Round::Expire => is_due(register, i, cutoff),
        Round::Lift => is_over(register, i, cutoff),
    }
}

// ---- what a round does to them; each gives history's newest record

// Active record i, which follows `previous`, expires.
fn expire_at(register: &mut [u8], i: u32, previous: u32, ends: Ends, cutoff: u64) -> u32
    requires { Newest register.old ends.history × CanRelease register.old 0 i previous }
    ensures { Files
        (retire_due cutoff (entry i (alarm_at register.old i)))
        register.old
        register.new
        result }
{
    let mut p = state::load(register, i);
    changes::expired_by(&mut p, cutoff);
    history::retire(register, i, previous, ends, &p)
}

// Active record i is lifted.
fn lift_at(register: &mut [u8], i: u32, ends: Ends, cutoff: u64) -> u32
    requires { Newest register.old ends.history × OnActive register.old i }
    ensures { Files
        (lift_over cutoff (entry i (alarm_at register.old i)))
        register.old
        register.new
        result }
{
    let mut p = state::load(register, i);
    changes::lifted_by(&mut p, cutoff);
    history::revise(register, i, ends, &p)
}

fn take_at(register: &mut [u8], i: u32, previous: u32, ends: Ends, round: Round, cutoff: u64) -> u32
    requires { Newest register.old ends.history × CanRelease register.old 0 i previous }
    ensures { Files
        (step_of round cutoff (entry i (alarm_at register.old i)))
        register.old
        register.new
        result }
{
    match round {
        Round::Expire => expire_at(register, i, previous, ends, cutoff),
        Round::Lift => lift_at(register, i, ends, cutoff),
    }
}

// The last active record that stands before the next, once the round has taken the one at `at`, which follows `previous`.
fn kept_by(round: Round, previous: u32, at: u32) -> u32
    ensures { result ≡ kept_by round previous at }
{
    match round {
        Round::Expire => previous,
        Round::Lift => at,
    }
}

// ---- the sweep

// Where a sweep stands: the chains' ends, of which history's is true at each turn, the last active record that was passed and is still there, and
// how many were taken.
#[derive(Clone, Copy)]
struct Stand {
    ends: Ends,
    kept: u32,
    taken: u32,
}

// Record `at` is taken by the round, or left as it is.
fn pass(register: &mut [u8], at: u32, s: Stand, round: Round, cutoff: u64) -> Stand
    requires { Newest register.old s.ends.history
        × CanRelease register.old 0 at s.kept
        × (s.taken < 4294967295) }
    ensures { Passes round cutoff register.old register.new at s result }
{
    if !is_taken(register, at, round, cutoff) {
        return Stand { kept: at, ..s };
    }
    let newest = take_at(register, at, s.kept, s.ends, round, cutoff);
    Stand {
        ends: Ends {
            history: newest,
            ..s.ends
        },
        kept: kept_by(round, s.kept, at),
        taken: s.taken + 1,
    }
}

// All that the round takes, one by one; gives how many. No iterator: it would borrow the register, which changes on the way.
fn sweep(register: &mut [u8], ends: Ends, round: Round, cutoff: u64) -> u32
    requires { Newest register.old ends.history }
    ensures { Swept round cutoff register.old register.new result }
{
    let n = register::held(register, Chain::Active);
    let mut at = register::first(register, Chain::Active);
    let mut s = Stand {
        ends,
        kept: 0,
        taken: 0,
    };
    for _k in 0..n {
        let next = register::next(register, at);
        s = pass(register, at, s, round, cutoff);
        at = next;
    }
    s.taken
}

// ---- the operations

pub fn expire(register: &mut [u8], ends: Ends, cutoff: u64, answer: &mut [u8]) -> usize
    requires { Newest register.old ends.history × (1552 ≤ length answer.old) }
    ensures { Answers
        (expiring cutoff)
        register.old
        register.new
        answer.old
        answer.new
        result }
{
    let n = sweep(register, ends, Round::Expire, cutoff);
    answers::put_number(answer, n as u64)
}

pub fn lift(register: &mut [u8], ends: Ends, cutoff: u64, answer: &mut [u8]) -> usize
    requires { Newest register.old ends.history × (1552 ≤ length answer.old) }
    ensures { Answers
        (lifting cutoff)
        register.old
        register.new
        answer.old
        answer.new
        result }
{
    let n = sweep(register, ends, Round::Lift, cutoff);
    answers::put_number(answer, n as u64)
}

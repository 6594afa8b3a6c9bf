// Reads calls from the standard input, each behind its length in four bytes, and writes a line for each: what the parser says of it.
//
// The parser is proved to do what the definition says; this program is the witness that the definition says what documents 01 and 02
// mean. The files `stdin` and `stdout` are made by `python3 tests/calls/make.py`: calls good and damaged, and the lines of another reader
// of these documents. tests/calls/reading.py says how a line is written.
//
// A line is a word for the operation and a word for each of its fields, in their order: a number, or a string's bytes in hex behind an x.
// Nothing is claimed of what is written but that the program is safe and ends.
#![tactic(auto)]

use action_fields::{Plain, Policy, Scope};
use call::Parsed;
use model::{Action, AffectedObject, CauseSpan, Deed, KeyFields, Places, Span};
use raise_fields::{Clear, Raise};
use std::io;
use std::io::{Read, Write};

// ---- the words of a line: a blank, and a number or a string

fn say<W: Write>(writer: &mut W, text: &str) -> io::Result<()> {
    writer.write_all(text.as_bytes())
}

fn show_number<W: Write>(writer: &mut W, n: u64) -> io::Result<()> {
    write!(writer, " {n}")
}

// The word of an action, one of two.
fn say_action<W: Write>(
    writer: &mut W,
    action: Action,
    acknowledge: &str,
    suppress: &str,
) -> io::Result<()> {
    match action {
        Action::Acknowledge => say(writer, acknowledge),
        Action::Suppress => say(writer, suppress),
    }
}

fn show_numbered<W: Write>(writer: &mut W, word: &str, n: u64) -> io::Result<()> {
    say(writer, word)?;
    show_number(writer, n)
}

fn show_hex<W: Write>(writer: &mut W, s: &[u8]) -> io::Result<()> {
    for byte in s {
        write!(writer, "{byte:02x}")?;
    }
    Ok(())
}

// The n bytes of s from a on, or what stands in no expected line.
fn show_bytes<W: Write>(writer: &mut W, s: &[u8], a: usize, n: usize) -> io::Result<()> {
    if s.len() < a || s.len() - a < n {
        return say(writer, "outside");
    }
    show_hex(writer, &s[a..a + n])
}

fn show_string<W: Write>(writer: &mut W, call: &[u8], p: Span) -> io::Result<()> {
    say(writer, " x")?;
    show_bytes(writer, call, p.at, p.len)
}

fn show_option<W: Write>(writer: &mut W, call: &[u8], o: Option<Span>) -> io::Result<()> {
    match o {
        None => say(writer, " -"),
        Some(p) => show_string(writer, call, p),
    }
}

// The cause name at k.
fn show_name<W: Write>(writer: &mut W, k: usize) -> io::Result<()> {
    if k >= 21 {
        return say(writer, "outside");
    }
    let mut buf = [0u8; 28];
    let n = cause::put_name(&mut buf, 0, k);
    show_bytes(writer, &buf, 0, n)
}

// A cause in its stored form.
fn show_cause<W: Write>(writer: &mut W, call: &[u8], c: CauseSpan) -> io::Result<()> {
    say(writer, " x")?;
    match c {
        CauseSpan::Name(k) => show_name(writer, k),
        CauseSpan::Other(p) => {
            show_hex(writer, b"other:")?;
            show_bytes(writer, call, p.at, p.len)
        }
    }
}

fn show_pair<W: Write>(writer: &mut W, call: &[u8], kind: u64, a: Span, b: Span) -> io::Result<()> {
    show_number(writer, kind)?;
    show_string(writer, call, a)?;
    show_string(writer, call, b)
}

fn show_single<W: Write>(writer: &mut W, call: &[u8], kind: u64, a: Span) -> io::Result<()> {
    show_number(writer, kind)?;
    show_string(writer, call, a)
}

// An object: its kind, its strings, its queue.
fn show_object<W: Write>(writer: &mut W, call: &[u8], o: AffectedObject) -> io::Result<()> {
    match o {
        AffectedObject::NfInstance { kind, instance } => show_pair(writer, call, 1, kind, instance),
        AffectedObject::Interface { nf, name } => show_pair(writer, call, 2, nf, name),
        AffectedObject::Peer { nf, peer_id } => show_pair(writer, call, 3, nf, peer_id),
        AffectedObject::SessionStore { nf, shard } => {
            show_single(writer, call, 4, nf)?;
            show_option(writer, call, shard)
        }
        AffectedObject::Slice { snssai } => show_single(writer, call, 5, snssai),
        AffectedObject::Tenant { tenant } => show_single(writer, call, 6, tenant),
        AffectedObject::Certificate { key_id } => show_single(writer, call, 7, key_id),
        AffectedObject::DataPlaneQueue {
            nf,
            interface,
            queue,
        } => {
            show_pair(writer, call, 8, nf, interface)?;
            show_number(writer, u64::from(queue))
        }
    }
}

fn show_places<W: Write>(writer: &mut W, call: &[u8], p: Places) -> io::Result<()> {
    show_option(writer, call, p.tenant)?;
    show_option(writer, call, p.slice)?;
    show_option(writer, call, p.region)
}

fn show_key<W: Write>(writer: &mut W, call: &[u8], k: KeyFields) -> io::Result<()> {
    show_cause(writer, call, k.cause)?;
    show_object(writer, call, k.object)?;
    show_places(writer, call, k.places)
}

// ---- an operation: its name and its fields

fn show_raise<W: Write>(writer: &mut W, call: &[u8], r: Raise) -> io::Result<()> {
    let h = r.head;
    say(writer, "raise")?;
    show_number(writer, h.time)?;
    show_string(writer, call, h.id)?;
    show_string(writer, call, h.alarm_type)?;
    show_number(writer, u64::from(h.severity))?;
    show_key(writer, call, r.key)?;
    show_string(writer, call, r.text)?;
    show_option(writer, call, r.details)
}

fn show_clear<W: Write>(writer: &mut W, call: &[u8], c: Clear) -> io::Result<()> {
    say(writer, "clear")?;
    show_number(writer, c.time)?;
    show_string(writer, call, c.alarm_type)?;
    show_key(writer, call, c.key)
}

fn show_plain<W: Write>(writer: &mut W, call: &[u8], action: Action, p: Plain) -> io::Result<()> {
    say_action(writer, action, "acknowledge", "suppress")?;
    show_number(writer, p.time)?;
    show_string(writer, call, p.id)?;
    show_number(writer, u64::from(p.authorised))
}

fn show_scope<W: Write>(writer: &mut W, call: &[u8], s: Scope) -> io::Result<()> {
    match s {
        Scope::Alarm(p) => show_single(writer, call, 0, p),
        Scope::Tenant(p) => show_single(writer, call, 1, p),
        Scope::Global => show_number(writer, 2),
    }
}

// The word of a policy call, its time, and behind it the end that operation 13 has.
fn show_deed<W: Write>(writer: &mut W, deed: Deed, time: u64) -> io::Result<()> {
    match deed {
        Deed::Untimed(action) => {
            say_action(writer, action, "acknowledge-policy", "suppress-policy")?;
            show_number(writer, time)
        }
        Deed::Until(end) => {
            show_numbered(writer, "suppress-until", time)?;
            show_number(writer, end)
        }
    }
}

fn show_policy<W: Write>(writer: &mut W, call: &[u8], deed: Deed, p: Policy) -> io::Result<()> {
    let a = p.actor;
    let r = p.request;
    let v = p.verdict;
    show_deed(writer, deed, a.time)?;
    show_string(writer, call, a.id)?;
    show_string(writer, call, a.principal)?;
    show_option(writer, call, a.tenant)?;
    show_string(writer, call, r.reason)?;
    show_scope(writer, call, r.scope)?;
    show_option(writer, call, r.correlation)?;
    show_number(writer, u64::from(v.critical_allowed))?;
    show_number(writer, u64::from(v.authorised))?;
    show_string(writer, call, v.denial)
}

fn show_history<W: Write>(
    writer: &mut W,
    call: &[u8],
    tenant: Option<Span>,
    slice: Option<Span>,
) -> io::Result<()> {
    say(writer, "history")?;
    show_option(writer, call, tenant)?;
    show_option(writer, call, slice)
}

// ---- calls

fn show_parsed<W: Write>(writer: &mut W, call: &[u8], parsed: Parsed) -> io::Result<()> {
    match parsed {
        Parsed::Raise(r) => show_raise(writer, call, r),
        Parsed::Clear(c) => show_clear(writer, call, c),
        Parsed::Plain(action, p) => show_plain(writer, call, action, p),
        Parsed::Policy(deed, p) => show_policy(writer, call, deed, p),
        Parsed::Expire(t) => show_numbered(writer, "expire", t),
        Parsed::Active(v) => show_numbered(writer, "active", u64::from(v)),
        Parsed::History { tenant, slice } => show_history(writer, call, tenant, slice),
        Parsed::Counts => say(writer, "counts"),
        Parsed::Summary => say(writer, "summary"),
        Parsed::TakeAudit(n) => show_numbered(writer, "take-audit", u64::from(n)),
        Parsed::Lift(t) => show_numbered(writer, "lift", t),
    }
}

fn show<W: Write>(writer: &mut W, call: &[u8]) -> io::Result<()> {
    match call::parse(call) {
        Ok(parsed) => show_parsed(writer, call, parsed),
        Err(refusal) => show_numbered(writer, "refused", u64::from(u32::from(refusal))),
    }
}

// The calls of the input, each behind its length in four bytes. A proved loop ends, and nothing says that the input does: the turns are
// counted to a number that no run uses up.
fn calls<R: Read, W: Write>(reader: &mut R, writer: &mut W) -> io::Result<()> {
    let mut buf = [0u8; 4096];
    for _ in 0..u64::MAX {
        let Some(n) = reading::read_behind_length::<4, R>(reader, &mut buf)? else {
            break;
        };
        show(writer, &buf[..n])?;
        say(writer, "\n")?;
    }
    Ok(())
}

fn main(rt: HostRuntime) -> io::Result<()> {
    let mut reader = rt.reader();
    let mut writer = io::writer(&rt);
    calls(&mut reader, &mut writer)
}

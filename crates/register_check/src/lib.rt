// Whether bytes are a sound register, and where its chains end.
//
// "Each record on one chain" could be tested by marking records. The check makes one pass and marks none: it looks at the header's
// numbers, and walks each chain once for as many records as the header says, testing their payloads on the way (record_check). Chains
// that met would go on together and end in one record; so where the walks end, and in different records, no record is on two chains,
// and as the lengths make up the capacity none is on no chain. The definition has this as a law (Clauses/Check.antt says what is
// looked at, Laws/Book/CheckSound.antt and CheckComplete.antt that it comes to the same).
//
// The last records of the walks are the answer's `Ends`: operations add to the chains there, and need no walk of their own.
#![tactic(auto)]

ghost use Rattle.std.specs.Prelude.{◌≡◌, ◌+◌, ◌*◌, ◌≤◌, length};
ghost use Rattle.octets.specs.Bytes.{at32};
ghost use Rattle.definition.specs.Limits.{record_width};
ghost use Rattle.definition.specs.Book.{payload_width};
ghost use Rattle.definition.specs.Clauses.Check.{Decides, Lengths, Apart};
ghost use Rattle.register.specs.Meaning.{chain_number};
ghost use Rattle.register_check.specs.Meaning.{Gives, Headed, Heads, Linked, Walks, WalksChain, holds};

use model::{HeaderAt, Record};
use record_check::Ruler;
use register::{Chain, Ends};

// ---- one chain

// Whether a payload is one of its chain. By the chain, and no closure that `walk` is given: four of them would hold the ruler, and say the same.
fn payload_ok(chain: Chain, p: &[u8], ruler: &Ruler) -> bool
    requires { length p.now ≡ payload_width }
    ensures { result ≡ holds chain p.now }
{
    match chain {
        Chain::Active => record_check::alarm_ok(p, 3, ruler),
        Chain::History => record_check::alarm_ok(p, 5, ruler),
        Chain::Audit => record_check::event_ok(p, ruler),
        Chain::Free => octets::is_blank(p),
    }
}

// The link of record i, or 0 where there is no such record.
fn link_of(register: &[u8], capacity: u32, i: u32) -> u32
    requires { length register.now ≡ record_width * (capacity + 1) }
    ensures { Linked register.now capacity i result }
{
    if 1 <= i && i <= capacity {
        register::next(register, i)
    } else {
        0
    }
}

// The way by links from `head` on: as many records as `count` says, each of 1 to `capacity` with a payload of its chain, and then 0. Gives
// the last record, 0 for none. The link of the next record is read before a payload is tested, so that memory fetches the one while the
// processor tests the other.
fn walk(
    register: &[u8],
    capacity: u32,
    chain: Chain,
    head: u32,
    count: u32,
    ruler: &Ruler,
) -> Option<u32>
    requires { length register.now ≡ record_width * (capacity + 1) }
    ensures { Walks result chain register.now capacity count head }
{
    let mut at = head;
    let mut next = link_of(register, capacity, head);
    let mut last = 0;
    for _ in 0..count {
        if at == 0 {
            return None;
        }
        if capacity < at {
            return None;
        }
        let link = link_of(register, capacity, next);
        if !payload_ok(chain, register::payload(register, at), ruler) {
            return None;
        }
        last = at;
        at = next;
        next = link;
    }
    (at == 0).then_some(last)
}

// The length that the header says a chain has.
fn length_at(register: &[u8], chain: Chain) -> u32
    requires { record_width ≤ length register.now }
    ensures { result ≡ at32 register.now (16 + 8 * chain_number chain) }
{
    octets::get32(register, chain.held_at())
}

// The walk along a chain, from where the header says that it starts.
fn walk_chain(register: &[u8], capacity: u32, chain: Chain, ruler: &Ruler) -> Option<u32>
    requires { length register.now ≡ record_width * (capacity + 1) }
    ensures { WalksChain result chain register.now capacity }
{
    let head = octets::get32(register, chain.first_at());
    let count = length_at(register, chain);
    walk(register, capacity, chain, head, count, ruler)
}

// ---- the header

// Whether the chains' lengths are within the limits, and make up their sum.
fn counts_ok(register: &[u8], a: u32, h: u32, e: u32) -> bool
    requires { (record_width ≤ length register.now) × (a ≤ 65535) × (h ≤ 65535) × (e ≤ 65535) }
    ensures { Decides result (Lengths register.now a h e) }
{
    let active = length_at(register, Chain::Active);
    let history = length_at(register, Chain::History);
    let audit = length_at(register, Chain::Audit);
    let free = length_at(register, Chain::Free);
    active <= a && history <= h && audit <= e && free == (a - active) + (h - history) + (e - audit)
}

// The header's numbers, the register's length, and zeros behind the numbers. Gives how many records there is room for.
fn header(register: &[u8]) -> Option<u32>
    ensures { Heads result register.now }
{
    if register.len() < Record::WIDTH {
        return None;
    }
    let a = octets::get32(register, HeaderAt::ACTIVE_LIMIT);
    let h = octets::get32(register, HeaderAt::HISTORY_LIMIT);
    let e = octets::get32(register, HeaderAt::AUDIT_LIMIT);
    if !model::are_limits(a, h, e) {
        return None;
    }
    if !counts_ok(register, a, h, e) {
        return None;
    }
    let capacity = a + h + e;
    if register.len() != Record::WIDTH * (capacity as usize + 1) {
        return None;
    }
    octets::is_blank(&register[HeaderAt::SPARE..Record::WIDTH]).then_some(capacity)
}

// ---- the register

// Whether p is 0, or not q.
fn differ(p: u32, q: u32) -> bool
    ensures { Decides result (1 ≤ p → p ≡ q → ⊥) }
{
    p == 0 || p != q
}

// Whether those of four last records that are there differ.
fn apart(p: u32, q: u32, r: u32, t: u32) -> bool
    ensures { Decides result (Apart p q r t) }
{
    differ(p, q) & differ(p, r) & differ(p, t) & differ(q, r) & differ(q, t) & differ(r, t)
}

// The four chains of a register whose header is as it should be.
fn chains(register: &[u8], capacity: u32, ruler: &Ruler) -> Option<Ends>
    requires { Headed register.now capacity }
    ensures { Gives result register.now }
{
    let active = walk_chain(register, capacity, Chain::Active, ruler)?;
    let history = walk_chain(register, capacity, Chain::History, ruler)?;
    let audit = walk_chain(register, capacity, Chain::Audit, ruler)?;
    let free = walk_chain(register, capacity, Chain::Free, ruler)?;
    apart(active, history, audit, free).then_some(Ends {
        active,
        history,
        audit,
    })
}

// Whether bytes are a sound register, and where its chains end; none where they are not.
pub fn check(register: &[u8]) -> Option<Ends>
    ensures { Gives result register.now }
{
    let capacity = header(register)?;
    chains(register, capacity, &Ruler::new())
}

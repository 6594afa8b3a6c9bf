// The bytes of answers. An answer is a head of 16 bytes and a body behind it: the definition's `answer_bytes` for each
// of its answers (definition, specs/Answer.antt).
//
// Each function writes into the answer slice, at its start or from a place on, and returns the place behind what it wrote; its contract
// is `Put` of octets, which says just that of the bytes. So parts join to whole answers by one law, `put_two`, here
// and in the crates that answer. Every part fits: the caller has refused with 30 before anything is written.
//
// Lists are written entry by entry with the head last (specs/EntryLaws.antt); that an answer is the one which a step
// promises is in specs/AnswerLaws.antt.
#![tactic(auto)]

ghost use Rattle.std.specs.Prelude.{[], ◌++◌, ◌+◌, ◌≤◌, ◌<◌, length};
ghost use Rattle.octets.specs.Bytes.{be32};
ghost use Rattle.octets.specs.Put.{Put};
ghost use Rattle.definition.specs.Key.{string, hex};
ghost use Rattle.definition.specs.Answer.{ClearWithoutActive, ActiveLimitExceeded, Summary, head, head_bytes, answer_bytes};
ghost use Rattle.model.specs.Meaning.{cause_part, cause_within};
ghost use Rattle.answers.specs.Meaning.{Answered, entry, totals_of};
ghost use Rattle.answers.specs.Code.{code_number};

use model::{Answer, CauseSpan, Key, Payload, Record};
use strings::Writer;

mod code;

pub use code::Code;

// A head: code, three zeros, item count, number.
pub fn put_head(answer: &mut [u8], code: u8, count: u32, number: u64) -> usize
    requires { 16 ≤ length answer.old }
    ensures { Put answer.old 0 (head_bytes (head code count number)) result answer.new }
{
    octets::put_byte(answer, 0, code);
    octets::put_zeros(answer, 1, 3);
    octets::put32(answer, 4, count);
    octets::put64(answer, 8, number);
    Answer::HEAD
}

// A record, its next index zero.
pub fn put_record(answer: &mut [u8], at: usize, payload: &Payload) -> usize
    requires { at + 1536 ≤ length answer.old }
    ensures { Put answer.old at (be32 0 ++ payload.now) result answer.new }
{
    octets::put32(answer, at, 0);
    let a = at + Record::LINK;
    octets::put_bytes(answer, a, payload);
    at + Record::WIDTH
}

// How many active alarms have a severity and a cause, as operation 10 lists it.
pub fn put_count(answer: &mut [u8], at: usize, severity: u8, amount: u32, cause: &[u8]) -> usize
    requires { (at + (9 + length cause.now) ≤ length answer.old) × (length cause.now < 4294967296) }
    ensures { Put
        answer.old
        at
        (entry severity amount cause.now)
        result
        answer.new }
{
    let mut writer = Writer::new(answer, at);
    writer.put_byte(severity);
    writer.put_u32(amount);
    writer.put_string(cause);
    writer.place()
}

// ---- whole answers

// An alarm: codes 1, 2, 6 and 7.
pub fn put_alarm(answer: &mut [u8], code: u8, payload: &Payload) -> usize
    requires { 1552 ≤ length answer.old }
    ensures { Answered
        answer.old
        (head code 1 0)
        (be32 0 ++ payload.now)
        result
        answer.new }
{
    let n = put_head(answer, code, 1, 0);
    put_record(answer, n, payload)
}

// An id or a message: codes 3, 8, 9 and 10.
pub fn put_text(answer: &mut [u8], code: u8, s: &[u8]) -> usize
    requires { (20 + length s.now ≤ length answer.old) × (length s.now < 4294967296) }
    ensures { Answered answer.old (head code 0 0) (string s.now) result answer.new }
{
    let n = put_head(answer, code, 0, 0);
    let mut writer = Writer::new(answer, n);
    writer.put_string(s);
    writer.place()
}

// How many alarms an expiry or a lift took: operations 7 and 14.
pub fn put_number(answer: &mut [u8], n: u64) -> usize
    requires { 16 ≤ length answer.old }
    ensures { Answered answer.old (head 11 0 n) [] result answer.new }
{
    put_head(answer, Code::Report as u8, 0, n)
}

// ---- a key, as codes 4 and 5 begin

// A key's digits, two to a byte.
const HEX: usize = 2 * Record::KEY;

// A head, and the key's digits.
fn put_key(answer: &mut [u8], code: Code, number: u64, key: &Key) -> usize
    requires { 48 ≤ length answer.old }
    ensures { Answered
        answer.old
        (head (code_number code) 0 number)
        (hex key.now)
        result
        answer.new }
{
    let n = put_head(answer, u8::from(code), 0, number);
    key::put_hex(answer, n, key);
    n + HEX
}

// A clear that found no active alarm: its key, and its cause in the stored form.
pub fn put_without(answer: &mut [u8], key: &Key, call: &[u8], cause: CauseSpan) -> usize
    requires { (148 ≤ length answer.old) × cause_within call.now cause }
    ensures { Put
        answer.old
        0
        (answer_bytes (ClearWithoutActive key.now (cause_part call.now cause)))
        result
        answer.new }
{
    let n = put_key(answer, Code::ClearWithoutActive, 0, key);
    let mut writer = Writer::new(answer, n);
    writer.put_cause(call, cause);
    writer.place()
}

// A raise that found the active chain full: its key, and the limit of that chain.
pub fn put_limit(answer: &mut [u8], key: &Key, n: u64) -> usize
    requires { 48 ≤ length answer.old }
    ensures { Put
        answer.old
        0
        (answer_bytes (ActiveLimitExceeded key.now n))
        result
        answer.new }
{
    put_key(answer, Code::ActiveLimitExceeded, n, key)
}

// ---- operation 11

// Where the numbers of its body stand, and where it ends.
#[derive(Drop)]
struct SummaryAt {}

impl SummaryAt {
    const WORST: usize = Answer::HEAD;

    const READINESS: usize = Self::WORST + 1;

    const SUCCESSES: usize = Self::READINESS + 1;

    const FAILURES: usize = Self::SUCCESSES + 8;

    const END: usize = Self::FAILURES + 8;
}

// How many alarms are active, their headline, and the audit counters.
#[derive(Clone, Copy)]
pub struct Totals {
    pub active: u64,
    pub worst: u8,
    pub readiness: u8,
    pub successes: u64,
    pub failures: u64,
}

pub fn put_summary(answer: &mut [u8], totals: Totals) -> usize
    requires { 34 ≤ length answer.old }
    ensures { Put
        answer.old
        0
        (answer_bytes (Summary (totals_of totals)))
        result
        answer.new }
{
    put_head(answer, Code::Report as u8, 0, totals.active);
    octets::put_byte(answer, SummaryAt::WORST, totals.worst);
    octets::put_byte(answer, SummaryAt::READINESS, totals.readiness);
    octets::put64(answer, SummaryAt::SUCCESSES, totals.successes);
    octets::put64(answer, SummaryAt::FAILURES, totals.failures);
    SummaryAt::END
}

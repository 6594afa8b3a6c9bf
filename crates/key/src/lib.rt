// The key of an alarm: the first 16 bytes of SHA-256 over its type, cause, object and places; and its digits.
//
// What is hashed is put into a buffer by a writer, one field behind the other, as the definition's `fed` gives it (Key.antt): strings and
// options as in a call, an object as its kind's tag and strings. Each field is a part of the call: functions that take spans apart lend it,
// and functions that put strings receive its bytes. The buffer is as wide as the longest fields need, so that nothing is tested: each
// function asks for room for what it puts (specs/Hashed.antt). `key_of` promises the definition's `key_of`; `put_hex` writes a key's
// digits into an answer.
#![tactic(auto)]

ghost use Rattle.std.specs.Prelude.{◌≡◌, ◌+◌, ◌-◌, ◌*◌, ◌≤◌, ◌<◌, length};
ghost use Rattle.std.proofs.Math.Option.{some};
ghost use Rattle.octets.specs.Bytes.{splice};
ghost use Rattle.definition.specs.Limits.{short_limit, region_limit};
ghost use Rattle.definition.specs.Value.{data_plane_queue};
ghost use Rattle.definition.specs.Key.{string, optional, decimal, fed_object, fed_places, key_of, hex_digit, hex};
ghost use Rattle.model.specs.Meaning.{part, opt_part, object_value, places_value, key_value};
ghost use Rattle.model.specs.Meaning.{within, opt_within, object_within, PlacesWithin, KeyWithin};
ghost use Rattle.strings.specs.Writing.{Wrote};
ghost use Rattle.key.specs.Hashed.{Room, tagged_one, tagged_two};

use model::{AffectedObject, KeyFields, Places, Prefix, Record, Span, part};
use strings::Writer;

// ---- the width of what is hashed, from the record's limits

// Type, each object string, tenant and slice.
const STRING: usize = Prefix::LENGTH + Record::SHORT;

// The longest object is of kind 8: the letters of its tag, which is the longest, two strings, and the digits of its queue.
const TAG: usize = 14;

const DIGITS: usize = 5;

const OBJECT: usize = (Prefix::LENGTH + TAG) + 2 * STRING + (Prefix::LENGTH + DIGITS);

const PLACES: usize = 2 * (Prefix::MARK + STRING)
    + (Prefix::MARK + Prefix::LENGTH + Record::REGION);

const HASHED: usize = STRING + (Prefix::LENGTH + Record::CAUSE) + OBJECT + PLACES;

// ---- options, as in a call

fn put_option(writer: &mut Writer, call: &[u8], option: Option<Span>)
    requires { Room writer.old (optional (opt_part call.now option)) × opt_within call.now region_limit option }
    ensures { Wrote writer.old (optional (opt_part call.now option)) writer.new }
{
    match option {
        None => writer.put_byte(0),
        Some(span) => {
            writer.put_byte(1);
            writer.put_string(part(call, span));
        }
    }
}

// ---- the affected object

// How many of five decimal digits are not written: no leading zero is, save that of 0.
fn unwritten(q: u16) -> usize
    ensures { result ≡ 5 - length (decimal q) }
{
    if q < 10 {
        4
    } else if q / 10 < 10 {
        3
    } else if q / 10 / 10 < 10 {
        2
    } else if q / 10 / 10 / 10 < 10 {
        1
    } else {
        0
    }
}

// The queue, in decimal digits.
fn put_queue(writer: &mut Writer, q: u16)
    requires { Room writer.old (string (decimal q)) }
    ensures { Wrote writer.old (string (decimal q)) writer.new }
{
    let digits = [
        48 + (q / 10 / 10 / 10 / 10 % 10) as u8,
        48 + (q / 10 / 10 / 10 % 10) as u8,
        48 + (q / 10 / 10 % 10) as u8,
        48 + (q / 10 % 10) as u8,
        48 + (q % 10) as u8,
    ];
    let a = unwritten(q);
    writer.put_string(&digits[a..]);
}

// A kind's tag and its one string.
fn put_single(writer: &mut Writer, tag: &[u8], a: &[u8])
    requires { Room writer.old (tagged_one tag.now a.now) }
    ensures { Wrote writer.old (tagged_one tag.now a.now) writer.new }
{
    writer.put_string(tag);
    writer.put_string(a);
}

// A kind's tag and its two strings.
fn put_pair(writer: &mut Writer, tag: &[u8], a: &[u8], b: &[u8])
    requires { Room writer.old (tagged_two tag.now a.now b.now) }
    ensures { Wrote writer.old (tagged_two tag.now a.now b.now) writer.new }
{
    put_single(writer, tag, a);
    writer.put_string(b);
}

// Kind 8: behind its strings the queue.
fn put_data_plane_queue(writer: &mut Writer, nf: &[u8], interface: &[u8], queue: u16)
    requires { Room writer.old (fed_object (data_plane_queue nf.now interface.now queue)) }
    ensures { Wrote writer.old (fed_object (data_plane_queue nf.now interface.now queue)) writer.new }
{
    put_pair(writer, b"DataPlaneQueue", nf, interface);
    put_queue(writer, queue);
}

fn put_object(writer: &mut Writer, call: &[u8], o: AffectedObject)
    requires { Room writer.old (fed_object (object_value call.now o)) × object_within call.now o }
    ensures { Wrote writer.old (fed_object (object_value call.now o)) writer.new }
{
    match o {
        AffectedObject::NfInstance { kind, instance } => {
            put_pair(
                writer,
                b"NfInstance",
                part(call, kind),
                part(call, instance),
            );
        }
        AffectedObject::Interface { nf, name } => {
            put_pair(writer, b"Interface", part(call, nf), part(call, name));
        }
        AffectedObject::Peer { nf, peer_id } => {
            put_pair(writer, b"Peer", part(call, nf), part(call, peer_id));
        }
        AffectedObject::SessionStore { nf, shard } => {
            put_single(writer, b"SessionStore", part(call, nf));
            put_option(writer, call, shard);
        }
        AffectedObject::Slice { snssai } => put_single(writer, b"Slice", part(call, snssai)),
        AffectedObject::Tenant { tenant } => put_single(writer, b"Tenant", part(call, tenant)),
        AffectedObject::Certificate { key_id } => {
            put_single(writer, b"Certificate", part(call, key_id));
        }
        AffectedObject::DataPlaneQueue {
            nf,
            interface,
            queue,
        } => put_data_plane_queue(writer, part(call, nf), part(call, interface), queue),
    }
}

// ---- tenant, slice and region

fn put_places(writer: &mut Writer, call: &[u8], p: Places)
    requires { Room writer.old (fed_places (places_value call.now p)) × PlacesWithin call.now p }
    ensures { Wrote writer.old (fed_places (places_value call.now p)) writer.new }
{
    put_option(writer, call, p.tenant);
    put_option(writer, call, p.slice);
    put_option(writer, call, p.region);
}

// ---- the key

// The key of the alarm that a raise or a clear speaks of, from the call's type and key fields.
pub fn key_of(call: &[u8], alarm_type: Span, k: KeyFields) -> [u8; Record::KEY]
    requires { within call.now short_limit alarm_type × KeyWithin call.now k }
    ensures { result ≡ key_of (part call.now alarm_type) (key_value call.now k) }
{
    let mut buf = [0u8; HASHED];
    let mut writer = Writer::new(&mut buf, 0);
    writer.put_string(part(call, alarm_type));
    writer.put_cause(call, k.cause);
    put_object(&mut writer, call, k.object);
    put_places(&mut writer, call, k.places);
    let digest = sha256::sha256(writer.written());
    let mut key = [0u8; Record::KEY];
    octets::put_bytes(&mut key, 0, &digest[..Record::KEY]);
    key
}

// ---- the key's digits

fn hex_digit(n: u8) -> u8
    requires { n < 16 }
    ensures { result ≡ hex_digit n }
{
    if n < 10 { 48 + n } else { 87 + n }
}

// The key's hexadecimal digits go into the answer at a place.
pub fn put_hex(answer: &mut [u8], at: usize, key: &[u8])
    requires { at + 2 * length key.now ≤ length answer.old }
    ensures { answer.new ≡ splice answer.old at (hex key.now) }
{
    for (i, &b) in key.iter().enumerate() {
        let p = at + 2 * i;
        answer[p] = hex_digit(b / 16);
        answer[p + 1] = hex_digit(b % 16);
    }
}

// The cause and the affected object of an alarm, from the places where they stand in a call.
ghost use Rattle.std.specs.Prelude.{◌≡◌};
ghost use Rattle.octets.specs.Bytes.{splice};
ghost use Rattle.definition.specs.Limits.{short_limit};
ghost use Rattle.definition.specs.Record.{cause_slot, object_slot};
ghost use Rattle.model.specs.Meaning.{cause_part, object_value, within, opt_within, cause_within, object_within};
ghost use Rattle.build.specs.Stretch.{pair_of, single_of, store_of};

use super::slots;
use model::{AffectedObject, CauseSpan, Payload, Prefix, Record, Span};
use record::{AlarmAt, ObjectAt, Slot};
use strings::Writer;

// The cause in its stored form. It is put as a string of a call first.
pub(crate) fn cause_into(p: &mut Payload, call: &[u8], c: CauseSpan)
    requires { cause_within call.now c }
    ensures { p.new ≡ splice p.old 175 (cause_slot.put (cause_part call.now c)) }
{
    let mut string = [0u8; Prefix::LENGTH + Record::CAUSE];
    let mut writer = Writer::new(&mut string, 0);
    writer.put_cause(call, c);
    let cause = &writer.written()[Prefix::LENGTH..];
    record::put_string(p, AlarmAt::CAUSE, Record::CAUSE, cause);
}

// ---- the affected object

// Where the mark of its second string stands in the payload, and its queue.
const MARK: usize = AlarmAt::OBJECT + ObjectAt::MARK;

const QUEUE: usize = AlarmAt::OBJECT + ObjectAt::QUEUE;

// Two strings, and a queue, which is 0 where the kind has none.
fn pair_into(p: &mut Payload, call: &[u8], kind: u8, a: Span, b: Span, queue: u16)
    requires { within call.now short_limit a × within call.now short_limit b }
    ensures { p.new ≡ splice p.old 273 (pair_of call.now kind a b queue) }
{
    slots::marked_into(p, AlarmAt::OBJECT, Record::SHORT, kind, call, a);
    slots::marked_into(p, MARK, Record::SHORT, 0, call, b);
    octets::put16(p, QUEUE, queue);
}

// One string.
fn single_into(p: &mut Payload, call: &[u8], kind: u8, a: Span)
    requires { within call.now short_limit a }
    ensures { p.new ≡ splice p.old 273 (single_of call.now kind a) }
{
    slots::marked_into(p, AlarmAt::OBJECT, Record::SHORT, kind, call, a);
    octets::put_zeros(p, MARK, Slot::OPTIONAL_SHORT);
    octets::put16(p, QUEUE, 0);
}

// A session store, with its shard.
fn store_into(p: &mut Payload, call: &[u8], a: Span, shard: Option<Span>)
    requires { within call.now short_limit a
        × opt_within call.now short_limit shard }
    ensures { p.new ≡ splice p.old 273 (store_of call.now a shard) }
{
    slots::marked_into(p, AlarmAt::OBJECT, Record::SHORT, 4, call, a);
    slots::option_into(p, MARK, Record::SHORT, call, shard);
    octets::put16(p, QUEUE, 0);
}

pub(crate) fn object_into(p: &mut Payload, call: &[u8], o: AffectedObject)
    requires { object_within call.now o }
    ensures { p.new
        ≡ splice p.old 273 (object_slot.put (object_value call.now o)) }
{
    match o {
        AffectedObject::NfInstance { kind, instance } => pair_into(p, call, 1, kind, instance, 0),
        AffectedObject::Interface { nf, name } => pair_into(p, call, 2, nf, name, 0),
        AffectedObject::Peer { nf, peer_id } => pair_into(p, call, 3, nf, peer_id, 0),
        AffectedObject::SessionStore { nf, shard } => store_into(p, call, nf, shard),
        AffectedObject::Slice { snssai } => single_into(p, call, 5, snssai),
        AffectedObject::Tenant { tenant } => single_into(p, call, 6, tenant),
        AffectedObject::Certificate { key_id } => single_into(p, call, 7, key_id),
        AffectedObject::DataPlaneQueue {
            nf,
            interface,
            queue,
        } => pair_into(p, call, 8, nf, interface, queue),
    }
}

// The fields that a raise and a clear share, and that the key is made of: the cause, the affected object, tenant, slice and region.
//
// `read_key` reads them all. An object is a byte, its kind, and then the strings of that kind. Places are tenant, slice and region, each
// optional; that a raise's region must not be empty is raise_fields' rule.
#![tactic(auto)]

ghost use Rattle.definition.specs.Limits.{short_limit};
ghost use Rattle.definition.specs.Reader.{text};
ghost use Rattle.definition.specs.Parse.{object_of, object, places, key};
ghost use Rattle.model.specs.Meaning.{part, within, object_value, places_value, key_value, object_within, PlacesWithin, KeyWithin};
ghost use Rattle.fields.specs.Reading.{Reads};

use fields::{Reader, StringKind};
use model::{AffectedObject, KeyFields, Places, Record, Refusal, Span};

// An object string.
fn read_name(reader: &mut Reader) -> Result<Span, Refusal>
    ensures { Reads reader.old reader.new (text short_limit) part (λ s. within s short_limit) result }
{
    reader.text(Record::SHORT)
}

// An affected object: its kind, and the kind's strings.
#[tactic(auto, using(crate::proofs::EachKind::kinds), unfolding(definition::specs::Parse::object, definition::specs::Parse::pair, definition::specs::Parse::session_store, definition::specs::Parse::data_plane_queue, definition::specs::Reader::into))]
fn read_object(reader: &mut Reader) -> Result<AffectedObject, Refusal>
    ensures { Reads reader.old reader.new object object_value object_within result }
{
    let object = match reader.choice(1, 8)? {
        1 => AffectedObject::NfInstance {
            kind: read_name(reader)?,
            instance: read_name(reader)?,
        },
        2 => AffectedObject::Interface {
            nf: read_name(reader)?,
            name: read_name(reader)?,
        },
        3 => AffectedObject::Peer {
            nf: read_name(reader)?,
            peer_id: read_name(reader)?,
        },
        4 => AffectedObject::SessionStore {
            nf: read_name(reader)?,
            shard: reader.option(Record::SHORT, StringKind::Text)?,
        },
        5 => AffectedObject::Slice {
            snssai: read_name(reader)?,
        },
        6 => AffectedObject::Tenant {
            tenant: read_name(reader)?,
        },
        7 => AffectedObject::Certificate {
            key_id: read_name(reader)?,
        },
        _ => AffectedObject::DataPlaneQueue {
            nf: read_name(reader)?,
            interface: read_name(reader)?,
            queue: reader.number(2)? as u16,
        },
    };
    Ok(object)
}

// Tenant, slice and region, each optional.
#[tactic(auto, using(fields::specs::ReadingLaws::row_is), unfolding(definition::specs::Parse::places))]
fn read_places(reader: &mut Reader) -> Result<Places, Refusal>
    ensures { Reads reader.old reader.new places places_value PlacesWithin result }
{
    let tenant = reader.option(Record::SHORT, StringKind::Text)?;
    let slice = reader.option(Record::SHORT, StringKind::Text)?;
    let region = reader.option(Record::REGION, StringKind::Text)?;
    Ok(Places {
        tenant,
        slice,
        region,
    })
}

// What a raise and a clear share: the cause, the object and its places.
#[tactic(auto, using(fields::specs::ReadingLaws::row_is), unfolding(definition::specs::Parse::key))]
pub fn read_key(reader: &mut Reader) -> Result<KeyFields, Refusal>
    ensures { Reads reader.old reader.new key key_value KeyWithin result }
{
    let cause = reader.cause()?;
    let object = read_object(reader)?;
    let places = read_places(reader)?;
    Ok(KeyFields {
        cause,
        object,
        places,
    })
}

// Prints keys in hex, one to a line: of objects of all eight kinds, with and without options, and of all cause names.
//
// `key_of` is proved to give the definition's key; this program is the witness that another reading of document 01, with another SHA-256,
// gives the same. The expected output, the file `stdout`, is made by it: `python3 tests/vectors/key.py`. Strings are parts of 256 letters,
// empty, short and as long as their limits allow, so that the buffer of what is hashed is filled as far as it can be.
// specs/Vectors.antt says what the fields handed about keep to.
#![tactic(auto)]

ghost use Rattle.std.specs.Prelude.{◌≡◌, length};
ghost use Rattle.model.specs.Meaning.{object_within};
ghost use Rattle.key_vectors.specs.Vectors.{Fit};

use model::{AffectedObject, CauseSpan, KeyFields, Places, Span};
use std::io;
use std::io::Write;

// The letters a to z, over and over.
fn letters() -> [u8; 256] {
    let mut s = [0u8; 256];
    for (i, letter) in s.iter_mut().enumerate() {
        *letter = (97 + i % 26) as u8;
    }
    s
}

// The key of a type of n bytes with these fields.
fn show<W: Write>(
    writer: &mut W,
    call: &[u8],
    n: usize,
    cause: CauseSpan,
    object: AffectedObject,
    places: Places,
) -> io::Result<()>
    requires { Fit call.now n cause places × object_within call.now object }
{
    let t = Span { at: 130, len: n };
    let fields = KeyFields {
        cause,
        object,
        places,
    };
    let key = key::key_of(call, t, fields);
    let mut line = [10u8; 33];
    key::put_hex(&mut line, 0, &key);
    writer.write_all(&line)
}

// Kinds 1 to 4, with strings of n bytes; kind 4 without a shard and with one.
fn first_kinds<W: Write>(
    writer: &mut W,
    call: &[u8],
    n: usize,
    cause: CauseSpan,
    places: Places,
) -> io::Result<()>
    requires { Fit call.now n cause places }
{
    let nf = Span { at: 3, len: n };
    let name = Span { at: 70, len: n };
    let instance = AffectedObject::NfInstance {
        kind: nf,
        instance: name,
    };
    show(writer, call, n, cause, instance, places)?;
    let interface = AffectedObject::Interface { nf, name };
    show(writer, call, n, cause, interface, places)?;
    let peer = AffectedObject::Peer { nf, peer_id: name };
    show(writer, call, n, cause, peer, places)?;
    let shard = None;
    let store = AffectedObject::SessionStore { nf, shard };
    show(writer, call, n, cause, store, places)?;
    let named = Some(name);
    let part = AffectedObject::SessionStore { nf, shard: named };
    show(writer, call, n, cause, part, places)
}

// Kinds 5 to 8.
fn last_kinds<W: Write>(
    writer: &mut W,
    call: &[u8],
    n: usize,
    queue: u16,
    cause: CauseSpan,
    places: Places,
) -> io::Result<()>
    requires { Fit call.now n cause places }
{
    let nf = Span { at: 3, len: n };
    let interface = Span { at: 70, len: n };
    let slice = AffectedObject::Slice { snssai: nf };
    show(writer, call, n, cause, slice, places)?;
    let tenant = AffectedObject::Tenant { tenant: nf };
    show(writer, call, n, cause, tenant, places)?;
    let certificate = AffectedObject::Certificate { key_id: nf };
    show(writer, call, n, cause, certificate, places)?;
    let line = AffectedObject::DataPlaneQueue {
        nf,
        interface,
        queue,
    };
    show(writer, call, n, cause, line, places)
}

// All kinds, with tenant, slice and region.
fn kinds<W: Write>(
    writer: &mut W,
    call: &[u8],
    n: usize,
    queue: u16,
    cause: CauseSpan,
    tenant: Option<Span>,
    slice: Option<Span>,
    region: Option<Span>,
) -> io::Result<()>
    requires { Fit call.now n cause (record { tenant = tenant; slice = slice; region = region }) }
{
    let places = Places {
        tenant,
        slice,
        region,
    };
    first_kinds(writer, call, n, cause, places)?;
    last_kinds(writer, call, n, queue, cause, places)
}

// Strings empty, short and of their longest; queues of one to five digits; options absent, empty and of their longest.
fn objects<W: Write>(writer: &mut W, call: &[u8]) -> io::Result<()>
    requires { length call.now ≡ 256 }
{
    let none = None;
    let empty = Some(Span { at: 9, len: 0 });
    let long = Some(Span { at: 100, len: 64 });
    let region = Some(Span { at: 128, len: 128 });
    let other = CauseSpan::Other(Span { at: 40, len: 3 });
    let longest = CauseSpan::Other(Span { at: 40, len: 90 });
    let last_name = CauseSpan::Name(20);
    kinds(writer, call, 0, 0, CauseSpan::Name(7), none, none, none)?;
    kinds(writer, call, 1, 9, CauseSpan::Name(5), empty, none, none)?;
    kinds(writer, call, 5, 10, other, none, empty, none)?;
    kinds(writer, call, 63, 999, last_name, none, none, empty)?;
    kinds(writer, call, 9, 1000, other, long, none, region)?;
    kinds(writer, call, 64, 65535, longest, long, long, region)
}

// Every cause name.
fn causes<W: Write>(writer: &mut W, call: &[u8]) -> io::Result<()>
    requires { length call.now ≡ 256 }
{
    let none = None;
    let places = Places {
        tenant: none,
        slice: none,
        region: none,
    };
    let tenant = Span { at: 3, len: 4 };
    let object = AffectedObject::Tenant { tenant };
    for k in 0..21 {
        show(writer, call, 1, CauseSpan::Name(k), object, places)?;
    }
    Ok(())
}

fn main(rt: HostRuntime) -> io::Result<()> {
    let mut writer = io::writer(&rt);
    let call = letters();
    objects(&mut writer, &call)?;
    causes(&mut writer, &call)
}

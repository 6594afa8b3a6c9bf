// Parts of a call in the slots of a record.
ghost use Rattle.std.specs.Prelude.{◌≡◌, ◌∷◌, ◌+◌, ◌≤◌, length};
ghost use Rattle.octets.specs.Bytes.{splice};
ghost use Rattle.definition.specs.Limits.{details_limit};
ghost use Rattle.definition.specs.Slot.{string_bytes};
ghost use Rattle.model.specs.Meaning.{part, within, opt_within};
ghost use Rattle.build.specs.Stretch.{option_of};

use model::Span;
use record::Slot;

// A part of the call, in the slot of a string of at most n bytes.
pub(crate) fn part_into(p: &mut [u8], at: usize, n: usize, call: &[u8], s: Span)
    requires { (at + (2 + n) ≤ length p.old) × (n ≤ details_limit) × within call.now n s }
    ensures { p.new ≡ splice p.old at (string_bytes n (part call.now s)) }
{
    record::put_string(p, at, n, model::part(call, s));
}

// A byte before it.
pub(crate) fn marked_into(p: &mut [u8], at: usize, n: usize, mark: u8, call: &[u8], s: Span)
    requires { (at + (3 + n) ≤ length p.old) × (n ≤ details_limit) × within call.now n s }
    ensures { p.new ≡ splice p.old at (mark ∷ string_bytes n (part call.now s)) }
{
    record::put_marked(p, at, n, mark, model::part(call, s));
}

// A part that may be absent.
pub(crate) fn option_into(p: &mut [u8], at: usize, n: usize, call: &[u8], s: Option<Span>)
    requires { (at + (3 + n) ≤ length p.old) × (n ≤ details_limit) × opt_within call.now n s }
    ensures { p.new ≡ splice p.old at (option_of n call.now s) }
{
    match s {
        None => octets::put_zeros(p, at, Slot::MARKED + n),
        Some(q) => marked_into(p, at, n, 1, call, q),
    }
}

// Times: signed 64-bit counts, kept as their 64 bits, as a call and a record hold them.
//
// The definition turns the signed order into that of unsigned numbers, by adding 2^63 modulo 2^64 (`before` in definition,
// specs/Alarm.antt; docs/DECISIONS.md, 4.8); the code compares the signed numbers themselves.
#![tactic(auto)]

ghost use Rattle.std.specs.Prelude.{◌≡◌};
ghost use Rattle.definition.specs.Alarm.{before, late as the_late};

pub fn is_before(t: u64, u: u64) -> bool
    ensures { result ≡ before t u }
{
    t.cast_signed() < u.cast_signed()
}

// The larger of a call's time and of the time at which an alarm was raised.
pub fn late(time: u64, raised: u64) -> u64
    ensures { result ≡ the_late time raised }
{
    if is_before(time, raised) {
        raised
    } else {
        time
    }
}

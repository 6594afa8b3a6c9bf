// The rating of an active alarm: its severity and its cause.
ghost use Rattle.std.specs.Prelude.{◌≡◌};
ghost use Rattle.definition.specs.Reports.{same_rating};
ghost use Rattle.history.specs.Walk.{alarm_at};
ghost use Rattle.metrics.specs.Meaning.{Fits, rating_at};

use model::Prefix;

// An entry of operation 10 but the cause's letters: a severity, an amount in four bytes, and the length of the cause.
pub(crate) const ENTRY: usize = 1 + 4 + Prefix::LENGTH;

// The severity of record i's alarm.
pub(crate) fn severity(register: &[u8], i: u32) -> u8
    requires { Fits register.now i }
    ensures { result ≡ (alarm_at register.now i).severity }
{
    record::severity(register::payload(register, i))
}

// The cause of record i's alarm.
pub(crate) fn cause(register: &[u8], i: u32) -> &[u8]
    requires { Fits register.now i }
    ensures { result.now ≡ (alarm_at register.now i).about.cause }
{
    record::cause(register::payload(register, i))
}

// Whether the alarms of records i and j have the same rating.
pub(crate) fn same(register: &[u8], i: u32, j: u32) -> bool
    requires { Fits register.now i × Fits register.now j }
    ensures { result ≡ same_rating (rating_at register.now i) (rating_at register.now j) }
{
    if severity(register, i) != severity(register, j) {
        return false;
    }
    octets::equal(cause(register, i), cause(register, j))
}

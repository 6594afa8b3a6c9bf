// Alarms that are suppressed only where a policy allows it explicitly: critical ones, and those of nine causes.
//
// The definition lists the causes (`guarded` in specs/Alarm.antt) and says which alarms are meant (`is_critical`). The
// code has the names once more, as bytes, and is proved to find just these. Crate `admin` asks before it suppresses. The
// payload's fields are read by `record`; nothing of the text or of the details is looked at.
#![tactic(auto)]

ghost use Rattle.std.specs.Prelude.{◌≡◌};
ghost use Rattle.std.specs.List.{list_any};
ghost use Rattle.octets.specs.Bytes.{same};
ghost use Rattle.definition.specs.Alarm.{guarded, is_critical};
ghost use Rattle.definition.specs.Cause.{one_of};
ghost use Rattle.definition.specs.Record.{read_alarm};

use model::Payload;
use record::Severity;

// The nine causes, of security and of integrity.
const GUARDED: [&[u8]; 9] = [
    b"authorization-policy-invalid",
    b"identity-unavailable",
    b"certificate-expired",
    b"key-unavailable",
    b"storage-corruption",
    b"audit-chain-invalid",
    b"li-delivery-failed",
    b"privacy-policy-violation",
    b"security-break-glass",
];

// Whether a text is one of some.
fn is_one_of(names: &[&[u8]], text: &[u8]) -> bool
    ensures { result ≡ list_any (λ name. same name.now text.now) names.now }
{
    names.iter().any(|name| octets::equal(name, text))
}

fn is_guarded(cause: &[u8]) -> bool
    ensures { result ≡ one_of guarded cause.now }
{
    is_one_of(&GUARDED, cause)
}

// Whether the alarm in a payload is critical or of one of the nine causes.
pub fn requires_explicit_suppression_policy(alarm: &Payload) -> bool
    ensures { result ≡ is_critical (read_alarm alarm.now) }
{
    record::severity(alarm) == Severity::Critical as u8 || is_guarded(record::cause(alarm))
}

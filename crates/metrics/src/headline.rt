// The headline of a summary: of the active alarms that are not suppressed, the worst severity and the worst impact on
// readiness (M-103), found along the active chain.
ghost use Rattle.std.specs.Prelude.{◌≡◌, T};
ghost use Rattle.std.specs.Option.{unwrap_or};
ghost use Rattle.definition.specs.Reports.{headline, worst as worst_of, impact, worst_impact};
ghost use Rattle.definition.specs.Sound.{sound};
ghost use Rattle.history.specs.Walk.{alarms_on};
ghost use Rattle.metrics.specs.Meaning.{shown as shown_of};

use record::State;
use register::Chain;

// The state of a suppressed alarm.
const SUPPRESSED: u8 = State::Suppressed as u8;

// The impact on readiness of an alarm of a severity; 0 where there is none.
fn readiness(severity: Option<u8>) -> u8
    ensures { result ≡ impact (unwrap_or severity 255) }
{
    match severity {
        Some(5) => 2,
        Some(4) => 1,
        _ => 0,
    }
}

// The severity of an alarm in a state, or none where that is suppressed: such an alarm is left aside.
fn shown(state: u8, severity: u8) -> Option<u8>
    ensures { result ≡ shown_of state severity }
{
    if state == SUPPRESSED {
        return None;
    }
    Some(severity)
}

// What the active alarms that are not suppressed come to: the worst severity, if there is one, and the worst impact on readiness.
#[derive(Clone, Copy)]
pub(crate) struct Headline {
    pub(crate) worst: Option<u8>,
    pub(crate) readiness: u8,
}

// The headline of a register.
pub(crate) fn read(register: &[u8]) -> Headline
    requires { T (sound register.now) }
    ensures worst_value { unwrap_or result.worst 255 ≡ worst_of (headline (alarms_on 0 register.now)) }
    ensures readiness_value { result.readiness ≡ worst_impact (headline (alarms_on 0 register.now)) }
{
    let mut worst: Option<u8> = None;
    let mut impact = 0u8;
    for i in history::records(register, Chain::Active) {
        let alarm = register::payload(register, i);
        let severity = shown(record::state(alarm), record::severity(alarm));
        worst = worst.max(severity);
        impact = impact.max(readiness(severity));
    }
    Headline {
        worst,
        readiness: impact,
    }
}

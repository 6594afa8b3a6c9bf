// The values of the bytes that say an alarm's severity and its state.
ghost use Rattle.std.specs.Prelude.{◌≡◌};
ghost use Rattle.definition.specs.Steps.{action_state};
ghost use Rattle.model.specs.Meaning.{action_of};
ghost use Rattle.record.specs.Values.{severity_number, state_number};

use model::Action;

#[derive(Clone, Copy, PartialEq, Eq)]
pub enum Severity {
    Cleared = 0,
    Indeterminate = 1,
    Warning = 2,
    Minor = 3,
    Major = 4,
    Critical = 5,
}

// An alarm is active in the first four.
#[derive(Clone, Copy, PartialEq, Eq)]
pub enum State {
    Raised = 0,
    Updated = 1,
    Acknowledged = 2,
    Suppressed = 3,
    Cleared = 4,
    Expired = 5,
}

impl From<Severity> for u8 {
    ghost from_gives = { λ severity n. n ≡ severity_number severity };

    fn from(severity: Severity) -> u8
        ensures { result ≡ severity_number severity }
    {
        severity as u8
    }
}

impl From<State> for u8 {
    ghost from_gives = { λ state n. n ≡ state_number state };

    fn from(state: State) -> u8
        ensures { result ≡ state_number state }
    {
        state as u8
    }
}

// The state of an alarm that is acted on.
impl From<Action> for State {
    ghost from_gives = { λ action state. state_number state ≡ action_state (action_of action) };

    fn from(action: Action) -> State
        ensures { state_number result ≡ action_state (action_of action) }
    {
        match action {
            Action::Acknowledge => State::Acknowledged,
            Action::Suppress => State::Suppressed,
        }
    }
}

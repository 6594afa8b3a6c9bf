// The codes of answers, the first byte of each.
ghost use Rattle.std.specs.Prelude.{◌≡◌};
ghost use Rattle.answers.specs.Code.{code_number};

// An answer's code, by its number in documents 01 and 02 (docs/NUMBERS.md).
#[derive(Clone, Copy, PartialEq, Eq)]
pub enum Code {
    Raised = 1,
    Updated = 2,
    Cleared = 3,
    ClearWithoutActive = 4,
    ActiveLimitExceeded = 5,
    Suppressed = 6,
    Acknowledged = 7,
    Unauthorized = 8,
    AuditFailed = 9,
    NotFound = 10,
    // How many alarms an expiry or a lift took, or a list or summary of what the register holds.
    Report = 11,
}

impl From<Code> for u8 {
    ghost from_gives = { λ code n. n ≡ code_number code };

    fn from(code: Code) -> u8
        ensures { result ≡ code_number code }
    {
        code as u8
    }
}

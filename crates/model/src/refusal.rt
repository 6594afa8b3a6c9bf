// What an opening, a call or a look at the panel is refused with.
ghost use Rattle.std.specs.Prelude.{◌≡◌};
ghost use Rattle.model.specs.Refusal.{refusal_number};

// A refusal, by its number in documents 01 and 02 (docs/NUMBERS.md).
#[derive(Clone, Copy, PartialEq, Eq)]
pub enum Refusal {
    // A limit is 0 or above 65,535.
    Limits = 20,
    // The register has not the length that its limits ask for.
    RegisterLength = 21,
    Unsound = 22,
    // The call is empty, or its operation is not known.
    Operation = 23,
    // The call ends early, or bytes are left over.
    CallLength = 24,
    // A byte is outside its values.
    Value = 25,
    // A length is above its limit.
    TooLong = 26,
    // A string is not UTF-8.
    Utf8 = 27,
    Cause = 28,
    // A raise's region is empty.
    Region = 29,
    // The answer's slice is too short, or a panel block has not eight bytes.
    AnswerLength = 30,
    // A raise would store an id that is active.
    IdActive = 31,
    // A raise's text has more than 120 code points.
    CodePoints = 33,
    // A suppression's end is not later than the call's time.
    End = 34,
}

impl From<Refusal> for u32 {
    ghost from_gives = { λ refusal n. n ≡ refusal_number refusal };

    fn from(refusal: Refusal) -> u32
        ensures { result ≡ refusal_number refusal }
    {
        refusal as u32
    }
}

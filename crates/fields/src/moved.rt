// What is read of a part of a call, and what it is in the call's places.
ghost use Rattle.std.specs.Prelude.{◌≡◌, ◌+◌, ◌^◌, ◌<◌, ℕ};

use model::{CauseSpan, Span};

// A value that may have places in the slice that it was read of.
pub(crate) trait Moved: Copy {
    // Where it starts in the slice, if it has a place there.
    ghost start: { Self → ℕ };

    // The same value, in the places of a slice of which that slice is the part from i on.
    ghost on: { ℕ → Self → Self };

    fn on(self, i: usize) -> Self
        requires { i + start self < 2 ^ 64 }
        ensures { result ≡ on i self };
}

impl Moved for u64 {
    ghost start = { λ v. 0 };

    ghost on = { λ i v. v };

    fn on(self, _i: usize) -> u64 {
        self
    }
}

impl Moved for u8 {
    ghost start = { λ v. 0 };

    ghost on = { λ i v. v };

    fn on(self, _i: usize) -> u8 {
        self
    }
}

impl Moved for Span {
    ghost use Rattle.fields.specs.Moved.{span_on};

    ghost start = { λ p. p.at };

    ghost on = { span_on };

    fn on(self, i: usize) -> Span {
        Span {
            at: i + self.at,
            len: self.len,
        }
    }
}

impl Moved for Option<Span> {
    ghost use Rattle.fields.specs.Moved.{option_on, option_start};

    ghost start = { option_start };

    ghost on = { option_on };

    fn on(self, i: usize) -> Option<Span> {
        match self {
            None => None,
            Some(span) => Some(span.on(i)),
        }
    }
}

impl Moved for CauseSpan {
    ghost use Rattle.fields.specs.Moved.{cause_on, cause_start};

    ghost start = { cause_start };

    ghost on = { cause_on };

    fn on(self, i: usize) -> CauseSpan {
        match self {
            CauseSpan::Name(k) => CauseSpan::Name(k),
            CauseSpan::Other(span) => CauseSpan::Other(span.on(i)),
        }
    }
}

// What a reader answers: a value, and the place behind it. Places count from the start of the slice that the reader received.
#[derive(Clone, Copy)]
pub struct Read<T> {
    pub value: T,
    pub next: usize,
}

impl<T: Moved> Read<T> {
    // What was read of the part from i on, in the places of the whole.
    pub(crate) fn behind(self, i: usize) -> Read<T>
        requires start { i + T.start self.value < 2 ^ 64 }
        requires end { i + self.next < 2 ^ 64 }
        ensures value { result.value ≡ T.on i self.value }
        ensures next { result.next ≡ i + self.next }
    {
        Read {
            value: self.value.on(i),
            next: i + self.next,
        }
    }
}

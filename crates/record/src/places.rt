// Where the slots of a payload start, and how wide they are, in bytes. A slot starts where the one before it ends, so a width is stated once;
// the longest strings are `Record`'s. docs/LAYOUT.md has the numbers that come of it.
use model::Record;

// How wide slots are. In front of a string's room stands its length; in front of what is optional or has kinds, a mark.
#[derive(Drop)]
pub struct Slot {}

impl Slot {
    pub const MARK: usize = 1;

    pub const LENGTH: usize = 2;

    // A mark and a length.
    pub const MARKED: usize = Self::MARK + Self::LENGTH;

    pub const TIME: usize = 8;

    pub const QUEUE: usize = 2;

    pub const RAISES: usize = 4;

    pub const SHORT: usize = Self::LENGTH + Record::SHORT;

    pub const CAUSE: usize = Self::LENGTH + Record::CAUSE;

    // Text and reason.
    pub const TEXT: usize = Self::LENGTH + Record::TEXT;

    pub const OPTIONAL_TIME: usize = Self::MARK + Self::TIME;

    pub const OPTIONAL_SHORT: usize = Self::MARKED + Record::SHORT;

    pub const OPTIONAL_REGION: usize = Self::MARKED + Record::REGION;

    pub const OPTIONAL_DETAILS: usize = Self::MARKED + Record::DETAILS;

    pub const OBJECT: usize = ObjectAt::QUEUE + Self::QUEUE;

    pub const SCOPE: usize = Self::MARKED + Record::SHORT;

    // What an alarm and an event leave of their payload.
    pub const ALARM_SPARE: usize = Record::PAYLOAD - AlarmAt::SPARE;

    pub const EVENT_SPARE: usize = Record::PAYLOAD - EventAt::SPARE;
}

// Where the slots of an alarm start.
#[derive(Drop)]
pub struct AlarmAt {}

impl AlarmAt {
    pub const KEY: usize = 0;

    pub const SEVERITY: usize = Self::KEY + Record::KEY;

    pub const STATE: usize = Self::SEVERITY + 1;

    pub const RAISED_AT: usize = Self::STATE + 1;

    pub const UPDATED_AT: usize = Self::RAISED_AT + Slot::TIME;

    pub const CLEARED_AT: usize = Self::UPDATED_AT + Slot::TIME;

    pub const ID: usize = Self::CLEARED_AT + Slot::OPTIONAL_TIME;

    pub const TYPE: usize = Self::ID + Slot::SHORT;

    pub const CAUSE: usize = Self::TYPE + Slot::SHORT;

    pub const OBJECT: usize = Self::CAUSE + Slot::CAUSE;

    pub const TENANT: usize = Self::OBJECT + Slot::OBJECT;

    pub const SLICE: usize = Self::TENANT + Slot::OPTIONAL_SHORT;

    pub const REGION: usize = Self::SLICE + Slot::OPTIONAL_SHORT;

    pub const TEXT: usize = Self::REGION + Slot::OPTIONAL_REGION;

    pub const DETAILS: usize = Self::TEXT + Slot::TEXT;

    pub const RAISES: usize = Self::DETAILS + Slot::OPTIONAL_DETAILS;

    pub const END: usize = Self::RAISES + Slot::RAISES;

    pub const SPARE: usize = Self::END + Slot::OPTIONAL_TIME;
}

// Where the parts of an affected object start in its slot: behind its kind, the first string, the mark and the second string, and the queue.
#[derive(Drop)]
pub struct ObjectAt {}

impl ObjectAt {
    pub const FIRST: usize = Slot::MARK;

    pub const MARK: usize = Self::FIRST + Slot::SHORT;

    pub const SECOND: usize = Self::MARK + Slot::MARK;

    pub const QUEUE: usize = Self::SECOND + Slot::SHORT;
}

// Where the slots of an event start.
#[derive(Drop)]
pub struct EventAt {}

impl EventAt {
    pub const ACTION: usize = 0;

    pub const OUTCOME: usize = Self::ACTION + 1;

    pub const OCCURRED_AT: usize = Self::OUTCOME + 1;

    pub const ID: usize = Self::OCCURRED_AT + Slot::TIME;

    pub const TYPE: usize = Self::ID + Slot::SHORT;

    pub const CAUSE: usize = Self::TYPE + Slot::SHORT;

    pub const PRINCIPAL: usize = Self::CAUSE + Slot::CAUSE;

    pub const TENANT: usize = Self::PRINCIPAL + Slot::SHORT;

    pub const REASON: usize = Self::TENANT + Slot::OPTIONAL_SHORT;

    pub const SCOPE: usize = Self::REASON + Slot::TEXT;

    pub const CORRELATION: usize = Self::SCOPE + Slot::SCOPE;

    pub const SPARE: usize = Self::CORRELATION + Slot::OPTIONAL_SHORT;
}

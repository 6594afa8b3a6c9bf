// A string's room is the bytes that its slot reserves for it: the string, and what stands behind it. Both are tested
// in one loop whose number of turns is the room's and not the string's, so that LLVM takes many bytes at a time and
// the processor predicts each turn.
//
// For that a ruler is laid along the room: as many bytes of the highest bit alone as the widest room has, and then as
// many bytes of ones. The former end where the string ends: `and` with the ruler leaves the highest bits of the string,
// which ASCII has not, and all that stands behind it.
ghost use Rattle.std.specs.Prelude.{◌≡◌, ◌&&◌, ◌≤◌, length, take, drop};
ghost use Rattle.octets.specs.Bytes.{blank};
ghost use Rattle.utf8.specs.Meaning.{plain};
ghost use Rattle.record_check.specs.Ruler.{ruler_bytes, under};

use model::Record;

// Twice the widest room.
const RULER: usize = 2 * Record::DETAILS;

// A byte's highest bit.
const HIGH: u8 = 128;

const HIGHS: [u8; Record::TEXT] = [HIGH; Record::TEXT];

const ONES: [u8; Record::TEXT] = [255; Record::TEXT];

// The ruler, in rows of half the widest room. A constant is read where it lies; an array filled at each call stood on the stack three times.
const ROWS: [[u8; Record::TEXT]; 4] = [HIGHS, HIGHS, ONES, ONES];

// What is laid along rooms: a caller makes one for a whole register.
#[derive(Drop)]
pub struct Ruler {
    bytes: [u8; RULER],
    ghost is_ruler: { bytes ≡ ruler_bytes },
}

impl Ruler {
    pub fn new() -> Ruler
        ensures { result.bytes ≡ ruler_bytes }
    {
        Ruler {
            bytes: *ROWS.as_flattened().first_chunk().unwrap(),
        }
    }

    // Whether the first m bytes of a room are ASCII, and the others zero.
    pub(crate) fn is_plain(&self, room: &[u8], m: usize) -> bool
        requires { (m ≤ length room.now) × (length room.now ≤ 512) }
        ensures { result ≡ plain (take m room.now) && blank (drop m room.now) }
    {
        let a = Record::DETAILS - m;
        let e = a + room.len();
        is_clear(room, &self.bytes[a..e])
    }
}

// Whether `and` with the ruler leaves nothing of the room.
fn is_clear(room: &[u8], ruler: &[u8]) -> bool
    requires { length room.now ≡ length ruler.now }
    ensures { result ≡ blank (under room.now ruler.now) }
{
    let mut left = 0;
    for (x, y) in room.iter().zip(ruler) {
        left |= *x & *y;
    }
    left == 0
}

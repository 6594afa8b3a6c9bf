// A table of ratings by first appearance: for each the record in which it appears first, and how often it appears.
//
// `collect` makes it of the chain's first places, as far as there is room for their ratings; `count_on` counts the
// places behind them in the rows. A rating is compared with the rows one by one.
ghost use Rattle.std.specs.Prelude.{◌≡◌, true, false, ◌+◌, ◌≤◌, ◌<◌, T, length, drop, get_or, IfSome};
ghost use Rattle.std.specs.Option.{unwrap_or};
ghost use Rattle.octets.specs.Bytes.{at32};
ghost use Rattle.octets.specs.Put.{Put};
ghost use Rattle.definition.specs.Sound.{sound};
ghost use Rattle.history.specs.Walk.{records_on, Reached};
ghost use Rattle.metrics.specs.Meaning.{Fits, rating_at, most_rows, records, amounts, AllFit, AllSmall, RowOf, CountedIn, Noted, Collected, Tallied, row_ratings, row_entries, sizes};

use super::rating;
use history::Walk;
use model::Answer;
use register::Chain;

// The most rows.
const ROOM: usize = 1024;

// The record in which a rating appears first, and how often it appears.
#[derive(Clone, Copy)]
struct Row {
    record: u32,
    amount: u32,
}

// The first `held` of `rows` are its rows: they have the ratings of all places before `place`, at which record `at` stands.
#[derive(Drop)]
pub(crate) struct Table {
    pub(crate) held: usize,
    pub(crate) place: u32,
    pub(crate) at: u32,
    rows: [Row; ROOM],
}

impl Table {
    // A table that covers nothing.
    pub(crate) fn new() -> Table
        ensures { (result.held ≡ 0)
            × (result.place ≡ 0)
            × (result.at ≡ 0)
            × (length (records result.rows) ≡ most_rows)
            × (length (amounts result.rows) ≡ most_rows) }
    {
        Table {
            held: 0,
            place: 0,
            at: 0,
            rows: [Row {
                record: 0,
                amount: 0,
            }; ROOM],
        }
    }

    // The row that has the rating of record i's alarm, if one has it.
    pub(crate) fn row_of(&self, register: &[u8], i: u32) -> Option<usize>
        requires { (self.now.held ≤ most_rows)
            × AllFit register.now self.now.held (records self.now.rows)
            × Fits register.now i }
        ensures row { RowOf
            register.now
            (records self.now.rows)
            self.now.held
            (rating_at register.now i)
            (unwrap_or result self.now.held) }
        ensures within { IfSome result (λ j. j < self.now.held) }
    {
        self.rows[..self.held]
            .iter()
            .position(|row| rating::same(register, row.record, i))
    }

    // Adds one to the amount of a row, if it is one.
    fn count_in(&mut self, row: Option<usize>)
        requires { (self.old.held ≤ most_rows)
            × AllSmall self.old.held (amounts self.old.rows)
            × IfSome row (λ j. j < self.old.held) }
        ensures counted { CountedIn
            (amounts self.old.rows)
            self.old.held
            (unwrap_or row self.old.held)
            (amounts self.new.rows) }
        ensures same_rows { self.new.held ≡ self.old.held }
        ensures same_place { self.new.place ≡ self.old.place }
        ensures same_at { self.new.at ≡ self.old.at }
        ensures same_records { records self.new.rows ≡ records self.old.rows }
    {
        if let Some(j) = row {
            self.rows[j].amount += 1;
        }
    }

    // Adds record i's alarm: to the amount of its row, or as a row of its own. False where it has no row and none is left;
    // then nothing changes.
    fn note(&mut self, register: &[u8], i: u32) -> bool
        requires { (self.old.held ≤ most_rows)
            × AllFit register.now self.old.held (records self.old.rows)
            × Fits register.now i
            × AllSmall self.old.held (amounts self.old.rows) }
        ensures added { result ≡ true → Noted
            register.now
            i
            self.old.held
            (records self.old.rows)
            (amounts self.old.rows)
            self.new.held
            (records self.new.rows)
            (amounts self.new.rows) }
        ensures left { result ≡ false → self.new ≡ self.old }
        ensures same_place { self.new.place ≡ self.old.place }
        ensures same_at { self.new.at ≡ self.old.at }
    {
        let row = self.row_of(register, i);
        if row.is_some() {
            self.count_in(row);
            return true;
        }
        if self.held == ROOM {
            return false;
        }
        self.rows[self.held] = Row {
            record: i,
            amount: 1,
        };
        self.held += 1;
        true
    }

    // Adds the active alarms to an empty table, as far as there is room for their ratings. In its place: a table that was given back would stand
    // on the stack twice.
    pub(crate) fn collect(&mut self, register: &[u8])
        requires sound { T (sound register.now) }
        requires empty { (self.old.held ≡ 0)
            × (self.old.place ≡ 0)
            × (self.old.at ≡ 0)
            × (length (records self.old.rows) ≡ most_rows)
            × (length (amounts self.old.rows) ≡ most_rows) }
        ensures { Collected
            register.now
            self.new.place
            self.new.at
            self.new.held
            (records self.new.rows)
            (amounts self.new.rows) }
    {
        for i in history::records(register, Chain::Active) {
            if !self.note(register, i) {
                self.at = i;
                return;
            }
            self.place += 1;
        }
    }

    // The records of the places that the table does not cover.
    pub(crate) fn behind<'a>(&self, register: &'a [u8]) -> Walk<'a>
        requires { Reached
            register.now
            0
            (at32 register.now 16)
            self.now.place
            self.now.at }
        ensures { result ≡ drop self.now.place (records_on 0 register.now) }
    {
        history::records_from(register, Chain::Active, self.place, self.at)
    }

    // Counts the alarms that the table does not cover in their rows; those whose rating no row has are left.
    pub(crate) fn count_on(&mut self, register: &[u8])
        requires { T (sound register.now)
            × Collected
            register.now
            self.old.place
            self.old.at
            self.old.held
            (records self.old.rows)
            (amounts self.old.rows) }
        ensures counted { Tallied register.now self.new.held (records self.new.rows) (amounts self.new.rows) }
        ensures same_rows { self.new.held ≡ self.old.held }
        ensures same_place { self.new.place ≡ self.old.place }
        ensures same_at { self.new.at ≡ self.old.at }
        ensures same_records { records self.new.rows ≡ records self.old.rows }
    {
        for i in self.behind(register) {
            let row = self.row_of(register, i);
            self.count_in(row);
        }
    }

    // Where the entries of the rows end in the answer.
    pub(crate) fn rows_end(&self, register: &[u8]) -> usize
        requires { (self.now.held ≤ most_rows)
            × AllFit register.now self.now.held (records self.now.rows)
            × (length (records self.now.rows) ≡ most_rows) }
        ensures { result ≡ 16 + sizes (row_ratings register.now self.now.held (records self.now.rows)) }
    {
        let mut end = Answer::HEAD;
        for row in &self.rows[..self.held] {
            end += rating::ENTRY + rating::cause(register, row.record).len();
        }
        end
    }

    // Puts the entries of the rows into the answer, behind its head.
    pub(crate) fn put_rows(&self, register: &[u8], answer: &mut [u8]) -> usize
        requires { Tallied register.now self.now.held (records self.now.rows) (amounts self.now.rows)
            × (16 + length (row_entries register.now self.now.held (records self.now.rows) (amounts self.now.rows)) ≤ length answer.old) }
        ensures { Put
            answer.old
            16
            (row_entries register.now self.now.held (records self.now.rows) (amounts self.now.rows))
            result
            answer.new }
    {
        let mut end = Answer::HEAD;
        for row in &self.rows[..self.held] {
            end = answers::put_count(
                answer,
                end,
                rating::severity(register, row.record),
                row.amount,
                rating::cause(register, row.record),
            );
        }
        end
    }
}

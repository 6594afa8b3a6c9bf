// Writes which byte strings the check of UTF-8 accepts, and how many code points it counts. The expected output, the file `stdout`, is
// decided by another check, the decoder of Python: `python3 tests/vectors/utf8.py` writes it, and `stdin`.
//
// The proof says that the code is the definition; this program holds both to the world outside, and shows the rows of RFC 3629,
// section 4, as the code has them: for the empty string, the single bytes, and all pairs of a first and a second byte with each of 21
// endings. Then it tries the strings of `stdin`, which lie at the rows' edges, at many places in ASCII, and shows their code points too.
#![tactic(auto)]

ghost use Rattle.std.specs.Prelude.{◌≡◌, ◌+◌, ◌≤◌, ◌<◌, length};

use std::io;
use std::io::{Read, Write};

fn say<W: Write>(writer: &mut W, text: &[u8]) -> io::Result<()> {
    writer.write_all(text)
}

fn end_line<W: Write>(writer: &mut W) -> io::Result<()> {
    say(writer, b"\n")
}

fn show_byte<W: Write>(writer: &mut W, b: u8) -> io::Result<()> {
    write!(writer, "{b:02x}")
}

// ---- the check

// The answer for s, with and without a look for ASCII first. Where the two differ, s is not accepted, and a `!` goes out, which is in no
// expected output.
fn answer<W: Write>(writer: &mut W, s: &[u8]) -> io::Result<Option<usize>> {
    let quick = utf8::check(s);
    if quick == utf8::check_run(s) {
        return Ok(quick);
    }
    say(writer, b"!")?;
    Ok(None)
}

// ---- sets of bytes: a mark for each, and behind the last a mark that is never set

// A byte of the set: a range begins with it if the one before is not in the set, and ends with it if the one behind is not.
fn show_member<W: Write>(writer: &mut W, b: u8, before: bool, behind: bool) -> io::Result<()> {
    if !before {
        say(writer, b" ")?;
        show_byte(writer, b)?;
    }
    if !behind {
        say(writer, b"-")?;
        show_byte(writer, b)?;
    }
    Ok(())
}

fn show_ranges<W: Write>(writer: &mut W, marks: &[bool; 257]) -> io::Result<()> {
    let mut before = false;
    for b in 0..256 {
        if marks[b] {
            show_member(writer, b as u8, before, marks[b + 1])?;
        }
        before = marks[b];
    }
    end_line(writer)
}

// The bytes with which s is accepted, each put at a place of it.
fn fitting<W: Write>(writer: &mut W, s: &mut [u8], at: usize) -> io::Result<[bool; 257]>
    requires { at < length s.old }
{
    let mut marks = [false; 257];
    for b in 0..256 {
        s[at] = b as u8;
        marks[b] = answer(writer, s)?.is_some();
    }
    Ok(marks)
}

fn show_singles<W: Write>(writer: &mut W) -> io::Result<()> {
    let mut s = [0u8; 1];
    let marks = fitting(writer, &mut s, 0)?;
    say(writer, b"single bytes")?;
    show_ranges(writer, &marks)
}

// ---- pairs

// The second bytes with which a first byte and an ending x, y are accepted, cut to n bytes in all.
fn seconds<W: Write>(writer: &mut W, first: u8, x: u8, y: u8, n: usize) -> io::Result<[bool; 257]>
    requires { (2 ≤ n) × (n ≤ 4) }
{
    let mut s = [first, 0, x, y];
    fitting(writer, &mut s[..n], 1)
}

fn show_row<W: Write>(writer: &mut W, from: u8, to: u8, marks: &[bool; 257]) -> io::Result<()> {
    show_byte(writer, from)?;
    say(writer, b"-")?;
    show_byte(writer, to)?;
    say(writer, b":")?;
    show_ranges(writer, marks)
}

// The rows of an ending. First bytes side by side that have the same second bytes are one row, so that all 65,536 verdicts are in few lines.
fn show_rows<W: Write>(writer: &mut W, x: u8, y: u8, n: usize) -> io::Result<()>
    requires { (2 ≤ n) × (n ≤ 4) }
{
    let mut from = 0;
    let mut row = seconds(writer, 0, x, y, n)?;
    for first in 1..256_usize {
        let first = first as u8;
        let next = seconds(writer, first, x, y, n)?;
        if row != next {
            show_row(writer, from, first - 1, &row)?;
            from = first;
            row = next;
        }
    }
    show_row(writer, from, 255, &row)
}

// The least and the greatest tail, and their neighbours outside: what endings are made of.
const EDGES: [u8; 4] = [0x7F, 0x80, 0xBF, 0xC0];

fn no_ending<W: Write>(writer: &mut W) -> io::Result<()> {
    say(writer, b"\nending\n")?;
    show_rows(writer, 0, 0, 2)
}

fn one_byte<W: Write>(writer: &mut W, x: u8) -> io::Result<()> {
    say(writer, b"\nending ")?;
    show_byte(writer, x)?;
    end_line(writer)?;
    show_rows(writer, x, 0, 3)
}

fn two_bytes<W: Write>(writer: &mut W, x: u8, y: u8) -> io::Result<()> {
    say(writer, b"\nending ")?;
    show_byte(writer, x)?;
    say(writer, b" ")?;
    show_byte(writer, y)?;
    end_line(writer)?;
    show_rows(writer, x, y, 4)
}

fn each_byte<W: Write>(writer: &mut W) -> io::Result<()> {
    for x in EDGES {
        one_byte(writer, x)?;
    }
    Ok(())
}

fn each_byte_behind<W: Write>(writer: &mut W, x: u8) -> io::Result<()> {
    for y in EDGES {
        two_bytes(writer, x, y)?;
    }
    Ok(())
}

fn each_two_bytes<W: Write>(writer: &mut W) -> io::Result<()> {
    for x in EDGES {
        each_byte_behind(writer, x)?;
    }
    Ok(())
}

// ---- texts: strings with 20 bytes of ASCII before them and 8 behind

const BEFORE: usize = 20;

const BEHIND: usize = 8;

// The ends of a text, with 0 to 8 bytes left out, and the parts: each end from each of 21 places on.
const ENDS: usize = BEHIND + 1;

const PARTS: usize = (BEFORE + 1) * ENDS;

// More code points than any text has: its buffer has 4,096 bytes. A greater count is taken for this one, wrong as well, so that sums fit.
const TOO_MANY: usize = 65536;

fn show_hex<W: Write>(writer: &mut W, s: &[u8]) -> io::Result<()> {
    for b in s {
        show_byte(writer, *b)?;
    }
    Ok(())
}

// How many of nine strings are accepted: a text from a place on, whole and with 1 to 8 bytes of its end left out.
fn accepted<W: Write>(writer: &mut W, text: &[u8], from: usize) -> io::Result<usize>
    requires { from + 8 ≤ length text.now }
{
    let mut count = 0;
    for out in 0..ENDS {
        let e = text.len() - out;
        if answer(writer, &text[from..e])?.is_some() {
            count += 1;
        }
    }
    Ok(count)
}

// How many code points the whole text has, by the check of a part: the part's, and one for each byte of ASCII left out, `from` before it
// and `out` behind it. 0 where the part is not accepted.
fn by_part<W: Write>(writer: &mut W, text: &[u8], from: usize, out: usize) -> io::Result<usize>
    requires { (from ≤ 20) × (out ≤ 8) × (from + out ≤ length text.now) }
{
    let e = text.len() - out;
    match answer(writer, &text[from..e])? {
        Some(n) => Ok(n.min(TOO_MANY) + from + out),
        None => Ok(0),
    }
}

// The least and the greatest of these numbers, by all 189 parts. By Python all are the same: where the two here are that number, each part's
// count is Python's, and no wrong one can be made up for by another, as in a sum.
fn show_code_points<W: Write>(writer: &mut W, text: &[u8]) -> io::Result<()>
    requires { 28 ≤ length text.now }
{
    let mut least = by_part(writer, text, 0, 0)?;
    let mut greatest = least;
    for k in 1..PARTS {
        let n = by_part(writer, text, k / ENDS, k % ENDS)?;
        least = least.min(n);
        greatest = greatest.max(n);
    }
    write!(writer, "{least}-{greatest}")
}

// A line for a text: its string, a digit for each place up to it where the text can begin, and how many code points the text has.
fn show_text<W: Write>(writer: &mut W, text: &[u8]) -> io::Result<()> {
    if text.len() < BEFORE + BEHIND {
        return Ok(());
    }
    let e = text.len() - BEHIND;
    show_hex(writer, &text[BEFORE..e])?;
    say(writer, b" ")?;
    for from in 0..=BEFORE {
        let count = accepted(writer, text, from)?;
        write!(writer, "{count}")?;
    }
    say(writer, b" ")?;
    show_code_points(writer, text)?;
    end_line(writer)
}

// The texts of the input, each behind its length in two bytes. A proved loop ends, and nothing says that the input does: the turns are counted
// to a number that no run uses up.
fn texts<R: Read, W: Write>(reader: &mut R, writer: &mut W) -> io::Result<()> {
    say(writer, b"\ntexts\n")?;
    let mut buf = [0u8; 4096];
    for _ in 0..u64::MAX {
        let Some(n) = reading::read_behind_length::<2, R>(reader, &mut buf)? else {
            break;
        };
        show_text(writer, &buf[..n])?;
    }
    Ok(())
}

fn main(rt: HostRuntime) -> io::Result<()> {
    let mut reader = rt.reader();
    let mut writer = io::writer(&rt);
    say(&mut writer, b"empty ")?;
    let empty = u8::from(answer(&mut writer, b"")?.is_some());
    write!(writer, "{empty}")?;
    end_line(&mut writer)?;
    show_singles(&mut writer)?;
    no_ending(&mut writer)?;
    each_byte(&mut writer)?;
    each_two_bytes(&mut writer)?;
    texts(&mut reader, &mut writer)
}

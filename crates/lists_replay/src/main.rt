// Opens and steps registers by the lists of its standard input, and writes a line for each order: the number, the answer's length, and
// the SHA-256 of the answer's bytes. The files `stdin` and `stdout` of this crate are made by `python3 compare/recorded.py write`: the
// answers are those of the Rust, in document 01's bytes. compare/lists/src/lib.rs says how a list is written.
//
// A witness from outside: the prover says that the entry points equal the definition, and these lists that the definition gives what the Rust
// answered. `rt ci` runs the program and compares what it writes with `stdout`.
#![tactic(auto)]

use std::io;
use std::io::{Read, Write};

fn say<W: Write>(writer: &mut W, text: &[u8]) -> io::Result<()> {
    writer.write_all(text)
}

fn show_digest<W: Write>(writer: &mut W, message: &[u8]) -> io::Result<()> {
    let digest = sha256::sha256(message);
    let mut digits = [0u8; 64];
    key::put_hex(&mut digits, 0, &digest);
    say(writer, &digits)
}

// The line of an order. A length beyond the answer's slice gives a line that is never expected.
fn show<W: Write>(writer: &mut W, number: u32, answer: &[u8], length: u64) -> io::Result<()> {
    write!(writer, "{number} {length} ")?;
    let n = length as usize;
    if answer.len() < n {
        return say(writer, b"outside\n");
    }
    show_digest(writer, &answer[..n])?;
    say(writer, b"\n")
}

fn open_by<W: Write>(writer: &mut W, register: &mut [u8], limits: &[u8; 17]) -> io::Result<()> {
    let active = octets::get32(limits, 0);
    let history = octets::get32(limits, 4);
    let audit = octets::get32(limits, 8);
    let mut length = 0;
    let number = station::alarm_open(register, active, history, audit, &mut length);
    show(writer, number, b"", length)
}

// An opening: A, H, E and the register's length, and a byte that is not used. Gives the register's length, if there was an opening that fits.
fn open<R: Read, W: Write>(
    reader: &mut R,
    writer: &mut W,
    work: &mut [u8],
) -> io::Result<Option<usize>> {
    let mut fields = [0u8; 17];
    if reading::read_full(reader, &mut fields)? < 17 {
        return Ok(None);
    }
    let size = octets::get32(&fields, 12) as usize;
    if work.len() < size {
        return Ok(None);
    }
    open_by(writer, &mut work[..size], &fields)?;
    Ok(Some(size))
}

fn step_by<W: Write>(
    writer: &mut W,
    register: &mut [u8],
    call: &[u8],
    answer: &mut [u8],
) -> io::Result<()> {
    let mut length = 0;
    let number = station::alarm_step(register, call, answer, &mut length);
    show(writer, number, answer, length)
}

// A step: the answer's length, a byte that is not used, the call's length, and the call. Says whether there was one that fits; a call with no
// room, its own or its answer's, is not waited for.
fn step<R: Read, W: Write>(
    reader: &mut R,
    writer: &mut W,
    register: &mut [u8],
) -> io::Result<bool> {
    let mut fields = [0u8; 9];
    if reading::read_full(reader, &mut fields)? < 9 {
        return Ok(false);
    }
    let room = octets::get32(&fields, 0) as usize;
    let n = octets::get32(&fields, 5) as usize;
    let mut call = [0u8; 4096];
    let mut answer = [0u8; 19968];
    if call.len() < n || answer.len() < room {
        return Ok(false);
    }
    if reading::read_full(reader, &mut call[..n])? < n {
        return Ok(false);
    }
    step_by(writer, register, &call[..n], &mut answer[..room])?;
    Ok(true)
}

fn step_first<R: Read, W: Write>(
    reader: &mut R,
    writer: &mut W,
    work: &mut [u8],
    size: usize,
) -> io::Result<Option<usize>> {
    if work.len() < size {
        return Ok(None);
    }
    let stepped = step(reader, writer, &mut work[..size])?;
    Ok(stepped.then_some(size))
}

// The next order on the register that is the work's first bytes. Gives the register's length after it, if there was an order.
fn next<R: Read, W: Write>(
    reader: &mut R,
    writer: &mut W,
    work: &mut [u8],
    size: usize,
) -> io::Result<Option<usize>> {
    let mut letter = [0u8; 1];
    if reading::read_full(reader, &mut letter)? < 1 {
        return Ok(None);
    }
    match letter[0] {
        b'o' => open(reader, writer, work),
        b's' => step_first(reader, writer, work, size),
        _ => Ok(None),
    }
}

// A proved loop ends, and nothing says that the input does: the turns are counted to a number that no run uses up. The work has room for
// a register of twelve records.
fn main(rt: HostRuntime) -> io::Result<()> {
    let mut reader = rt.reader();
    let mut writer = io::writer(&rt);
    let mut work = [0u8; 19968];
    let mut size = 0;
    for _ in 0..u64::MAX {
        match next(&mut reader, &mut writer, &mut work, size)? {
            Some(left) => size = left,
            None => break,
        }
    }
    Ok(())
}

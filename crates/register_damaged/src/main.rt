// Damages sound registers as its input orders, and writes what the check says of each: an outside witness of register_check, whose
// contract says that its verdict is the definition's, but not that the definition is what is meant.
//
// The input: the length of the registers' bytes, these bytes, and orders of three numbers, which load a register, write a number into
// it, ask for a verdict and the chains' ends, or change each byte in turn and ask for a verdict each time. It and the expected output
// are made by `python3 tests/register/make.py`, which has a check of its own, written from docs/layout.json.
#![tactic(auto)]

ghost use Rattle.std.specs.Prelude.{◌≡◌, length};

use register_check::check;
use std::io;
use std::io::Write;

// The verdict on the first n bytes, and where the chains end.
fn report<W: Write>(writer: &mut W, work: &[u8], n: usize) -> io::Result<()> {
    if work.len() < n {
        return Ok(());
    }
    let Some(ends) = check(&work[..n]) else {
        return writer.write_all(b"unsound\n");
    };
    writeln!(
        writer,
        "sound {} {} {}",
        ends.active, ends.history, ends.audit
    )
}

// A verdict as one character.
fn verdict(register: &[u8]) -> u8 {
    if check(register).is_some() {
        b's'
    } else {
        b'-'
    }
}

// The verdicts on a register of which each byte in turn is changed, 64 to a line.
fn flip<W: Write>(writer: &mut W, register: &mut [u8], mask: u8) -> io::Result<()> {
    let mut line = [b'\n'; 65];
    for i in 0..register.len() {
        register[i] ^= mask;
        line[i % 64] = verdict(register);
        register[i] ^= mask;
        if i % 64 == 63 {
            writer.write_all(&line)?;
        }
    }
    Ok(())
}

fn flip_first<W: Write>(writer: &mut W, work: &mut [u8], n: usize, mask: u32) -> io::Result<()> {
    if work.len() < n {
        return Ok(());
    }
    flip(writer, &mut work[..n], (mask % 256) as u8)
}

// The n bytes from a place on, and zeros behind them.
fn load(work: &mut [u8], bytes: &[u8], from: u32, count: u32) {
    let at = from as usize;
    let n = count as usize;
    if bytes.len() < at + n || work.len() < n {
        return;
    }
    work[..n].copy_from_slice(&bytes[at..at + n]);
    work[n..].fill(0);
}

fn write(work: &mut [u8], place: u32, value: u32) {
    let at = place as usize;
    if work.len() < at + 4 {
        return;
    }
    octets::put32(work, at, value);
}

// What the input orders.
#[derive(Clone, Copy)]
enum Order {
    Load { from: u32, count: u32 },
    Write { place: u32, value: u32 },
    Report { length: u32 },
    Flip { length: u32, mask: u32 },
}

// The bytes of an order: its number, and the two that it takes.
const ORDER: usize = 12;

// None where the number is no order's.
fn order_of(bytes: &[u8]) -> Option<Order>
    requires { length bytes.now ≡ 12 }
{
    let x = octets::get32(bytes, 4);
    let y = octets::get32(bytes, 8);
    match octets::get32(bytes, 0) {
        1 => Some(Order::Load { from: x, count: y }),
        2 => Some(Order::Write { place: x, value: y }),
        3 => Some(Order::Report { length: x }),
        4 => Some(Order::Flip { length: x, mask: y }),
        _ => None,
    }
}

fn obey<W: Write>(writer: &mut W, work: &mut [u8], bytes: &[u8], order: Order) -> io::Result<()> {
    match order {
        Order::Load { from, count } => load(work, bytes, from, count),
        Order::Write { place, value } => write(work, place, value),
        Order::Report { length } => report(writer, work, length as usize)?,
        Order::Flip { length, mask } => flip_first(writer, work, length as usize, mask)?,
    }
    Ok(())
}

// The work's bytes have room for the largest register and a record more.
fn obey_all<W: Write>(writer: &mut W, bytes: &[u8], orders: &[u8]) -> io::Result<()> {
    let mut work = [0u8; 20480];
    for part in orders.chunks_exact(ORDER) {
        if let Some(order) = order_of(part) {
            obey(writer, &mut work, bytes, order)?;
        }
    }
    Ok(())
}

fn run<W: Write>(writer: &mut W, input: &[u8]) -> io::Result<()> {
    if input.len() < 4 {
        return Ok(());
    }
    let e = 4 + octets::get32(input, 0) as usize;
    if input.len() < e {
        return Ok(());
    }
    obey_all(writer, &input[4..e], &input[e..])
}

fn main(rt: HostRuntime) -> io::Result<()> {
    let mut reader = rt.reader();
    let mut writer = io::writer(&rt);
    let mut input = [0u8; 65536];
    let n = reading::read_full(&mut reader, &mut input)?;
    run(&mut writer, &input[..n])
}

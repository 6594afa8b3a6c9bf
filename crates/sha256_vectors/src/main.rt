// Prints digests in hex, one to a line: of messages of every length from 0 to 300 bytes, and of the long ones that
// FIPS 180 publishes. The expected output, the file `stdout`, is made by another SHA-256, that of Python: `python3
// tests/vectors/sha256.py`.
//
// The proof says that the code is the definition; this program holds both to the world outside.
#![tactic(auto)]

use std::io;
use std::io::Write;

fn show<W: Write>(writer: &mut W, message: &[u8]) -> io::Result<()> {
    for byte in sha256::sha256(message) {
        write!(writer, "{byte:02x}")?;
    }
    writer.write_all(b"\n")
}

// Bytes of which byte i is 7 i + 3, modulo 256.
fn pattern() -> [u8; 300] {
    std::array::from_fn(|i| ((7 * i + 3) % 256) as u8)
}

fn every_length<W: Write>(writer: &mut W) -> io::Result<()> {
    let m = pattern();
    for n in 0..=300 {
        show(writer, &m[..n])?;
    }
    Ok(())
}

// FIPS 180's messages of one and of two blocks, and NIST's of 112 bytes.
fn published<W: Write>(writer: &mut W) -> io::Result<()> {
    show(writer, b"abc")?;
    show(
        writer,
        b"abcdbcdecdefdefgefghfghighijhijkijkljklmklmnlmnomnopnopq",
    )?;
    show(
        writer,
        b"abcdefghbcdefghicdefghijdefghijkefghijklfghijklmghijklmnhijklmnoijklmnopjklmnopqklmnopqrlmnopqrsmnopqrstnopqrstu",
    )
}

// NIST's long message.
fn million<W: Write>(writer: &mut W) -> io::Result<()> {
    let a = [b'a'; 1000000];
    show(writer, &a)
}

fn main(rt: HostRuntime) -> io::Result<()> {
    let mut writer = io::writer(&rt);
    every_length(&mut writer)?;
    published(&mut writer)?;
    million(&mut writer)
}

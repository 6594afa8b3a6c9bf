// Whole pieces of a witness's input: the bytes that fill a buffer, and those that stand behind their length.
//
// What an input gives no contract can say; what is promised is how much of the buffer holds it.
#![tactic(auto)]

ghost use Rattle.std.specs.Prelude.{◌≤◌, length, IfOk, IfSome};

use std::io;
use std::io::Read;

// Reads until buf is full or the input ends, and says how many bytes came to its front.
pub fn read_full<R: Read>(reader: &mut R, buf: &mut [u8]) -> io::Result<usize>
    ensures { IfOk result (λ n. n ≤ length buf.new) }
{
    let mut done = 0;
    while done < buf.len() {
        let n = reader.read(&mut buf[done..])?;
        if n == 0 {
            break;
        }
        done += n;
    }
    Ok(done)
}

// The next bytes, behind their number in HEAD bytes, come to the front of buf. Says how many, where the input has them all and they fit.
pub fn read_behind_length<const HEAD: usize, R: Read>(
    reader: &mut R,
    buf: &mut [u8],
) -> io::Result<Option<usize>>
    requires { HEAD ≤ 8 }
    ensures { IfOk result (λ found. IfSome found (λ n. n ≤ length buf.new)) }
{
    let mut head = [0u8; HEAD];
    if read_full(reader, &mut head)? < HEAD {
        return Ok(None);
    }
    let n = octets::number(&head) as usize;
    if buf.len() < n {
        return Ok(None);
    }
    if read_full(reader, &mut buf[..n])? < n {
        return Ok(None);
    }
    Ok(Some(n))
}

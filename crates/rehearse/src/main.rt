// Reads a sheet from standard input, and writes the record of its run to standard output. Document 01, "Sheets and the printed record".
//
// No promise covers what is read and written: that the sheet is what stood at standard input, and that what is handed to the library reaches standard output,
// is the word of the library and of the system. A read that a signal interrupts before it moves a byte counts as one that failed; a write is tried again.
// What failed is told on standard error; a sheet that could not be read has no record, not even `bad 9`.
#![tactic(auto)]

ghost use Rattle.std.specs.Prelude.{◌≤◌, IfOk, length};

use std::io;
use std::io::{Read, Write};

// Reads until the buffer is full or the input ends, and answers how many bytes that made. A failed read is no end. The loop stays, since of the library's
// methods `read_to_end` wants a vector, which is on a heap, and `read_exact` does not say how far it came.
fn read_input<R: Read>(input: &mut R, buffer: &mut [u8]) -> io::Result<usize>
    ensures { IfOk result (λ n. n ≤ length buffer.new) }
{
    let mut done = 0;
    while done < buffer.len() {
        let more = input.read(&mut buffer[done..])?;
        if more == 0 {
            break;
        }
        done += more;
    }
    Ok(done)
}

// The longest sheet has 6 + 8 * 8,000 bytes. Of a longer one 64,007 or 64,008 are read, which is a part step: "bad 9".
// The buffer for the record takes that of every sheet (proofs/main): the answer is never NO ROOM.
fn main(rt: HostRuntime) -> io::Result<()> {
    let mut sheet = [0u8; 64008];
    let Ok(n) = read_input(&mut rt.stdin(), &mut sheet) else {
        return rt
            .stderr()
            .write_all(b"rehearse: the sheet could not be read\n");
    };
    let mut buffer = [0u8; 65536];
    let mut out = [0u8; rehearsal::LONGEST];
    let done = rehearsal::rehearse(&sheet[..n], &mut buffer, &mut out);
    if rt.stdout().write_all(&out[..done.length]).is_err() {
        return rt
            .stderr()
            .write_all(b"rehearse: the record could not be written whole\n");
    }
    Ok(())
}

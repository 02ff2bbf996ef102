// Lines of text for the programs that run stored vectors: numbers and refusals written out, and an input read whole.
#![tactic(auto)]

ghost use Rattle.std.specs.Prelude.{◌≡◌, ◌≤◌, min, length, take, OnOk, [], ◌∷◌};
ghost use Rattle.std.specs.Io.KnownBytes.{Appends, Consumes};
ghost use Rattle.lines.specs.Lines.{number_text, numbers_line, refused_line};

use refusals::Refusal;
use std::io::{self, Read, Write};

// The smaller of two lengths.
pub fn smaller(a: usize, b: usize) -> usize
    ensures { (result ≡ min a b) × (result ≤ a) × (result ≤ b) }
{
    a.min(b)
}

// A number after a space.
pub fn write_number<W: Write>(out: &mut W, v: u32) -> io::Result<()>
    ensures { OnOk result (Appends (W.contents out.old) (W.contents out.new) (number_text v)) }
{
    write!(out, " {v}")
}

pub fn end_line<W: Write>(out: &mut W) -> io::Result<()>
    ensures { OnOk result (Appends (W.contents out.old) (W.contents out.new) (10 ∷ [])) }
{
    writeln!(out)
}

// A word, some numbers, and the line's end.
pub fn write_line<W: Write>(out: &mut W, word: &str, numbers: &[u32]) -> io::Result<()>
    ensures { OnOk result (Appends (W.contents out.old) (W.contents out.new) (numbers_line word.now numbers.now)) }
{
    write!(out, "{word}")?;
    for number in numbers {
        write_number(out, *number)?;
    }
    end_line(out)
}

// The line of a refusal.
pub fn write_refused<W: Write>(out: &mut W, e: Refusal) -> io::Result<()>
    ensures { OnOk result (Appends (W.contents out.old) (W.contents out.new) (refused_line e)) }
{
    write_line(out, "refused", &[refusals::number_of(e)])
}

// Fills the buffer from the input, and gives how many bytes it has then: all that fit, or those before the input ends or a read fails.
pub fn read_full<R: Read>(input: &mut R, buffer: &mut [u8]) -> usize
    ensures within { result ≤ length buffer.new }
    ensures bytes { Consumes (R.remaining input.old) (R.remaining input.new) (take result buffer.new) }
{
    let mut count = 0;
    // kept: no plainer in another form, since only the read says how many bytes come
    while count < buffer.len() {
        match input.read(&mut buffer[count..]) {
            Ok(0) | Err(_) => break,
            Ok(n) => count += n,
        }
    }
    count
}

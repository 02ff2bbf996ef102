// Reads a box file from standard input and prints its sheet. The buffer has 65,536 bytes, and what a longer input has past them changes
// nothing: the sheet of any file is that of its first 1,027 bytes or more (`enough_is_read`, in the proofs of `sheet`).
#![tactic(auto)]

ghost use Rattle.std.specs.Prelude.{OnOk};
ghost use Rattle.std.specs.Io.KnownBytes.{Appends};
ghost use Rattle.sheet.specs.Sheet.{sheet_text};

use std::io::{self, Write};

fn print_sheet<W: Write>(out: &mut W, file: &[u8]) -> io::Result<()>
    ensures { OnOk result (Appends (W.contents out.old) (W.contents out.new) (sheet_text file.now)) }
{
    let mut text = [0u8; 332];
    let length = sheet::write_sheet(file, &mut text);
    out.write_all(&text[..length])
}

fn main(rt: HostRuntime) -> io::Result<()> {
    let mut buffer = [0u8; 65536];
    let count = lines::read_full(&mut rt.stdin(), &mut buffer);
    print_sheet(&mut rt.stdout(), &buffer[..count])
}

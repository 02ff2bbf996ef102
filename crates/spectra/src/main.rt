// Reads truth tables from standard input, a line of 0s and 1s each, and writes the spectrum of each and the table that its inverse gives.
// Then it writes the inverse of some values that are given here.
#![tactic(auto)]

ghost use Rattle.std.specs.Prelude.{◌≡◌, ◌≤◌, length, OnOk};
ghost use Rattle.std.specs.Io.KnownBytes.{Appends};
ghost use Rattle.spectra.specs.Printed.{value_text, spectrum_text, table_text, function_shown, spectrum_shown};
ghost use Rattle.spectra.specs.Printed.{table_shown, line_shown, lines_shown, values_shown};
ghost use Rattle.spectra.specs.Reading.{line_end, width_of, digit_of, digits_of};

use refusals::Refusal;
use std::io::{self, Write};

const LINE_END: u8 = b'\n';

// Where the line that starts at `from` ends.
fn line_end(text: &[u8], from: usize) -> usize
    requires { from ≤ length text.now }
    ensures { (result ≡ line_end text.now from) × (from ≤ result) × (result ≤ length text.now) }
{
    for at in from..text.len() {
        if text[at] == LINE_END {
            return at;
        }
    }
    text.len()
}

// The largest width whose tables are no longer than this; 0 where there is none, and 8 at most.
// kept: 0 and no None, since `width_of` of the clause says so.
fn width_of(length: usize) -> u32
    ensures { result ≡ width_of length }
{
    for n in 0..8 {
        if length < boolean::power_of_two(n + 1) {
            return n;
        }
    }
    8
}

// A digit's value; what is no digit has a value above 1 too.
fn digit(byte: u8) -> u8
    ensures { result ≡ digit_of byte }
{
    if byte < b'0' { 255 } else { byte - b'0' }
}

// The values of as many digits as the table has places.
fn read_digits(text: &[u8], table: &mut [u8])
    requires { length table.old ≤ length text.now }
    ensures { table.new ≡ digits_of text.now (length table.old) }
{
    for (x, value) in table.iter_mut().enumerate() {
        *value = digit(text[x]);
    }
}

fn write_value<W: Write>(out: &mut W, v: i32) -> io::Result<()>
    ensures { OnOk result (Appends (W.contents out.old) (W.contents out.new) (value_text v)) }
{
    write!(out, " {v}")
}

fn write_spectrum<W: Write>(out: &mut W, values: &[i32]) -> io::Result<()>
    ensures { OnOk result (Appends (W.contents out.old) (W.contents out.new) (spectrum_text values.now)) }
{
    write!(out, "spectrum")?;
    for value in values {
        write_value(out, *value)?;
    }
    lines::end_line(out)
}

fn write_table<W: Write>(out: &mut W, table: &[u8]) -> io::Result<()>
    ensures { OnOk result (Appends (W.contents out.old) (W.contents out.new) (table_text table.now)) }
{
    write!(out, "function ")?;
    for value in table {
        write!(out, "{value}")?;
    }
    lines::end_line(out)
}

// The function that has the values, or the refusal.
fn show_function<W: Write>(out: &mut W, n: u32, values: &[i32]) -> io::Result<()>
    ensures { OnOk result (Appends (W.contents out.old) (W.contents out.new) (function_shown n values.now)) }
{
    let mut table = [0u8; 256];
    let size = lines::smaller(values.len(), 256);
    match walsh::inverse_spectrum(n, values, &mut table[..size]) {
        Ok(()) => write_table(out, &table[..size]),
        Err(e) => lines::write_refused(out, e),
    }
}

// A spectrum, and the function that has it.
fn show_spectrum<W: Write>(out: &mut W, n: u32, values: &[i32]) -> io::Result<()>
    ensures { OnOk result (Appends (W.contents out.old) (W.contents out.new) (spectrum_shown n values.now)) }
{
    write_spectrum(out, values)?;
    show_function(out, n, values)
}

// The spectrum of a truth table and the function that has it, or the refusal.
fn show_table<W: Write>(out: &mut W, table: &[u8]) -> io::Result<()>
    ensures { OnOk result (Appends (W.contents out.old) (W.contents out.new) (table_shown (width_of (length table.now)) table.now)) }
{
    let mut values = [0i32; 256];
    let size = lines::smaller(table.len(), 256);
    let n = width_of(table.len());
    match walsh::spectrum(n, table, &mut values[..size]) {
        Ok(()) => show_spectrum(out, n, &values[..size]),
        Err(e) => lines::write_refused(out, e),
    }
}

// Writes the answer for a line of digits. More than 512 of them are refused as 512 are.
fn show_line<W: Write>(out: &mut W, text: &[u8]) -> io::Result<()>
    ensures { OnOk result (Appends (W.contents out.old) (W.contents out.new) (line_shown text.now)) }
{
    let mut table = [0u8; 512];
    let length = lines::smaller(text.len(), 512);
    read_digits(text, &mut table[..length]);
    show_table(out, &table[..length])
}

fn show_lines<W: Write>(out: &mut W, text: &[u8]) -> io::Result<()>
    ensures { OnOk result (Appends (W.contents out.old) (W.contents out.new) (lines_shown text.now)) }
{
    let mut from = 0;
    // kept: the clause cuts the text line by line, by the end that `line_end` finds (`lines_shown`)
    while from < text.len() {
        let end = line_end(text, from);
        show_line(out, &text[from..end])?;
        from = end + 1;
    }
    Ok(())
}

// Document 01's cases 4, 5 and 6, in the values of document 02's Request 9; values that no sum could hold, a value above half of the
// inputs, the doubled values of case 4, and a width and a length that are refused.
fn show_values<W: Write>(out: &mut W) -> io::Result<()>
    ensures { OnOk result (Appends (W.contents out.old) (W.contents out.new) (values_shown)) }
{
    show_function(out, 2, &[1i32, 1, 1, -1])?;
    show_function(out, 2, &[1i32, 1, 1, 1])?;
    show_function(out, 1, &[0i32, 0])?;
    show_function(out, 1, &[2147483647i32, -2147483648])?;
    show_function(out, 2, &[3i32, 1, 1, -1])?;
    show_function(out, 2, &[2i32, 2, 2, -2])?;
    show_function(out, 0, &[1i32])?;
    show_function(out, 2, &[1i32, 1])
}

// Of a longer input no more than the first 65,536 bytes are read.
fn main(rt: HostRuntime) -> io::Result<()> {
    let mut buffer = [0u8; 65536];
    let count = lines::read_full(&mut rt.stdin(), &mut buffer);
    let mut out = rt.stdout();
    show_lines(&mut out, &buffer[..count])?;
    show_values(&mut out)
}

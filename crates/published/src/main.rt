// Reads box files from standard input, one after the other, and writes the figures of each box over all combinations; then its
// nonlinearity after one column addition, after a second, and after a third that is refused and leaves the rows standing. It is for boxes
// of three inputs or more and two outputs or more, as the stored ones are: with one output the line `bic` has neither figures nor an end,
// and with fewer inputs nothing is written after the first addition, since the second one is refused.
#![tactic(auto)]

ghost use Rattle.std.specs.Prelude.{◌≤◌, OnOk, [], codes, length};
ghost use Rattle.std.specs.Io.KnownBytes.{Appends};
ghost use Rattle.refusals.specs.Table.{said_verdict};
ghost use Rattle.lines.specs.Lines.{figures_line};
ghost use Rattle.differential.specs.Calls.{largest_cell_reply};
ghost use Rattle.avalanche.specs.Calls.{said_largest_change};
ghost use Rattle.published.specs.Printed.{nonlinearity_shown, changes_shown, verdict_text, tests_shown, degree_shown, refused_shown};
ghost use Rattle.published.specs.Printed.{and_refused_shown, second_shown, and_second_shown, first_shown};
ghost use Rattle.published.specs.Printed.{box_shown, box_file_shown, boxes_shown};

use algebraic::FoundDegree;
use avalanche::FoundChange;
use differential::FoundCell;
use linear::Found;
use refusals::{BoxWidths, Refusal};
use std::io::{self, Write};

fn show_nonlinearity<W: Write>(out: &mut W, n: u32, m: u32, rows: &[u32]) -> io::Result<()>
    ensures { OnOk result (Appends (W.contents out.old) (W.contents out.new) (nonlinearity_shown n m rows.now)) }
{
    match linear::nonlinearity(n, m, rows, m) {
        Ok(Found { count, c, w, b }) => {
            lines::write_line(out, "nonlinearity", &[count, c, w, b])
        }
        Err(e) => lines::write_refused(out, e),
    }
}

fn show_largest_cell<W: Write>(out: &mut W, n: u32, m: u32, rows: &[u32]) -> io::Result<()>
    ensures { OnOk result
        (Appends (W.contents out.old) (W.contents out.new) (figures_line (codes "xor") (largest_cell_reply n m rows.now))) }
{
    match differential::largest_cell(n, m, rows) {
        Ok(FoundCell { count, a, beta }) => lines::write_line(out, "xor", &[count, a, beta]),
        Err(_) => Ok(()),
    }
}

fn show_change<W: Write>(out: &mut W, answer: Result<FoundChange, Refusal>) -> io::Result<()>
    ensures { OnOk result (Appends (W.contents out.old) (W.contents out.new) (figures_line [] (said_largest_change answer))) }
{
    match answer {
        Ok(FoundChange { figure, c, s }) => lines::write_line(out, "", &[figure, c, s]),
        Err(_) => Ok(()),
    }
}

fn show_changes<W: Write>(out: &mut W, n: u32, m: u32, rows: &[u32]) -> io::Result<()>
    ensures { OnOk result (Appends (W.contents out.old) (W.contents out.new) (changes_shown n m rows.now)) }
{
    write!(out, "autocorrelation")?;
    show_change(out, avalanche::autocorrelation(n, m, rows, m))?;
    write!(out, "sac")?;
    show_change(out, avalanche::dynamic_distance(n, m, rows, 1, 1))?;
    write!(out, "bic")?;
    show_change(out, avalanche::dynamic_distance(n, m, rows, 2, 1))
}

fn show_verdict<W: Write>(out: &mut W, answer: Result<bool, Refusal>) -> io::Result<()>
    ensures { OnOk result (Appends (W.contents out.old) (W.contents out.new) (verdict_text (said_verdict answer))) }
{
    match answer {
        Ok(true) => lines::write_line(out, "", &[1]),
        Ok(false) => lines::write_line(out, "", &[0]),
        Err(e) => {
            lines::write_refused(out, e)?;
            lines::end_line(out)
        }
    }
}

fn show_tests<W: Write>(out: &mut W, n: u32, m: u32, rows: &[u32]) -> io::Result<()>
    ensures { OnOk result (Appends (W.contents out.old) (W.contents out.new) (tests_shown n m rows.now)) }
{
    write!(out, "complete")?;
    show_verdict(out, avalanche::is_complete(n, m, rows))?;
    write!(out, "bijective")?;
    show_verdict(out, algebraic::is_bijective(n, m, rows))
}

fn show_degree<W: Write>(out: &mut W, n: u32, m: u32, rows: &[u32]) -> io::Result<()>
    ensures { OnOk result (Appends (W.contents out.old) (W.contents out.new) (degree_shown n m rows.now)) }
{
    match algebraic::degree(n, m, rows, m) {
        Ok(FoundDegree { degree, c }) => {
            lines::write_line(out, "degree", &[degree, c])?;
            show_tests(out, n, m, rows)
        }
        Err(_) => Ok(()),
    }
}

// The nonlinearity of the rows that stand after an addition to column m + 1, which a box of m outputs has not.
fn show_refused<W: Write>(out: &mut W, n: u32, m: u32, rows: &[u32]) -> io::Result<()>
    ensures { OnOk result (Appends (W.contents out.old) (W.contents out.new) (refused_shown n m rows.now)) }
{
    let mut new = [0u32; 256];
    let size = lines::smaller(rows.len(), 256);
    match columns::add_to_column(n, m, rows, m % 65536 + 1, 0, 0, &mut new[..size]) {
        Ok(()) => Ok(()),
        Err(e) => {
            lines::write_refused(out, e)?;
            show_nonlinearity(out, n, m, rows)
        }
    }
}

fn show_and_refuse<W: Write>(out: &mut W, n: u32, m: u32, rows: &[u32]) -> io::Result<()>
    ensures { OnOk result (Appends (W.contents out.old) (W.contents out.new) (and_refused_shown n m rows.now)) }
{
    show_nonlinearity(out, n, m, rows)?;
    show_refused(out, n, m, rows)
}

// After inputs 1 and 3 are added to column m.
fn show_second<W: Write>(out: &mut W, n: u32, m: u32, rows: &[u32]) -> io::Result<()>
    ensures { OnOk result (Appends (W.contents out.old) (W.contents out.new) (second_shown n m rows.now)) }
{
    let mut new = [0u32; 256];
    let size = lines::smaller(rows.len(), 256);
    match columns::add_to_column(n, m, rows, m, 5, 0, &mut new[..size]) {
        Ok(()) => show_and_refuse(out, n, m, &new[..size]),
        Err(_) => Ok(()),
    }
}

fn show_and_add<W: Write>(out: &mut W, n: u32, m: u32, rows: &[u32]) -> io::Result<()>
    ensures { OnOk result (Appends (W.contents out.old) (W.contents out.new) (and_second_shown n m rows.now)) }
{
    show_nonlinearity(out, n, m, rows)?;
    show_second(out, n, m, rows)
}

// After input 1 and the constant 1 are added to column 1.
fn show_first<W: Write>(out: &mut W, n: u32, m: u32, rows: &[u32]) -> io::Result<()>
    ensures { OnOk result (Appends (W.contents out.old) (W.contents out.new) (first_shown n m rows.now)) }
{
    let mut new = [0u32; 256];
    let size = lines::smaller(rows.len(), 256);
    match columns::add_to_column(n, m, rows, 1, 1, 1, &mut new[..size]) {
        Ok(()) => show_and_add(out, n, m, &new[..size]),
        Err(_) => Ok(()),
    }
}

fn show_box<W: Write>(out: &mut W, n: u32, m: u32, rows: &[u32]) -> io::Result<()>
    ensures { OnOk result (Appends (W.contents out.old) (W.contents out.new) (box_shown n m rows.now)) }
{
    lines::write_line(out, "box", &[n, m])?;
    show_nonlinearity(out, n, m, rows)?;
    show_largest_cell(out, n, m, rows)?;
    show_changes(out, n, m, rows)?;
    show_degree(out, n, m, rows)?;
    show_first(out, n, m, rows)
}

// One box file, of a box of `size` rows.
fn show_file<W: Write>(out: &mut W, file: &[u8], size: usize) -> io::Result<()>
    requires { size ≤ 256 }
    ensures { OnOk result (Appends (W.contents out.old) (W.contents out.new) (box_file_shown file.now size)) }
{
    let mut rows = [0u32; 256];
    match boxfile::read_box(file, &mut rows[..size]) {
        Ok(BoxWidths { n, m }) => show_box(out, n, m, &rows[..size]),
        Err(e) => lines::write_refused(out, e),
    }
}

fn show_boxes<W: Write>(out: &mut W, bytes: &[u8]) -> io::Result<()>
    ensures { OnOk result (Appends (W.contents out.old) (W.contents out.new) (boxes_shown (length bytes.now) bytes.now)) }
{
    let mut from = 0;
    // kept: no plainer in another form, since where a box ends stands in its own first byte
    while from + 2 <= bytes.len() {
        let size = boxfile::room_of(&bytes[from..]);
        let start = from + 2;
        let end = start + lines::smaller(4 * size, bytes.len() - start);
        show_file(out, &bytes[from..end], size)?;
        from = end;
    }
    Ok(())
}

// Of a longer input no more than the first 65,536 bytes are read.
// kept: as in `boxsheet`, since each program has a `main` of its own.
fn main(rt: HostRuntime) -> io::Result<()> {
    let mut buffer = [0u8; 65536];
    let count = lines::read_full(&mut rt.stdin(), &mut buffer);
    show_boxes(&mut rt.stdout(), &buffer[..count])
}

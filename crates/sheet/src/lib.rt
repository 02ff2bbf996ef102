// The sheet of a box file, as text.
#![tactic(auto)]

ghost use Rattle.std.specs.Prelude.{◌≡◌, ◌+◌, ◌≤◌, length};
ghost use Rattle.boolean.specs.Sums.{AnyContent};
ghost use Rattle.linear.specs.Nonlinearity.{nonlinearity_reply};
ghost use Rattle.differential.specs.Calls.{largest_cell_reply};
ghost use Rattle.avalanche.specs.Calls.{autocorrelation_reply, distance_reply, complete_reply};
ghost use Rattle.algebraic.specs.Calls.{box_degree_reply, bijective_reply};
ghost use Rattle.boxfile.specs.File.{room_of};
ghost use Rattle.sheet.specs.Sheet.{numbers, limited, decided, sheet_limit, bic_line, sheet_lines};
ghost use Rattle.sheet.specs.Work.{LineWritten, LinesWritten, box_text, TextWritten};
ghost use Rattle.sheet.specs.Calls.{SheetWritten};

use algebraic::FoundDegree;
use avalanche::FoundChange;
use differential::FoundCell;
use linear::Found;
use refusals::BoxWidths;

// The limit on combinations with which the sheet asks for its figures: all outputs up to 16 of them, and 4 above.
#[tactic(auto, unfolding(crate::specs::Sheet::sheet_limit))]
fn limit_of(m: u32) -> u32
    ensures { result ≡ sheet_limit m }
{
    if m <= 16 { m } else { 4 }
}

// Each function below writes the line of one figure and gives the place behind it, or writes nothing where its figure is refused. (With
// one output `write_bic` writes `bic none` and asks for no figure.) The number in its clauses is how many bytes the line may take: its
// word's, eleven for each figure with its space, and one for the line's end.

fn write_nonlinearity(n: u32, m: u32, rows: &[u32], text: &mut [u8], at: usize) -> Option<usize>
    requires { at + 68 ≤ length text.old }
    ensures { LineWritten
        (limited "nonlinearity" (nonlinearity_reply n m rows.now (sheet_limit m)) (sheet_limit m))
        68 at text.old result text.new }
{
    let i = limit_of(m);
    let answer = linear::nonlinearity(n, m, rows, i);
    let Ok(Found { count, c, w, b }) = answer else {
        return None;
    };
    Some(texts::put_line(text, at, b"nonlinearity", &[count, c, w, b, i]))
}

fn write_xor(n: u32, m: u32, rows: &[u32], text: &mut [u8], at: usize) -> Option<usize>
    requires { at + 37 ≤ length text.old }
    ensures { LineWritten (numbers "xor" (largest_cell_reply n m rows.now))
        37 at text.old result text.new }
{
    let answer = differential::largest_cell(n, m, rows);
    let Ok(FoundCell { count, a, beta }) = answer else {
        return None;
    };
    Some(texts::put_line(text, at, b"xor", &[count, a, beta]))
}

fn write_autocorrelation(n: u32, m: u32, rows: &[u32], text: &mut [u8], at: usize) -> Option<usize>
    requires { at + 60 ≤ length text.old }
    ensures { LineWritten
        (limited "autocorrelation" (autocorrelation_reply n m rows.now (sheet_limit m)) (sheet_limit m))
        60 at text.old result text.new }
{
    let i = limit_of(m);
    let answer = avalanche::autocorrelation(n, m, rows, i);
    let Ok(FoundChange { figure, c, s }) = answer else {
        return None;
    };
    Some(texts::put_line(text, at, b"autocorrelation", &[figure, c, s, i]))
}

fn write_sac(n: u32, m: u32, rows: &[u32], text: &mut [u8], at: usize) -> Option<usize>
    requires { at + 37 ≤ length text.old }
    ensures { LineWritten (numbers "sac" (distance_reply n m rows.now 1 1))
        37 at text.old result text.new }
{
    let answer = avalanche::dynamic_distance(n, m, rows, 1, 1);
    let Ok(FoundChange { figure, c, s }) = answer else {
        return None;
    };
    Some(texts::put_line(text, at, b"sac", &[figure, c, s]))
}

fn write_bic(n: u32, m: u32, rows: &[u32], text: &mut [u8], at: usize) -> Option<usize>
    requires { at + 37 ≤ length text.old }
    ensures { LineWritten (bic_line n m rows.now) 37 at text.old result text.new }
{
    if m == 1 {
        return Some(texts::put_bytes(text, at, b"bic none\n"));
    }
    let answer = avalanche::dynamic_distance(n, m, rows, 2, 1);
    let Ok(FoundChange { figure, c, s }) = answer else {
        return None;
    };
    Some(texts::put_line(text, at, b"bic", &[figure, c, s]))
}

fn write_degree(n: u32, m: u32, rows: &[u32], text: &mut [u8], at: usize) -> Option<usize>
    requires { at + 40 ≤ length text.old }
    ensures { LineWritten (limited "degree" (box_degree_reply n m rows.now (sheet_limit m)) (sheet_limit m))
        40 at text.old result text.new }
{
    let i = limit_of(m);
    let answer = algebraic::degree(n, m, rows, i);
    let Ok(FoundDegree { degree, c }) = answer else {
        return None;
    };
    Some(texts::put_line(text, at, b"degree", &[degree, c, i]))
}

fn write_complete(n: u32, m: u32, rows: &[u32], text: &mut [u8], at: usize) -> Option<usize>
    requires { at + 13 ≤ length text.old }
    ensures { LineWritten (decided "complete" (complete_reply n m rows.now))
        13 at text.old result text.new }
{
    let answer = avalanche::is_complete(n, m, rows);
    let Ok(yes) = answer else {
        return None;
    };
    if yes {
        Some(texts::put_bytes(text, at, b"complete yes\n"))
    } else {
        Some(texts::put_bytes(text, at, b"complete no\n"))
    }
}

// kept: beside `write_complete`, since call, words and room differ: one function of both would take all three, and is no plainer.
fn write_bijective(n: u32, m: u32, rows: &[u32], text: &mut [u8], at: usize) -> Option<usize>
    requires { at + 14 ≤ length text.old }
    ensures { LineWritten (decided "bijective" (bijective_reply n m rows.now))
        14 at text.old result text.new }
{
    let answer = algebraic::is_bijective(n, m, rows);
    let Ok(yes) = answer else {
        return None;
    };
    if yes {
        Some(texts::put_bytes(text, at, b"bijective yes\n"))
    } else {
        Some(texts::put_bytes(text, at, b"bijective no\n"))
    }
}

// The lines of a box after the first, in their order, up to the first whose figure is refused: `end` is the place behind them.
fn write_figures(n: u32, m: u32, rows: &[u32], text: &mut [u8], end: &mut usize) -> Option<()>
    requires { end.old + 306 ≤ length text.old }
    ensures lines { LinesWritten (sheet_lines n m rows.now) end.old text.old end.new text.new }
    ensures inside { end.new ≤ end.old + 306 }
{
    *end = write_nonlinearity(n, m, rows, text, *end)?;
    *end = write_xor(n, m, rows, text, *end)?;
    *end = write_autocorrelation(n, m, rows, text, *end)?;
    *end = write_sac(n, m, rows, text, *end)?;
    *end = write_bic(n, m, rows, text, *end)?;
    *end = write_degree(n, m, rows, text, *end)?;
    *end = write_complete(n, m, rows, text, *end)?;
    *end = write_bijective(n, m, rows, text, *end)?;
    Some(())
}

// The nine lines of a box. The first has no figure that could be refused.
fn write_lines(n: u32, m: u32, rows: &[u32], text: &mut [u8]) -> usize
    requires { 332 ≤ length text.old }
    ensures { TextWritten (box_text n m rows.now) text.old result text.new }
{
    let mut end = texts::put_line(text, 0, b"box", &[n, m]);
    let _ = write_figures(n, m, rows, text, &mut end);
    end
}

// The sheet of a file, whose rows are read to an array that has room for them.
fn write_read(file: &[u8], rows: &mut [u32], text: &mut [u8]) -> usize
    requires { (length rows.old ≡ room_of file.now) × (332 ≤ length text.old) }
    ensures { SheetWritten file.now text.old result text.new
        × AnyContent rows.old rows.new }
{
    match boxfile::read_box(file, rows) {
        Ok(BoxWidths { n, m }) => write_lines(n, m, rows, text),
        Err(e) => texts::put_line(text, 0, b"refused", &[refusals::number_of(e)]),
    }
}

// Writes the sheet of a box file at the start of the lent text, and answers how many bytes it has.
pub fn write_sheet(file: &[u8], text: &mut [u8; 332]) -> usize
    ensures { SheetWritten file.now text.old result text.new }
{
    let mut rows = [0u32; 256];
    let size = boxfile::room_of(file);
    write_read(file, &mut rows[..size], text)
}

// Reads and writes a box file.
#![tactic(auto)]

ghost use Rattle.std.specs.Prelude.{◌≡◌, ◌+◌, ◌*◌, ◌^◌, ◌<◌, ◌≤◌, length};
ghost use Rattle.std.proofs.lemmas.List.Edits.{sets};
ghost use Rattle.boolean.specs.Functions.{at};
ghost use Rattle.boolean.specs.Sums.{largest_below, each};
ghost use Rattle.refusals.specs.Table.{first, all_below};
ghost use Rattle.boxfile.specs.File.{row_at, file_rows, read_checks, file_checks, ReadCalled, room_of, file_found};
ghost use Rattle.boxfile.specs.File.{row_bytes, write_checks, WriteCalled};

use refusals::{BoxWidths, Refusal};

// The number that two bytes make, low byte first.
pub fn two_bytes(file: &[u8], place: usize) -> u32
    requires { place + 1 < length file.now }
    ensures { (result ≡ at file.now place + 256 * at file.now (place + 1)) × (result < 65536) }
{
    u32::from(u16::from_le_bytes([file[place], file[place + 1]]))
}

// Row x of the file, from its four bytes.
fn row_at(file: &[u8], x: usize) -> u32
    requires { 4 * x + 5 < length file.now }
    ensures { result ≡ row_at file.now x }
{
    let low = 4 * x + 2;
    u32::from_le_bytes([file[low], file[low + 1], file[low + 2], file[low + 3]])
}

// The largest row of a file of `size` rows.
// kept: refusals::rows_below takes an array of rows, and a file's rows are bytes for which there is no array (the rule of fixed memory).
fn largest_row(file: &[u8], size: usize) -> u32
    requires { length file.now ≡ 2 + 4 * size }
    ensures { result ≡ largest_below size (row_at file.now) }
{
    let mut most = 0;
    for x in 0..size {
        most = most.max(row_at(file, x));
    }
    most
}

// Whether every row of a file of n inputs is below the limit. A box has a row, and the largest alone is compared: a loop without an early
// exit compiles to vector instructions, which look at several rows at a time.
fn rows_below(file: &[u8], n: u32, size: usize, limit: usize) -> bool
    requires { (size ≡ 2 ^ n) × (length file.now ≡ 2 + 4 * size) }
    ensures { result ≡ all_below limit (file_rows file.now n) }
{
    let most = largest_row(file, size) as usize;
    most < limit
}

// The rows of the file, written to an array that is as long.
fn write_rows(file: &[u8], n: u32, rows: &mut [u32])
    requires { (length rows.old ≡ 2 ^ n) × (length file.now ≡ 2 + 4 * 2 ^ n) }
    ensures { rows.new ≡ file_rows file.now n }
{
    for (x, row) in rows.iter_mut().enumerate() {
        *row = row_at(file, x);
    }
}

// The checks that follow once n and m have been read.
#[tactic(auto, unfolding(refusals::specs::Table::first, crate::specs::File::read_checks))]
fn check_read(file: &[u8], n: u32, m: u32, room: usize) -> Result<(), Refusal>
    ensures { result ≡ first (read_checks file.now n m room) }
{
    if !refusals::in_range(1, 8, n) {
        return Err(Refusal::InputWidth);
    }
    if !refusals::in_range(1, 32, m) {
        return Err(Refusal::OutputWidth);
    }
    let size = boolean::power_of_two(n);
    if file.len() != 2 + 4 * size {
        return Err(Refusal::FileLength);
    }
    if !rows_below(file, n, size, boolean::power_of_two(m)) {
        return Err(Refusal::Value);
    }
    if room != size {
        return Err(Refusal::WrittenLength);
    }
    Ok(())
}

// The checks of a file.
#[tactic(auto, unfolding(refusals::specs::Table::first, crate::specs::File::file_checks))]
pub fn check_file(file: &[u8], room: usize) -> Result<(), Refusal>
    ensures { result ≡ first (file_checks file.now room) }
{
    if file.len() < 2 {
        return Err(Refusal::FileLength);
    }
    check_read(file, boolean::wide(file[0]), boolean::wide(file[1]), room)
}

// Reads a box from the bytes of its file: the widths are the answer, and the rows go to the lent array.
pub fn read_box(file: &[u8], rows: &mut [u32]) -> Result<BoxWidths, Refusal>
    ensures { ReadCalled file.now rows.old result rows.new }
{
    check_file(file, rows.len())?;
    let n = boolean::wide(file[0]);
    write_rows(file, n, rows);
    Ok(BoxWidths {
        n,
        m: boolean::wide(file[1]),
    })
}

// How many rows the file's n asks for; 0 where there is no n, or none that a box has, and the room then does not matter.
// kept: 0 and no None, since the clause of this public function says so (`room_of`).
pub fn room_of(file: &[u8]) -> usize
    ensures { (result ≡ room_of file.now) × (result ≤ 256) }
{
    if file.len() == 0 {
        return 0;
    }
    let inputs = file[0] as u32;
    if !refusals::in_range(1, 8, inputs) {
        return 0;
    }
    boolean::power_of_two(inputs)
}

// The checks of a file that is not read yet: its rows have the room that they take.
pub fn check_alone(file: &[u8]) -> Result<(), Refusal>
    ensures { result ≡ file_found file.now }
{
    let rows = room_of(file);
    check_file(file, rows)
}

// The four bytes of a row at a place, low byte first.
fn put_row(file: &mut [u8], place: usize, row: u32)
    requires { place + 3 < length file.old }
    ensures { file.new ≡ sets file.old place (row_bytes row) }
{
    file[place..place + 4].copy_from_slice(&row.to_le_bytes());
}

// The bytes of all rows, behind n and m.
fn put_rows(rows: &[u32], file: &mut [u8])
    requires { length file.old ≡ 2 + 4 * length rows.now }
    ensures { file.new ≡ sets file.old 2 (each rows.now row_bytes) }
{
    for (x, row) in rows.iter().enumerate() {
        put_row(file, 2 + 4 * x, *row);
    }
}

// The checks of writing.
#[tactic(auto, unfolding(refusals::specs::Table::first, crate::specs::File::write_checks))]
fn check_write(n: u32, m: u32, rows: &[u32], room: usize) -> Result<(), Refusal>
    ensures { result ≡ first (write_checks n m rows.now room) }
{
    refusals::check_box(n, m, rows)?;
    if room != 2 + 4 * rows.len() {
        return Err(Refusal::WrittenLength);
    }
    Ok(())
}

// Writes the file of a box to the lent array.
pub fn write_box(n: u32, m: u32, rows: &[u32], file: &mut [u8]) -> Result<(), Refusal>
    ensures { WriteCalled n m rows.now file.old result file.new }
{
    check_write(n, m, rows, file.len())?;
    file[0] = n as u8;
    file[1] = m as u8;
    put_rows(rows, file);
    Ok(())
}

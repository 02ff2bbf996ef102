// The list of all cells that reach the largest count. Each row is measured once: its largest count, the smallest difference that has it,
// and how many have it. A row with one such cell is then known; only the pairs of a row with several are put in order.
ghost use Rattle.std.specs.Prelude.{◌≡◌, ◌+◌, ◌-◌, ◌*◌, ◌/◌, ◌^◌, ◌≤◌, ◌<◌, length};
ghost use Rattle.std.proofs.lemmas.List.Edits.{sets};
ghost use Rattle.refusals.specs.Table.{Box};
ghost use Rattle.boolean.specs.Sums.{AnyContent};
ghost use Rattle.differential.specs.XorTable.{largest_cells};
ghost use Rattle.differential.specs.XorTable as spec;
ghost use Rattle.differential.specs.Calls.{ListCalled};
ghost use Rattle.differential.specs.Work.{CellsAfter, RunningCells, IsRow, RowMeasured, RowsMeasured, row_cells};
ghost use Rattle.differential.specs.Work.{run_at, runs, FreeFrom, Buckets, PairsInOrder};
ghost use Rattle.differential.specs.Running.{Paired};

use crate::{STANDING_OF_0, TWO_TO_32, TWO_TO_40, rise, write_pairs};
use refusals::Refusal;

// What the list needs of a row: its largest standing, and how many of its cells reach that count.
#[derive(Clone, Copy)]
pub struct RowLargest {
    pub standing: u64,
    pub cells: u32,
}

// How many differences have the largest count once another count has risen: that one alone where its count is a new largest, and one more
// where it is as large.
fn cells_after(running: u64, standing: u64, cells: u32) -> u32
    requires { cells < 128 }
    ensures { CellsAfter (running / 2 ^ 32) (standing / 2 ^ 32) cells result }
{
    let before = running / TWO_TO_32;
    let count = standing / TWO_TO_32;
    if before < count {
        return 1;
    }
    if before == count {
        return cells + 1;
    }
    cells
}

// As `largest_risen`, with the number of differences that have the largest count brought up to date beside it.
// kept: beside `largest_risen`. A closure for the line that counts the cells would be called at each rise, and is no plainer than it.
fn measure_row(a: u32, differences: &[u32], buckets: &mut [u64]) -> RowLargest
    requires { (a < 256) × (length differences.now ≤ 128) × FreeFrom a buckets.old }
    ensures { RunningCells differences.now (length differences.now) result.standing result.cells
        × Buckets a differences.now (length differences.now) buckets.new }
{
    let row = (a as u64) * TWO_TO_40;
    let mut running: u64 = row + STANDING_OF_0;
    let mut cells: u32 = 0;
    for y in 0..differences.len() {
        let after = rise(a, differences, y, buckets, running);
        cells = cells_after(running, after.standing, cells);
        running = after.running;
    }
    RowLargest {
        standing: running - row,
        cells,
    }
}

// Each row is measured in turn, and the entry a of an array keeps what was found. The largest count of all rows is returned.
fn measure_rows(
    n: u32,
    m: u32,
    rows: &[u32],
    pairs: &mut [u32],
    buckets: &mut [u64],
    measured: &mut [RowLargest; 256],
) -> u64
    requires { Box n m rows.now × (length rows.now ≡ 2 * length pairs.old) × FreeFrom 1 buckets.old
        × (length measured.old ≡ 256) }
    ensures { RowsMeasured n m rows.now measured.new
        × (2 * result ≡ (spec.largest_cell n m rows.now).figure)
        × Paired rows.now (2 ^ n - 1) pairs.new × AnyContent buckets.old buckets.new }
{
    let mut largest: u64 = 0;
    for a in 1..rows.len() {
        write_pairs(rows, a as u32, pairs);
        let row = measure_row(a as u32, pairs, buckets);
        measured[a] = row;
        largest = largest.max(row.standing / TWO_TO_32);
    }
    largest
}

// The rows of a box that was checked. The arrays to work in are made once for all of them.
fn measure(n: u32, m: u32, rows: &[u32], measured: &mut [RowLargest; 256]) -> u64
    requires { Box n m rows.now × (length measured.old ≡ 256) }
    ensures { RowsMeasured n m rows.now measured.new
        × (2 * result ≡ (spec.largest_cell n m rows.now).figure) }
{
    let mut pairs = [0u32; 128];
    let mut buckets = [0u64; 4096];
    let half = rows.len() / 2;
    measure_rows(n, m, rows, &mut pairs[..half], &mut buckets, measured)
}

// How many cells of all rows reach the largest count.
fn count_cells(n: u32, m: u32, rows: &[u32], measured: &[RowLargest; 256], largest: u64) -> usize
    requires { Box n m rows.now × RowsMeasured n m rows.now measured.now
        × (2 * largest ≡ (spec.largest_cell n m rows.now).figure) }
    ensures { (result ≡ length (largest_cells n m rows.now)) × (result ≤ 65536) }
{
    let mut count = 0;
    for a in 1..rows.len() {
        let row = measured[a];
        if row.standing / TWO_TO_32 == largest {
            count += row.cells as usize;
        }
    }
    count
}

// The cell of the run that starts at y is written to the list's entry `next`: of the pairs in order, `largest` from there on have the same
// difference. The entry after it is returned.
fn list_run(a: u32, pairs: &[u32], y: usize, largest: usize, list: &mut [u64], next: usize) -> usize
    requires { (1 ≤ largest) × (y + largest ≤ length pairs.now) × (length pairs.now ≤ 128) × (a < 256)
        × (next + length (run_at largest a pairs.now y) ≤ length list.old) }
    ensures { (result ≡ next + length (run_at largest a pairs.now y))
        × (list.new ≡ sets list.old next (run_at largest a pairs.now y)) }
{
    let last = y + (largest - 1);
    if pairs[y] != pairs[last] {
        return next;
    }
    list[next] = (a as u64) * TWO_TO_32 + pairs[y] as u64;
    next + 1
}

// The cells of all runs are written to the list from the entry `start` on. The entry after them is returned.
fn list_runs(a: u32, pairs: &[u32], largest: usize, list: &mut [u64], start: usize) -> usize
    requires { (1 ≤ largest) × (largest ≤ 128) × (length pairs.now ≤ 128) × (a < 256)
        × (start + length (runs largest a pairs.now) ≤ length list.old) }
    ensures { (result ≡ start + length (runs largest a pairs.now))
        × (list.new ≡ sets list.old start (runs largest a pairs.now)) }
{
    let mut next = start;
    for y in 0..(pairs.len() + 1).saturating_sub(largest) {
        next = list_run(a, pairs, y, largest, list, next);
    }
    next
}

// The cells of a row that has several: its pairs are put in order, so that those with the same difference stand together, the smallest
// first.
fn list_several(
    n: u32,
    m: u32,
    rows: &[u32],
    a: u32,
    pairs: &mut [u32],
    largest: usize,
    list: &mut [u64],
    start: usize,
) -> usize
    requires { Box n m rows.now × IsRow n a × (2 * largest ≡ (spec.largest_cell n m rows.now).figure)
        × (length rows.now ≡ 2 * length pairs.old) × (start + length (row_cells n m rows.now a) ≤ length list.old) }
    ensures { (result ≡ start + length (row_cells n m rows.now a))
        × (list.new ≡ sets list.old start (row_cells n m rows.now a))
        × PairsInOrder rows.now a pairs.new }
{
    write_pairs(rows, a, pairs);
    sorting::sort(pairs, m);
    list_runs(a, pairs, largest, list, start)
}

// The cells of one row that reach the largest count are written to the list from the entry `start` on. A single one is known already. The
// entry after them is returned.
fn list_row(
    n: u32,
    m: u32,
    rows: &[u32],
    a: u32,
    row: RowLargest,
    largest: u64,
    list: &mut [u64],
    start: usize,
) -> usize
    requires { Box n m rows.now × IsRow n a × RowMeasured n m rows.now a row.standing row.cells
        × (2 * largest ≡ (spec.largest_cell n m rows.now).figure)
        × (start + length (row_cells n m rows.now a) ≤ length list.old) }
    ensures { (result ≡ start + length (row_cells n m rows.now a))
        × (list.new ≡ sets list.old start (row_cells n m rows.now a)) }
{
    if row.standing / TWO_TO_32 != largest {
        return start;
    }
    if row.cells == 1 {
        list[start] = (a as u64) * TWO_TO_32 + (STANDING_OF_0 - row.standing % TWO_TO_32);
        return start + 1;
    }
    let mut pairs = [0u32; 128];
    let half = rows.len() / 2;
    list_several(
        n,
        m,
        rows,
        a,
        &mut pairs[..half],
        largest as usize,
        list,
        start,
    )
}

// The cells of all rows that reach the largest count are written to the list's first entries, row by row.
fn list_cells(
    n: u32,
    m: u32,
    rows: &[u32],
    measured: &[RowLargest; 256],
    largest: u64,
    list: &mut [u64],
)
    requires { Box n m rows.now × RowsMeasured n m rows.now measured.now
        × (2 * largest ≡ (spec.largest_cell n m rows.now).figure) × (length (largest_cells n m rows.now) ≤ length list.old) }
    ensures { list.new ≡ sets list.old 0 (largest_cells n m rows.now) }
{
    let mut next = 0;
    for a in 1..rows.len() {
        next = list_row(n, m, rows, a as u32, measured[a], largest, list, next);
    }
}

// The rows are measured, then the cells that reach the largest count are counted, and only a list that has room for all of them is written
// to.
pub fn list_with(
    n: u32,
    m: u32,
    rows: &[u32],
    measured: &mut [RowLargest; 256],
    list: &mut [u64],
) -> Result<u32, Refusal>
    requires { Box n m rows.now × (length measured.old ≡ 256) }
    ensures list_called { ListCalled n m rows.now list.old result list.new }
    ensures measured { RowsMeasured n m rows.now measured.new }
{
    let largest = measure(n, m, rows, measured);
    let count = count_cells(n, m, rows, measured, largest);
    if list.len() < count {
        return Err(Refusal::ListTooShort);
    }
    list_cells(n, m, rows, measured, largest, list);
    Ok(count as u32)
}

// The XOR table of a box: one row, the largest cell, and the list of all cells that reach it.
#![tactic(auto)]

mod listing;
mod narrow;

ghost use Rattle.std.specs.Prelude.{◌≡◌, ◌/◌, ◌+◌, ◌-◌, ◌*◌, ◌^◌, ◌≤◌, ◌<◌, length};
ghost use Rattle.refusals.specs.Table.{first, Box};
ghost use Rattle.differential.specs.XorTable.{xor_row};
ghost use Rattle.boolean.specs.Sums.{AnyContent};
ghost use Rattle.boolean.specs.Functions.{occurrences};
ghost use Rattle.differential.specs.XorTable as spec;
ghost use Rattle.differential.specs.Calls.{row_checks, said_largest_cell, largest_cell_reply, RowCalled, ListCalled};
ghost use Rattle.differential.specs.Work.{cell_found, CellsSwept, XorInside, differences_of, FreeFrom, Buckets, after_standing};
ghost use Rattle.differential.specs.Running.{HighestBit, Paired, LargestSoFar, number_in, InRow, risen_at, higher_of, running_after};

use crate::listing::RowLargest;
use refusals::Refusal;

// Numbers of a count's standing: see `risen`. The standing of the difference 0 with a count of 0 is 2^32 − 1.
const TWO_TO_32: u64 = 4294967296;

const TWO_TO_40: u64 = 1099511627776;

const STANDING_OF_0: u64 = 4294967295;

// The best cell so far.
#[derive(Clone, Copy)]
pub struct FoundCell {
    pub count: u32,
    pub a: u32,
    pub beta: u32,
}

// What a rise leaves: the standing of the difference whose count has risen, and the running value.
#[derive(Clone, Copy)]
pub struct AfterRise {
    pub standing: u64,
    pub running: u64,
}

// The output differences under the input difference a, one for each input.
fn write_differences(rows: &[u32], a: u32, differences: &mut [u32])
    requires { XorInside (length rows.now) a × (length differences.old ≡ length rows.now) }
    ensures { differences.new ≡ differences_of rows.now a }
{
    for (x, row) in rows.iter().enumerate() {
        differences[x] = *row ^ rows[x ^ (a as usize)];
    }
}

// How many of the differences are beta. It looks at all of them, so that several are compared at a time.
fn count_equal(differences: &[u32], beta: u32) -> u32
    requires { length differences.now ≤ 256 }
    ensures { result ≡ occurrences differences.now (length differences.now) beta }
{
    let mut count: u32 = 0;
    for difference in differences {
        if *difference == beta {
            count += 1;
        }
    }
    count
}

// The checks of one row, which is given for at most 16 outputs.
#[tactic(auto, unfolding(refusals::specs::Table::first, crate::specs::Calls::row_checks))]
fn check_row(n: u32, m: u32, rows: &[u32], a: u32, room: usize) -> Result<(), Refusal>
    ensures { result ≡ first (row_checks n m rows.now a room) }
{
    refusals::check_box_up_to(16, n, m, rows)?;
    let inputs = boolean::power_of_two(n) as u32;
    if !refusals::in_range(1, inputs - 1, a) {
        return Err(Refusal::Parameter);
    }
    if room != boolean::power_of_two(m) {
        return Err(Refusal::WrittenLength);
    }
    Ok(())
}

// The row of a, with an array for the differences lent.
fn write_row(n: u32, m: u32, rows: &[u32], a: u32, differences: &mut [u32], counts: &mut [u16])
    requires { CellsSwept n m rows.now differences.old × (a < 2 ^ n) × (length counts.old ≡ 2 ^ m) }
    ensures { (counts.new ≡ xor_row n m rows.now a)
        × (differences.new ≡ differences_of rows.now a) }
{
    write_differences(rows, a, differences);
    sorting::clear(counts);
    sorting::count_values(differences, counts);
}

// One row of the XOR table: the count for each output difference under the input difference a.
pub fn xor_row(n: u32, m: u32, rows: &[u32], a: u32, counts: &mut [u16]) -> Result<(), Refusal>
    ensures { RowCalled n m rows.now a counts.old result counts.new }
{
    check_row(n, m, rows, a, counts.len())?;
    let mut differences = [0u32; 256];
    let size = rows.len();
    write_row(n, m, rows, a, &mut differences[..size], counts);
    Ok(())
}

// The highest bit of a.
fn highest_bit(a: u32) -> u32
    requires { 0 < a }
    ensures { HighestBit a result }
{
    1 << a.ilog2()
}

// The output differences under a, one for each pair of inputs x and x XOR a: the two inputs of a pair have the same.
fn write_pairs(rows: &[u32], a: u32, pairs: &mut [u32])
    requires { XorInside (length rows.now) a × (0 < a) × (length rows.now ≡ 2 * length pairs.old) }
    ensures { Paired rows.now a pairs.new }
{
    let top = highest_bit(a) as usize;
    for (y, pair) in pairs.iter_mut().enumerate() {
        let x = 2 * y - (y & (top - 1));
        *pair = rows[x] ^ rows[x ^ (a as usize)];
    }
}

// The counts of a row stand in 4,096 buckets, since 32 outputs have too many differences for a count each. A bucket holds the standing of
// one difference, its count * 2^32 + (2^32 - 1 - beta), so that the larger standing counts more, or as many for a smaller difference.
// Above it stands the row, as a * 2^40: what the rows before have left is below every number of this row, so no bucket is cleared between
// rows, and the first difference of a row that falls into a bucket takes it.
//
// The number of the difference at y after its count has risen: by one in its bucket, or, where another difference has the bucket, from
// those before it that are the same. That a bucket is free shows in the larger of two numbers, and not in a branch: free and taken buckets
// follow no pattern, and a processor would often mispredict it.
fn risen(a: u32, differences: &[u32], y: usize, buckets: &mut [u64]) -> u64
    requires { (a < 256) × (y < length differences.now) × (length differences.now ≤ 128)
        × Buckets a differences.now y buckets.old }
    ensures { (result ≡ number_in a (risen_at differences.now y))
        × Buckets a differences.now (y + 1) buckets.new }
{
    let beta = differences[y];
    let none = (a as u64) * TWO_TO_40 + STANDING_OF_0 - beta as u64;
    let bucket = (beta % 4096) as usize;
    let held = buckets[bucket].max(none);
    if (held - none) % TWO_TO_32 == 0 {
        let standing = held + TWO_TO_32;
        buckets[bucket] = standing;
        return standing;
    }
    let before = count_equal(&differences[..y], beta) as u64;
    none + (before + 1) * TWO_TO_32
}

// One rise: the count of the difference at y goes up by one, and the running value is brought up to date by one comparison. After each rise
// its count is the largest so far, and its difference the smallest that has it.
#[tactic(auto, using(crate::proofs::Rises::row_running_next))]
fn rise(a: u32, differences: &[u32], y: usize, buckets: &mut [u64], running: u64) -> AfterRise
    requires { (a < 256) × (y < length differences.now) × (length differences.now ≤ 128)
        × Buckets a differences.now y buckets.old × InRow a (LargestSoFar differences.now y) running }
    ensures { InRow a (LargestSoFar differences.now (y + 1)) result.running
        × (result.running ≡ higher_of running result.standing) × (result.standing ≡ number_in a (risen_at differences.now y))
        × Buckets a differences.now (y + 1) buckets.new }
{
    let standing = risen(a, differences, y, buckets);
    AfterRise {
        standing,
        running: running.max(standing),
    }
}

// The largest count of the differences and the smallest difference that has it, as one standing: a running value while the counts rise.
fn largest_risen(a: u32, differences: &[u32], buckets: &mut [u64]) -> u64
    requires { (a < 256) × (length differences.now ≤ 128) × FreeFrom a buckets.old }
    ensures { LargestSoFar differences.now (length differences.now) result
        × (result ≡ running_after differences.now (length differences.now))
        × Buckets a differences.now (length differences.now) buckets.new }
{
    let row = (a as u64) * TWO_TO_40;
    let mut running: u64 = row + STANDING_OF_0;
    for y in 0..differences.len() {
        let after = rise(a, differences, y, buckets, running);
        running = after.running;
    }
    running - row
}

// The best cell so far, or the largest of the row of a where that counts more, from the row's largest standing. A pair stands for two
// inputs.
fn after_row(a: u32, best: u64, found: FoundCell) -> FoundCell
    requires { best / 2 ^ 32 ≤ 128 }
    ensures { cell_found result ≡ after_standing a best (cell_found found) }
{
    let count = 2 * ((best / TWO_TO_32) as u32);
    if count <= found.count {
        return found;
    }
    let beta = (STANDING_OF_0 - best % TWO_TO_32) as u32;
    FoundCell { count, a, beta }
}

// Every row in turn, from 1 to 2^n − 1. It starts from a count that every row exceeds.
fn sweep_cells(n: u32, m: u32, rows: &[u32], pairs: &mut [u32], buckets: &mut [u64]) -> FoundCell
    requires { Box n m rows.now × (length rows.now ≡ 2 * length pairs.old) × FreeFrom 1 buckets.old }
    ensures { (cell_found result ≡ spec.largest_cell n m rows.now)
        × Paired rows.now (2 ^ n - 1) pairs.new × AnyContent buckets.old buckets.new }
{
    let inputs = boolean::power_of_two(n) as u32;
    let mut found = FoundCell {
        count: 0,
        a: 0,
        beta: 0,
    };
    for a in 1..inputs {
        write_pairs(rows, a, pairs);
        let best = largest_risen(a, pairs, buckets);
        found = after_row(a, best, found);
    }
    found
}

// The largest cell of a box of any outputs that was checked. The buckets are made once for all rows, and room for the pairs is lent.
fn find_wide(n: u32, m: u32, rows: &[u32], pairs: &mut [u32]) -> FoundCell
    requires { Box n m rows.now × (length pairs.old ≡ 128) }
    ensures { (cell_found result ≡ spec.largest_cell n m rows.now) × AnyContent pairs.old pairs.new }
{
    let mut buckets = [0u64; 4096];
    let half = rows.len() / 2;
    sweep_cells(n, m, rows, &mut pairs[..half], &mut buckets)
}

// The largest cell of a box that was checked.
fn find_largest(n: u32, m: u32, rows: &[u32], pairs: &mut [u32]) -> FoundCell
    requires { Box n m rows.now × (length pairs.old ≡ 128) }
    ensures { (cell_found result ≡ spec.largest_cell n m rows.now) × AnyContent pairs.old pairs.new }
{
    if m <= 8 {
        narrow::find_narrow(n, m, rows, pairs)
    } else {
        find_wide(n, m, rows, pairs)
    }
}

// The largest cell of a box, the first of these by ascending a, then beta. An array is made before the checks, so that the compiler lays
// out the function's stack frame at its start. Laid out after them, the frame with the buckets is so long that the code which touches its
// pages overwrites the register that holds the number of rows: a fault of the compiler, which no proof covers (decision 119).
pub fn largest_cell(n: u32, m: u32, rows: &[u32]) -> Result<FoundCell, Refusal>
    ensures { said_largest_cell result ≡ largest_cell_reply n m rows.now }
{
    let mut pairs = [0u32; 128];
    refusals::check_box(n, m, rows)?;
    Ok(find_largest(n, m, rows, &mut pairs))
}

// All cells that reach the largest count, each as a * 2^32 + beta, by ascending a, then beta, with their number. They are counted before
// the list is written to.
pub fn largest_cells(n: u32, m: u32, rows: &[u32], list: &mut [u64]) -> Result<u32, Refusal>
    ensures { ListCalled n m rows.now list.old result list.new }
{
    refusals::check_box(n, m, rows)?; // the room for the list is looked at once the cells are counted
    let mut measured = [RowLargest {
        standing: 0,
        cells: 0,
    }; 256];
    listing::list_with(n, m, rows, &mut measured, list)
}

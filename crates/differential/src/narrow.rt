// The largest cell of a box of at most 8 outputs. It has so few differences that each has a bucket of its own, which is cleared for each
// row: no difference has to be told from another, nor a row from the one before.
ghost use Rattle.std.specs.Prelude.{◌≡◌, ◌+◌, ◌-◌, ◌*◌, ◌^◌, ◌≤◌, ◌<◌, length};
ghost use Rattle.refusals.specs.Table.{Box};
ghost use Rattle.boolean.specs.Sums.{AnyContent, list_below};
ghost use Rattle.boolean.specs.Functions.{Below};
ghost use Rattle.differential.specs.XorTable as spec;
ghost use Rattle.differential.specs.Work.{cell_found, OwnBuckets};
ghost use Rattle.differential.specs.Running.{Paired, count_with, LargestSoFar, risen_at, higher_of, running_after};

use crate::{FoundCell, STANDING_OF_0, TWO_TO_32, after_row, write_pairs};

// The bucket of each difference holds its standing with a count of 0.
fn clear_buckets(buckets: &mut [u64])
    requires { length buckets.old ≤ 256 }
    ensures { buckets.new ≡ list_below (length buckets.old) (λ β. count_with 0 β) }
{
    for (beta, bucket) in buckets.iter_mut().enumerate() {
        *bucket = STANDING_OF_0 - beta as u64;
    }
}

// One rise: the count of the difference at y goes up by one in its bucket, and the running value is brought up to date by one comparison.
// After each rise its count is the largest so far, and its difference the smallest that has it.
fn rise_alone(differences: &[u32], y: usize, buckets: &mut [u64], running: u64) -> u64
    requires { (y < length differences.now) × (length differences.now ≤ 128)
        × OwnBuckets (length buckets.old) differences.now y buckets.old × LargestSoFar differences.now y running }
    ensures { LargestSoFar differences.now (y + 1) result
        × (result ≡ higher_of running (risen_at differences.now y))
        × OwnBuckets (length buckets.old) differences.now (y + 1) buckets.new }
{
    let bucket = differences[y] as usize;
    let standing = buckets[bucket] + TWO_TO_32;
    buckets[bucket] = standing;
    running.max(standing)
}

// The largest count of the differences and the smallest difference that has it, as one standing: a running value while the counts rise,
// which starts from the bucket of 0 with its count of 0.
// kept: beside `largest_risen`. Start, rise and end of the value differ, so a trait of three methods would be no plainer than both loops.
fn largest_alone(differences: &[u32], buckets: &mut [u64]) -> u64
    requires { (length differences.now ≤ 128) × (0 < length buckets.old) × (length buckets.old ≤ 256)
        × Below (length buckets.old) differences.now }
    ensures { LargestSoFar differences.now (length differences.now) result
        × (result ≡ running_after differences.now (length differences.now))
        × OwnBuckets (length buckets.old) differences.now (length differences.now)
        buckets.new }
{
    clear_buckets(buckets);
    let mut running = buckets[0];
    for y in 0..differences.len() {
        running = rise_alone(differences, y, buckets, running);
    }
    running
}

// Every row in turn, from 1 to 2^n − 1. It starts from a count that every row exceeds.
// kept: beside `sweep_cells`. A trait would have to say what each kind of buckets keeps between rows: longer than the lines they share.
fn sweep_narrow(n: u32, m: u32, rows: &[u32], pairs: &mut [u32], buckets: &mut [u64]) -> FoundCell
    requires { Box n m rows.now × (m ≤ 8) × (length rows.now ≡ 2 * length pairs.old) × (length buckets.old ≡ 2 ^ m) }
    ensures { (cell_found result ≡ spec.largest_cell n m rows.now)
        × Paired rows.now (2 ^ n - 1) pairs.new × AnyContent buckets.old buckets.new }
{
    let inputs = boolean::power_of_two(n) as u32;
    let mut found = FoundCell {
        count: 0,
        a: 0,
        beta: 0,
    };
    for a in 1..inputs {
        write_pairs(rows, a, pairs);
        let best = largest_alone(pairs, buckets);
        found = after_row(a, best, found);
    }
    found
}

// The largest cell of a box that was checked. The buckets are made once for all rows, and room for the pairs is lent.
// kept: beside `find_wide`. The buckets' number and the sweep differ: only the line with `half` is shared, so one form is no plainer.
pub fn find_narrow(n: u32, m: u32, rows: &[u32], pairs: &mut [u32]) -> FoundCell
    requires { Box n m rows.now × (m ≤ 8) × (length pairs.old ≡ 128) }
    ensures { (cell_found result ≡ spec.largest_cell n m rows.now) × AnyContent pairs.old pairs.new }
{
    let mut buckets = [0u64; 256];
    let half = rows.len() / 2;
    let size = boolean::power_of_two(m);
    sweep_narrow(n, m, rows, &mut pairs[..half], &mut buckets[..size])
}

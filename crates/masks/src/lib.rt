// The masks of components within a limit, one after the other, and their truth tables.
#![tactic(auto)]

ghost use Rattle.std.specs.Prelude.{◌≡◌, ◌*◌, ◌^◌, ◌≤◌, ◌<◌, length};
ghost use Rattle.std.specs.Int.Bits.{bit_xor};
ghost use Rattle.std.specs.Int.Count.{ones};
ghost use Rattle.boolean.specs.Bits.{dot};
ghost use Rattle.boolean.specs.Sums.{list_below};
ghost use Rattle.boolean.specs.Functions.{at, component};
ghost use Rattle.masks.specs.Masks.{FirstFrom, Next, PowerAdded};
ghost use Rattle.masks.specs.Steps.{mask_of_ones, Steps, Stepping};
ghost use Rattle.masks.specs.Work.{preferred};
ghost use Rattle.refusals.specs.Table.{first};
ghost use Rattle.masks.specs.Parts.{part_lines, sooner};

use refusals::Refusal;

// The next mask with at most `limit` ones: c + 1 where c has fewer, and else c with its lowest one added.
pub fn next_mask(limit: u32, c: u64) -> u64
    requires { (1 ≤ limit) × (c < 4294967296) × (ones c ≤ limit) }
    ensures { Next limit c result × PowerAdded c result }
{
    if u64::count_ones(c) < limit {
        c + 1
    } else {
        c + (1u64 << u64::trailing_zeros(c))
    }
}

// The first mask from c on with at most `limit` ones: while it has more, its lowest one is added.
pub fn first_mask(limit: u32, c: u64) -> u64
    requires { (1 ≤ limit) × (c < 4294967296) }
    ensures { FirstFrom limit c result }
{
    let mut r = c;
    // kept: no plainer in another form, since each mask is made from the one before
    while limit < u64::count_ones(r) {
        r = next_mask(u64::count_ones(r), r);
    }
    r
}

// Whether mask c is to be preferred to the best so far: by its figure, and among equal figures by fewer ones. Where `low` is the figure of
// c and `high` that of the best, the lower figure is the better one; the other way round, the higher. The masks come in ascending order, so
// that of as many ones the first that came is kept. No ones are counted unless the figures are equal.
pub fn is_preferred(low: u32, high: u32, c: u32, best: u32) -> bool
    ensures { result ≡ preferred low high c best }
{
    low < high || low == high && u32::count_ones(c) < u32::count_ones(best)
}

// Whether the result of mask c comes before that of mask `best`, where two parts of a sweep are merged: by its figure, and among equal
// figures by fewer ones, and among as many ones by the smaller mask. `low` and `high` are as above.
pub fn is_sooner(low: u32, high: u32, c: u32, best: u32) -> bool
    ensures { result ≡ sooner low high c best }
{
    (low, u32::count_ones(c), c) < (high, u32::count_ones(best), best)
}

// The lines on a part of a sweep, of an m that was checked: it lies from 1 to 2^m − 1 and has a mask.
#[tactic(auto, unfolding(refusals::specs::Table::first, crate::specs::Parts::part_lines))]
pub fn check_part(m: u32, low: u32, high: u32) -> Result<(), Refusal>
    requires { m ≤ 32 }
    ensures { result ≡ first (part_lines m low high) }
{
    let largest = (boolean::power_of_two(m) - 1) as u32;
    if !refusals::in_range(1, largest, low) {
        return Err(Refusal::Parameter);
    }
    if !refusals::in_range(low, largest, high) {
        return Err(Refusal::Parameter);
    }
    Ok(())
}

// The value of component c at a row.
fn component_at(row: u32, c: u32) -> u8
    ensures { result ≡ dot row c }
{
    boolean::dot(row, c) as u8
}

// The truth table of component c.
// kept: the array is lent, as long as the rows, since no call has memory of its own to hand back (fixed memory).
pub fn write_component(rows: &[u32], c: u32, table: &mut [u8])
    requires { length table.old ≡ length rows.now }
    ensures { table.new ≡ list_below (length rows.now) (λ x. component rows.now c x) }
{
    for (x, row) in rows.iter().enumerate() {
        table[x] = component_at(*row, c);
    }
}

// The step tables, one after the other: table k is the component of the run of k + 1 ones from the lowest bit on.
pub fn write_steps(m: u32, rows: &[u32], steps: &mut [u8])
    requires { (m ≤ 32) × (0 < length rows.now) × (length rows.now ≤ 256) × (length steps.old ≡ m * length rows.now) }
    ensures { Steps m rows.now steps.new }
{
    let size = rows.len();
    for (i, step) in steps.iter_mut().enumerate() {
        let run = 2 * boolean::power_of_two((i / size) as u32) - 1;
        *step = component_at(rows[i % size], run as u32);
    }
}

// Adds one truth table to another.
fn add_table(other: &[u8], table: &mut [u8])
    requires { length table.old ≡ length other.now }
    ensures { table.new
        ≡ list_below (length other.now) (λ x. bit_xor (at table.old x) (at other.now x)) }
{
    for (x, value) in other.iter().enumerate() {
        table[x] ^= *value;
    }
}

// Adds step table k to a truth table.
fn add_step(m: u32, rows: &[u32], steps: &[u8], k: u32, table: &mut [u8])
    requires { Steps m rows.now steps.now × (k < m) × (length table.old ≡ length rows.now) }
    ensures { table.new
        ≡ list_below (length rows.now) (λ x. bit_xor (at table.old x) (component rows.now (mask_of_ones k) x)) }
{
    let size = rows.len();
    let start = k as usize * size;
    let end = start + size;
    add_table(&steps[start..end], table);
}

// From the truth table of component `last` to that of component c, the mask that comes next: the two differ in a run of ones, from the
// place of c − last to that of the lowest one of c.
pub fn next_component(m: u32, rows: &[u32], steps: &[u8], last: u64, c: u64, table: &mut [u8])
    requires { Stepping m rows.now steps.now last c table.old }
    ensures { table.new ≡ list_below (length rows.now) (λ x. component rows.now c x) }
{
    let low = u64::trailing_zeros(c - last);
    add_step(m, rows, steps, u64::trailing_zeros(c), table);
    if 0 < low {
        add_step(m, rows, steps, low - 1, table);
    }
}

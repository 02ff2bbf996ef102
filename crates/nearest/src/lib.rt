// All nearest pairs of a box: those that differ at as few inputs as the nonlinearity says.
#![tactic(auto)]

ghost use Rattle.std.specs.Prelude.{◌≡◌, ◌+◌, ◌*◌, ◌^◌, ◌≤◌, ◌<◌, length, set};
ghost use Rattle.std.proofs.lemmas.List.Edits.{sets};
ghost use Rattle.boolean.specs.Sums.{AnyContent};
ghost use Rattle.boolean.specs.Functions.{MaskWithin};
ghost use Rattle.walsh.specs.FixedTable.{Spectra};
ghost use Rattle.nearest.specs.Calls.{PairsCalled};
ghost use Rattle.nearest.specs.Work.{NextOfOnes, pairs_at, pairs_of_ones, pairs_of_all, pair_number_at, pair_numbers};
ghost use Rattle.nearest.specs.Work.{NonlinearityKnown, ListLent};

use refusals::Refusal;

// What is listed: the pairs of a box of n inputs and m outputs, within the limit i, that differ at d inputs.
#[derive(Clone, Copy)]
struct Sought {
    n: u32,
    m: u32,
    i: u32,
    d: u32,
}

// The next mask with as many ones. Its lowest one is added, which carries through the run of ones that begins there and leaves a single
// one above it; as many ones as are then missing are set at the lowest places.
fn next_of_ones(c: u64) -> u64
    requires { (1 ≤ c) × (c < 2 ^ 32) }
    ensures { NextOfOnes c result }
{
    let carried = c + (1u64 << u64::trailing_zeros(c));
    let lost = u64::count_ones(c) - u64::count_ones(carried);
    carried + ((1u64 << lost) - 1)
}

// A number is written to an entry of the list, where the list has that entry.
fn put(list: &mut [u64], entry: usize, number: u64)
    ensures { list.new ≡ set list.old entry number }
{
    if entry < list.len() {
        list[entry] = number;
    }
}

// The pair of component c at w is written to the list's entry `next`, if the value there has this magnitude: its sign decides b. The entry
// after it is returned, whether or not the list has it: where the list is too short, or empty, the pairs are counted all the same.
fn list_place(c: u64, size: u32, w: usize, value: i32, list: &mut [u64], next: usize) -> usize
    requires { (c < 2 ^ 32) × (w < 256) × (next < 2 ^ 63) }
    ensures { (result ≡ next + length (pair_number_at c size w value)) × (result ≤ next + 1)
        × (list.new ≡ sets list.old next (pair_number_at c size w value)) }
{
    if boolean::magnitude(value) != size {
        return next;
    }
    let b = boolean::sign_bit(value) as u64;
    put(list, next, c * 512 + 2 * (w as u64) + b);
    next + 1
}

// The pairs of component c at all values of this magnitude, from the entry `start` on.
fn list_places(c: u64, size: u32, values: &[i32], list: &mut [u64], start: usize) -> usize
    requires { (c < 2 ^ 32) × (length values.now ≤ 256) × (start ≤ 2 ^ 62) }
    ensures { (result ≡ start + length (pair_numbers c size values.now)) × (result ≤ start + 256)
        × (list.new ≡ sets list.old start (pair_numbers c size values.now)) }
{
    let mut next = start;
    for (w, value) in values.iter().enumerate() {
        next = list_place(c, size, w, *value, list, next);
    }
    next
}

// The pairs of component c that differ at d inputs, where no pair within the limit differs at fewer. Its spectrum is made, and looked
// through, only where the largest magnitude says that there is such a pair.
fn list_component(
    fixed: &[i16; 2048],
    sought: Sought,
    rows: &[u32],
    c: u64,
    table: &mut [u8],
    work: &mut [i16],
    values: &mut [i32],
    list: &mut [u64],
    start: usize,
) -> usize
    requires { ListLent sought rows.now table.old work.old values.old × MaskWithin sought.i (2 ^ sought.m) c
        × Spectra fixed.now × (start ≤ 2 ^ 62) }
    ensures { (result ≡ start + length (pairs_at sought.n rows.now sought.d c)) × (result ≤ start + 256)
        × (list.new ≡ sets list.old start (pairs_at sought.n rows.now sought.d c))
        × AnyContent table.old table.new × AnyContent work.old work.new
        × AnyContent values.old values.new }
{
    let largest = linear::component_peak(fixed, sought.n, sought.m, rows, c as u32, table, work);
    let size = rows.len() as u32 / 2 - sought.d;
    if largest != size {
        return start;
    }
    walsh::descend(fixed, sought.n, table, values);
    list_places(c, size, values, list, start)
}

// The same of every component whose mask has k ones, in ascending order.
fn list_of_ones(
    fixed: &[i16; 2048],
    sought: Sought,
    rows: &[u32],
    k: u32,
    table: &mut [u8],
    work: &mut [i16],
    values: &mut [i32],
    list: &mut [u64],
    start: usize,
) -> usize
    requires { ListLent sought rows.now table.old work.old values.old × (1 ≤ k) × (k ≤ sought.i) × Spectra fixed.now
        × (start ≤ 2 ^ 61) }
    ensures { (result ≡ start + length (pairs_of_ones sought rows.now k)) × (result ≤ start + 2 ^ 40)
        × (list.new ≡ sets list.old start (pairs_of_ones sought rows.now k))
        × AnyContent table.old table.new × AnyContent work.old work.new
        × AnyContent values.old values.new }
{
    let masks = boolean::power_of_two(sought.m) as u64;
    let mut next = start;
    let mut c = boolean::power_of_two(k) as u64 - 1;
    // kept: no plainer in another form, since each mask is made from the one before
    while c < masks {
        next = list_component(fixed, sought, rows, c, table, work, values, list, next);
        c = next_of_ones(c);
    }
    next
}

// The same of every component within the limit, fewest outputs first. How many pairs there are is returned.
fn list_all(
    fixed: &[i16; 2048],
    sought: Sought,
    rows: &[u32],
    table: &mut [u8],
    work: &mut [i16],
    values: &mut [i32],
    list: &mut [u64],
) -> usize
    requires { ListLent sought rows.now table.old work.old values.old × Spectra fixed.now }
    ensures { (result ≡ length (pairs_of_all sought rows.now))
        × (list.new ≡ sets list.old 0 (pairs_of_all sought rows.now))
        × AnyContent table.old table.new × AnyContent work.old work.new
        × AnyContent values.old values.new }
{
    let mut next = 0;
    for k in 1..=sought.i {
        next = list_of_ones(fixed, sought, rows, k, table, work, values, list, next);
    }
    next
}

// The pairs are counted first, with no entry of the list lent, and only a list that has room for all of them is written to.
fn list_with(
    fixed: &[i16; 2048],
    sought: Sought,
    rows: &[u32],
    table: &mut [u8],
    work: &mut [i16],
    values: &mut [i32],
    list: &mut [u64],
) -> Result<u64, Refusal>
    requires { ListLent sought rows.now table.old work.old values.old × Spectra fixed.now }
    ensures { PairsCalled sought.n sought.m rows.now sought.i list.old result list.new
        × AnyContent table.old table.new × AnyContent work.old work.new
        × AnyContent values.old values.new }
{
    let count = list_all(fixed, sought, rows, table, work, values, &mut list[..0]);
    if list.len() < count {
        return Err(Refusal::ListTooShort);
    }
    list_all(fixed, sought, rows, table, work, values, list);
    Ok(count as u64)
}

// The list of a box that was accepted, whose nonlinearity within the limit is d. The fixed table and the arrays to work in are made once.
fn list_nearest(
    n: u32,
    m: u32,
    rows: &[u32],
    i: u32,
    d: u32,
    list: &mut [u64],
) -> Result<u64, Refusal>
    requires { NonlinearityKnown n m rows.now i d }
    ensures { PairsCalled n m rows.now i list.old result list.new }
{
    let fixed = walsh::spectra();
    let mut table = [0u8; 256];
    let mut work = [0i16; 256];
    let mut values = [0i32; 256];
    let size = rows.len();
    let sought = Sought { n, m, i, d };
    list_with(
        &fixed,
        sought,
        rows,
        &mut table[..size],
        &mut work[..size],
        &mut values[..size],
        list,
    )
}

// All pairs (c, w, b) of the combinations of at most i outputs that differ at as few inputs as the nonlinearity within i says, each as
// c * 512 + 2 * w + b: fewest outputs first, then in ascending c, w and b. A list that has no room for all of them is not written to.
pub fn nearest_pairs(n: u32, m: u32, rows: &[u32], i: u32, list: &mut [u64]) -> Result<u64, Refusal>
    ensures { PairsCalled n m rows.now i list.old result list.new }
{
    let nearest = linear::nonlinearity(n, m, rows, i)?;
    list_nearest(n, m, rows, i, nearest.count, list)
}

// The first swap of two unlike rows that raises the nonlinearity.
#![tactic(auto)]

ghost use Rattle.std.specs.Prelude.{Ok, ◌≡◌, ◌+◌, ◌^◌, ◌≤◌, ◌<◌, ◌↔◌, length, IsTrue};
ghost use Rattle.std.specs.Int.Bits.{bit_xor};
ghost use Rattle.std.specs.Int.Count.{ones};
ghost use Rattle.boolean.specs.Bits.{dot, affine};
ghost use Rattle.boolean.specs.Functions.{swapped, MaskWithin};
ghost use Rattle.boolean.specs.Sums.{AnyContent};
ghost use Rattle.refusals.specs.Table.{figures, Box};
ghost use Rattle.walsh.specs.FixedTable.{Spectra};
ghost use Rattle.linear.specs.Nonlinearity.{nonlinearity};
ghost use Rattle.linear.specs.Lent.{PairsSwept};
ghost use Rattle.linear.specs.Calls.{pair_candidate};
ghost use Rattle.swaps.specs.Swaps.{swap_at, swaps_from, swaps_by, swaps, raised, raising_reply};
ghost use Rattle.swaps.specs.Calls.{said_raising_swap};
ghost use Rattle.swaps.specs.Work.{entry_of, TableOf, TakesApart, NearestPair, PairsGathered, Searching, Tried, Passed, SearchedIn};
ghost use Rattle.swaps.specs.Work.{AnyWork};

use linear::Found;
use refusals::Refusal;

// A swap that raises the nonlinearity: its inputs, and the new figure.
#[derive(Clone, Copy)]
pub struct Raise {
    pub low: u32,
    pub high: u32,
    pub figure: u32,
}

// Tables of up to 16 nearest pairs, the first ones, and how many they are.
#[derive(Clone, Copy)]
struct Gathered {
    tables: [[u8; 256]; 16],
    count: usize,
}

// What each part of the search is told: the widths of the box, its nonlinearity, and tables of nearest pairs.
#[derive(Clone, Copy)]
struct Job {
    n: u32,
    m: u32,
    figure: u32,
    pairs: Gathered,
}

// The arrays to work in, each used as far as the box has rows: the rows after a swap, and the truth table and the spectrum of a component.
#[derive(Clone, Copy)]
struct Workspace {
    rows: [u32; 256],
    bits: [u8; 256],
    values: [i16; 256],
}

// The rows after a swap.
fn write_swapped(rows: &[u32], low: usize, high: usize, out: &mut [u32])
    requires { (length out.old ≡ length rows.now) × (low < length rows.now) × (high < length rows.now) }
    ensures { out.new ≡ swapped rows.now low high }
{
    boolean::copy(rows, out);
    out.swap(low, high);
}

// The nonlinearity, where it is above a count. Or else a component with a pair of that count or less, found as soon as there is one: the
// component `hint` is tried before the others. The two arrays are lent to work in.
fn reaching(
    fixed: &[i16; 2048],
    n: u32,
    m: u32,
    rows: &[u32],
    count: u32,
    hint: u32,
    bits: &mut [u8],
    out: &mut [i16],
) -> Result<u32, u32>
    requires { PairsSwept n m rows.now bits.old out.old × Spectra fixed.now × MaskWithin m (2 ^ m) hint × (m ≤ 8) }
    ensures { Tried n m rows.now count result
        × AnyContent bits.old bits.new × AnyContent out.old out.new }
{
    if linear::component_count(fixed, n, m, rows, hint, bits, out) <= count {
        return Err(hint);
    }
    let masks = boolean::power_of_two(m) as u32;
    let mut least = rows.len() as u32;
    for c in 1..masks {
        let near = linear::component_count(fixed, n, m, rows, c, bits, out);
        if near <= count {
            return Err(c);
        }
        least = least.min(near);
    }
    Ok(least)
}

// In how many bits two rows differ.
fn differing(a: u32, b: u32) -> u32
    ensures { result ≡ ones (bit_xor a b) }
{
    u32::count_ones(a ^ b)
}

// What the table of a pair has at an input x: 0 where the component differs from the affine function, and else 1 plus its value.
fn table_entry(row: u32, x: u32, pair: Found) -> u8
    ensures { result ≡ entry_of (dot row pair.c) (affine pair.w pair.b x) }
{
    let value = boolean::dot(row, pair.c);
    let near = boolean::dot(pair.w, x) ^ pair.b;
    if value != near {
        return 0;
    }
    value as u8 + 1
}

// The table of a pair.
fn write_table(rows: &[u32], pair: Found, table: &mut [u8])
    requires { (length rows.now ≤ 256) × (length table.old ≡ 256) }
    ensures { TableOf rows.now pair table.new }
{
    for (x, row) in rows.iter().enumerate() {
        table[x] = table_entry(*row, x as u32, pair);
    }
}

// The tables of up to 16 nearest pairs, and how many they are: that of the present witness, and from six inputs on also those of the first
// nearest pair of each component that has one. (With fewer inputs the whole search takes less time than to gather them.)
fn gather_pairs(
    fixed: &[i16; 2048],
    n: u32,
    m: u32,
    rows: &[u32],
    present: Found,
    pairs: &mut Gathered,
)
    requires { Box n m rows.now × Spectra fixed.now × (m ≤ 8) × NearestPair n m rows.now present.count present }
    ensures { PairsGathered n m rows.now present.count pairs.new }
{
    let tables = &mut pairs.tables;
    write_table(rows, present, &mut tables[0]);
    pairs.count = 1;
    if n < 6 {
        return;
    }
    let mut farther = present;
    farther.count = present.count + 1;
    let mut bits = [0u8; 256];
    let mut out = [0i32; 256];
    let size = rows.len();
    let masks = boolean::power_of_two(m) as u32;
    for mask in 1..masks {
        let count = pairs.count;
        if count == 16 {
            return;
        }
        linear::component_spectrum(fixed, n, m, rows, mask, &mut bits[..size], &mut out[..size]);
        let pair = linear::with_spectrum(farther, n, m, rows, mask, &out[..size]);
        if pair.count == present.count {
            let tables = &mut pairs.tables;
            write_table(rows, pair, &mut tables[count]);
            pairs.count = count + 1;
        }
    }
}

// Whether a swap takes every gathered pair apart: that pair agrees at both inputs, and its component's values there are unlike, so that its
// entries are 1 and 2. No other swap raises the nonlinearity.
fn all_apart(pairs: &Gathered, low: usize, high: usize) -> bool
    requires { (pairs.now.count ≤ 16) × (low < 256) × (high < 256) }
    ensures { IsTrue result ↔ TakesApart pairs.now low high }
{
    pairs.tables[..pairs.count]
        .iter()
        .all(|table| table[low] ^ table[high] == 3)
}

// One swap, if its rows differ in d bits: the new figure where it raises the nonlinearity, or else the component to try first next time.
// The test that turns most swaps down comes first; it goes by the tables of the gathered pairs.
fn try_swap(
    fixed: &[i16; 2048],
    job: &Job,
    rows: &[u32],
    hint: u32,
    d: u32,
    low: usize,
    high: usize,
    space: &mut Workspace,
) -> Result<u32, u32>
    requires { Searching rows.now job.now × Spectra fixed.now × MaskWithin job.now.m (2 ^ job.now.m) hint
        × (low < 2 ^ job.now.n) × (high < 2 ^ job.now.n) }
    ensures { Passed job.now.n job.now.m rows.now (swap_at rows.now d low high) low high result × AnyWork space.new }
{
    if !all_apart(&job.pairs, low, high) {
        return Err(hint);
    }
    if differing(rows[low], rows[high]) != d {
        return Err(hint);
    }
    let size = rows.len();
    let later = &mut space.rows[..];
    let bits = &mut space.bits[..];
    let values = &mut space.values[..];
    write_swapped(rows, low, high, &mut later[..size]);
    reaching(
        fixed,
        job.n,
        job.m,
        &later[..size],
        job.figure,
        hint,
        &mut bits[..size],
        &mut values[..size],
    )
}

// The swaps of one input with each higher one: the first that raises the nonlinearity, or else the component to try first next time.
fn search_from(
    fixed: &[i16; 2048],
    job: &Job,
    rows: &[u32],
    start: u32,
    d: u32,
    low: usize,
    space: &mut Workspace,
) -> Result<Raise, u32>
    requires { Searching rows.now job.now × Spectra fixed.now × MaskWithin job.now.m (2 ^ job.now.m) start × (low < 2 ^ job.now.n) }
    ensures { SearchedIn job.now.n job.now.m rows.now (swaps_from job.now.n rows.now d low) result × AnyWork space.new }
{
    let mut hint = start;
    for high in low + 1..rows.len() {
        match try_swap(fixed, job, rows, hint, d, low, high, space) {
            Ok(figure) => {
                return Ok(Raise {
                    low: low as u32,
                    high: high as u32,
                    figure,
                });
            }
            Err(mask) => hint = mask,
        }
    }
    Err(hint)
}

// The same of the swaps of rows that differ in d bits.
fn search_by(
    fixed: &[i16; 2048],
    job: &Job,
    rows: &[u32],
    start: u32,
    d: u32,
    space: &mut Workspace,
) -> Result<Raise, u32>
    requires { Searching rows.now job.now × Spectra fixed.now × MaskWithin job.now.m (2 ^ job.now.m) start }
    ensures { SearchedIn job.now.n job.now.m rows.now (swaps_by job.now.n rows.now d) result × AnyWork space.new }
{
    let mut hint = start;
    for low in 0..rows.len() {
        match search_from(fixed, job, rows, hint, d, low, space) {
            Ok(raise) => return Ok(raise),
            Err(by) => hint = by,
        }
    }
    Err(hint)
}

// The same of all swaps, by the number of bits in which the rows differ.
fn search(
    fixed: &[i16; 2048],
    job: &Job,
    rows: &[u32],
    start: u32,
    space: &mut Workspace,
) -> Result<Raise, u32>
    requires { Searching rows.now job.now × Spectra fixed.now × MaskWithin job.now.m (2 ^ job.now.m) start }
    ensures { SearchedIn job.now.n job.now.m rows.now (swaps job.now.n job.now.m rows.now) result × AnyWork space.new }
{
    let mut hint = start;
    for d in 1..=job.m {
        match search_by(fixed, job, rows, hint, d, space) {
            Ok(raise) => return Ok(raise),
            Err(by) => hint = by,
        }
    }
    Err(hint)
}

// The nearest pairs are gathered from the present witness on, and all swaps are searched with their tables.
fn gather_and_search(n: u32, m: u32, rows: &[u32], present: Found) -> Result<Raise, u32>
    requires { Box n m rows.now × (m ≤ 8) × (pair_candidate present ≡ nonlinearity n m rows.now m) }
    ensures { SearchedIn n m rows.now (swaps n m rows.now) result }
{
    let fixed = walsh::spectra();
    let mut job = Job {
        n,
        m,
        figure: present.count,
        pairs: Gathered {
            tables: [[0; 256]; 16],
            count: 0,
        },
    };
    gather_pairs(&fixed, n, m, rows, present, &mut job.pairs);
    let mut space = Workspace {
        rows: [0; 256],
        bits: [0; 256],
        values: [0; 256],
    };
    search(&fixed, &job, rows, present.c, &mut space)
}

// The search in an accepted box, from the present witness on.
fn search_box(n: u32, m: u32, rows: &[u32], present: Found) -> Option<Raise>
    requires { Box n m rows.now × (m ≤ 8) × (pair_candidate present ≡ nonlinearity n m rows.now m) }
    ensures { said_raising_swap (Ok result) ≡ figures (raised n m rows.now) }
{
    gather_and_search(n, m, rows, present).ok()
}

// The first swap of two unlike rows that raises the nonlinearity over all combinations, by the number of bits in which the rows differ, the
// lower input, then the higher; or that there is none. At most eight outputs are taken. (An accepted box has a nonlinearity, so that
// its call never refuses; what it would refuse is passed on.)
pub fn raising_swap(n: u32, m: u32, rows: &[u32]) -> Result<Option<Raise>, Refusal>
    ensures { said_raising_swap result ≡ raising_reply n m rows.now }
{
    refusals::check_box_up_to(8, n, m, rows)?;
    let present = linear::nonlinearity(n, m, rows, m)?;
    Ok(search_box(n, m, rows, present))
}

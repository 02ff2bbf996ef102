// The components of a box: their spectra, and the nonlinearity.
#![tactic(auto)]

ghost use Rattle.std.specs.Prelude.{◌≡◌, [], ◌∷◌, ◌*◌, ◌^◌, ◌≤◌, ◌<◌, ltb, length};
ghost use Rattle.boolean.specs.Sums.{list_below, AnyContent};
ghost use Rattle.boolean.specs.Functions.{component, spectrum};
ghost use Rattle.boolean.specs.Selection.{best, lower, first_least, ranked};
ghost use Rattle.refusals.specs.Table.{first, Box};
ghost use Rattle.walsh.specs.FixedTable.{Spectra};
ghost use Rattle.walsh.specs.Magnitudes.{largest_magnitude};
ghost use Rattle.masks.specs.Masks.{outputs};
ghost use Rattle.masks.specs.Steps.{step_tables, Stepping};
ghost use Rattle.masks.specs.Parts.{merged_reply};
ghost use Rattle.linear.specs.Nonlinearity.{pairs_of, pairs_between, nonlinearity_reply, nonlinearity_between_reply, part_checks};
ghost use Rattle.linear.specs.Calls.{component_checks, ComponentCalled, said_least_pair, pair_candidate};
ghost use Rattle.linear.specs.Parts.{said_part};
ghost use Rattle.linear.specs.Lent.{PairsSwept, PartSwept};

use refusals::Refusal;

// The best pair so far. It stands in a server, which crosses to C by value: so its fields lie as C lays them.
#[repr(C)]
#[derive(Clone, Copy)]
pub struct Found {
    pub count: u32,
    pub c: u32,
    pub w: u32,
    pub b: u32,
}

// The spectrum of component c, with the fixed table and an array for the truth table lent.
pub fn component_spectrum(
    fixed: &[i16; 2048],
    n: u32,
    m: u32,
    rows: &[u32],
    c: u32,
    table: &mut [u8],
    out: &mut [i32],
)
    requires { PairsSwept n m rows.now table.old out.old × Spectra fixed.now }
    ensures { (out.new ≡ spectrum n (component rows.now c))
        × (table.new ≡ list_below (2 ^ n) (λ x. component rows.now c x)) }
{
    masks::write_component(rows, c, table);
    walsh::descend(fixed, n, table, out);
}

// The largest magnitude in the spectrum of component c, from the truth table of component `last`, the mask before it.
pub fn next_peak(
    fixed: &[i16; 2048],
    n: u32,
    m: u32,
    rows: &[u32],
    steps: &[u8],
    last: u64,
    c: u64,
    table: &mut [u8],
    work: &mut [i16],
) -> u32
    requires { PairsSwept n m rows.now table.old work.old × Spectra fixed.now
        × Stepping m rows.now steps.now last c table.old }
    ensures { (result ≡ largest_magnitude (spectrum n (component rows.now c)))
        × (table.new ≡ list_below (2 ^ n) (λ x. component rows.now c x)) }
{
    masks::next_component(m, rows, steps, last, c, table);
    walsh::peak(fixed, n, table, work)
}

// The largest magnitude in the spectrum of component c, for callers that need few of the spectra themselves: the array to work in has
// 16-bit values. The other array is left with the component's truth table.
pub fn component_peak(
    fixed: &[i16; 2048],
    n: u32,
    m: u32,
    rows: &[u32],
    c: u32,
    bits: &mut [u8],
    work: &mut [i16],
) -> u32
    requires { PairsSwept n m rows.now bits.old work.old × Spectra fixed.now }
    ensures { (result ≡ largest_magnitude (spectrum n (component rows.now c)))
        × (bits.new ≡ list_below (2 ^ n) (λ x. component rows.now c x))
        × AnyContent work.old work.new }
{
    masks::write_component(rows, c, bits);
    walsh::peak(fixed, n, bits, work)
}

// The checks of the component's spectrum.
#[tactic(auto, unfolding(refusals::specs::Table::first, crate::specs::Calls::component_checks))]
fn check_component(n: u32, m: u32, rows: &[u32], c: u32, room: usize) -> Result<(), Refusal>
    ensures { result ≡ first (component_checks n m rows.now c room) }
{
    refusals::check_box(n, m, rows)?;
    let masks = boolean::power_of_two(m) - 1;
    if !refusals::in_range(1, masks as u32, c) {
        return Err(Refusal::Parameter);
    }
    if room != boolean::power_of_two(n) {
        return Err(Refusal::WrittenLength);
    }
    Ok(())
}

// The spectrum of component c of a box.
pub fn spectrum_of_component(
    n: u32,
    m: u32,
    rows: &[u32],
    c: u32,
    out: &mut [i32],
) -> Result<(), Refusal>
    ensures { ComponentCalled n m rows.now c out.old result out.new }
{
    check_component(n, m, rows, c, out.len())?;
    let fixed = walsh::spectra();
    let mut table = [0u8; 256];
    let size = rows.len();
    component_spectrum(&fixed, n, m, rows, c, &mut table[..size], out);
    Ok(())
}

// The fewest inputs at which component c differs from an affine function, with the fixed table and two arrays to work in lent: the first is
// left with the component's truth table.
pub fn component_count(
    fixed: &[i16; 2048],
    n: u32,
    m: u32,
    rows: &[u32],
    c: u32,
    table: &mut [u8],
    work: &mut [i16],
) -> u32
    requires { PairsSwept n m rows.now table.old work.old × Spectra fixed.now }
    ensures { (result ≡ (first_least (pairs_of n rows.now c)).figure)
        × (table.new ≡ list_below (2 ^ n) (λ x. component rows.now c x))
        × AnyContent work.old work.new }
{
    let largest = component_peak(fixed, n, m, rows, c, table, work);
    rows.len() as u32 / 2 - largest
}

// The best pair so far, or the first nearest pair of component c, whose spectrum is given: by the count, and among equal counts by fewer
// outputs. The largest magnitude has the fewest differing inputs, and its sign decides b. Its place is looked for only where the pair is
// taken.
pub fn with_spectrum(found: Found, n: u32, m: u32, rows: &[u32], c: u32, values: &[i32]) -> Found
    requires { Box n m rows.now × (values.now ≡ spectrum n (component rows.now c)) }
    ensures { pair_candidate result
        ≡ best (ranked lower outputs) (pair_candidate found) (first_least (pairs_of n rows.now c) ∷ []) }
{
    let largest = walsh::largest_magnitude(values);
    let count = rows.len() as u32 / 2 - largest;
    if masks::is_preferred(count, found.count, c, found.c) {
        let w = walsh::first_place(values, largest);
        let b = boolean::sign_bit(values[w]);
        Found {
            count,
            c,
            w: w as u32,
            b: b as u32,
        }
    } else {
        found
    }
}

// The best pair so far, or the first nearest pair of component c, whose truth table and largest magnitude are given: its spectrum is made
// only where the pair is taken.
pub fn with_peak(
    fixed: &[i16; 2048],
    found: Found,
    n: u32,
    m: u32,
    rows: &[u32],
    c: u32,
    largest: u32,
    table: &[u8],
    values: &mut [i32],
) -> Found
    requires { PairsSwept n m rows.now table.now values.old × Spectra fixed.now
        × (largest ≡ largest_magnitude (spectrum n (component rows.now c)))
        × (table.now ≡ list_below (2 ^ n) (λ x. component rows.now c x)) }
    ensures { (pair_candidate result
        ≡ best (ranked lower outputs) (pair_candidate found) (first_least (pairs_of n rows.now c) ∷ []))
        × AnyContent values.old values.new }
{
    let near = rows.len() as u32 / 2 - largest;
    if masks::is_preferred(near, found.count, c, found.c) {
        walsh::descend(fixed, n, table, values);
        with_spectrum(found, n, m, rows, c, values)
    } else {
        found
    }
}

// Every component within the limit from `first`, which is one of them, to `last` in turn, each from the one before. It starts from a count
// that no pair has, and from the component of the number before `first`.
fn sweep(
    fixed: &[i16; 2048],
    n: u32,
    m: u32,
    rows: &[u32],
    i: u32,
    first: u32,
    last: u32,
    steps: &mut [u8],
    table: &mut [u8],
    work: &mut [i16],
    values: &mut [i32],
) -> Found
    requires { PairsSwept n m rows.now table.old work.old × Spectra fixed.now
        × (length steps.old ≡ m * length rows.now) × (1 ≤ i) × PartSwept m i first last × (length values.old ≡ 2 ^ n) }
    ensures { (pair_candidate result ≡ first_least (pairs_between n m rows.now i first last))
        × (steps.new ≡ step_tables m rows.now)
        × AnyContent table.old table.new × AnyContent work.old work.new
        × AnyContent values.old values.new }
{
    masks::write_steps(m, rows, steps);
    let prior = first - 1;
    masks::write_component(rows, prior, table);
    let end = last as u64 + 1;
    let mut found = Found {
        count: rows.len() as u32 + 1,
        c: 0,
        w: 0,
        b: 0,
    };
    let mut before = prior as u64;
    let mut c = first as u64;
    // kept: no plainer in another form, since each mask is made from the one before
    while c < end {
        let largest = next_peak(fixed, n, m, rows, steps, before, c, table, work);
        found = with_peak(fixed, found, n, m, rows, c as u32, largest, table, values);
        before = c;
        c = masks::next_mask(i, c);
    }
    found
}

// The first nearest pair of the components within the limit from `first`, which is one of them, to `last`.
fn least_between(n: u32, m: u32, rows: &[u32], i: u32, first: u32, last: u32) -> Found
    requires { Box n m rows.now × (1 ≤ i) × PartSwept m i first last }
    ensures { pair_candidate result ≡ first_least (pairs_between n m rows.now i first last) }
{
    let fixed = walsh::spectra();
    let mut steps = [0u8; 8192];
    let mut table = [0u8; 256];
    let mut work = [0i16; 256];
    let mut values = [0i32; 256];
    let size = rows.len();
    let total = m as usize * size;
    sweep(
        &fixed,
        n,
        m,
        rows,
        i,
        first,
        last,
        &mut steps[..total],
        &mut table[..size],
        &mut work[..size],
        &mut values[..size],
    )
}

// The nonlinearity of a box over its combinations of at most i outputs, with the first pair that reaches it.
pub fn nonlinearity(n: u32, m: u32, rows: &[u32], i: u32) -> Result<Found, Refusal>
    ensures { said_least_pair result ≡ nonlinearity_reply n m rows.now i }
{
    refusals::check_limited(n, m, rows, i)?;
    let masks = (boolean::power_of_two(m) - 1) as u32;
    Ok(least_between(n, m, rows, i, 1, masks))
}

// The checks of a part: the plain call's, then that it lies from 1 to 2^m − 1.
#[tactic(auto, unfolding(refusals::specs::Table::first, crate::specs::Nonlinearity::part_checks))]
pub fn check_part(
    n: u32,
    m: u32,
    rows: &[u32],
    limit: u32,
    low: u32,
    high: u32,
) -> Result<(), Refusal>
    ensures { result ≡ first (part_checks n m rows.now limit low high) }
{
    refusals::check_limited(n, m, rows, limit)?;
    masks::check_part(m, low, high)
}

// The nonlinearity over the combinations of at most i outputs whose masks lie from `first` to `last`: a part of a sweep.
pub fn nonlinearity_between(
    n: u32,
    m: u32,
    rows: &[u32],
    i: u32,
    first: u32,
    last: u32,
) -> Result<Option<Found>, Refusal>
    ensures { said_part result ≡ nonlinearity_between_reply n m rows.now i first last }
{
    check_part(n, m, rows, i, first, last)?;
    let start = masks::first_mask(i, first as u64);
    if (last as u64) < start {
        return Ok(None);
    }
    Ok(Some(least_between(n, m, rows, i, start as u32, last)))
}

// Two parts' answers as one: the fewer inputs, then the fewer outputs, then the smaller mask; a refusal stays one.
pub fn merge(
    x: Result<Option<Found>, Refusal>,
    y: Result<Option<Found>, Refusal>,
) -> Result<Option<Found>, Refusal>
    ensures { said_part result ≡ merged_reply ltb (said_part x) (said_part y) }
{
    let Some(first) = x? else {
        return y;
    };
    let Some(second) = y? else {
        return x;
    };
    if masks::is_sooner(second.count, first.count, second.c, first.c) {
        y
    } else {
        x
    }
}

// What changes of the input do to a box: autocorrelation, dynamic distance, completeness.
#![tactic(auto)]

ghost use Rattle.std.specs.Prelude.{◌≡◌, true, not, [], ◌∷◌, ℕ, ◌+◌, ◌*◌, ◌^◌, ◌≤◌, ◌<◌, eqb, pos, ◌+ℤ◌, nat_abs, length, take, drop};
ghost use Rattle.boolean.specs.Bits.{bit};
ghost use Rattle.boolean.specs.Sums.{list_from, list_below, every, AnyContent};
ghost use Rattle.boolean.specs.Functions.{value_at, changes, column, square};
ghost use Rattle.boolean.specs.Selection.{best, higher, first_largest, ranked};
ghost use Rattle.refusals.specs.Table.{first, said_verdict, Box};
ghost use Rattle.walsh.specs.FixedTable.{Spectra};
ghost use Rattle.walsh.specs.Magnitudes.{largest_magnitude};
ghost use Rattle.masks.specs.Masks.{outputs};
ghost use Rattle.masks.specs.Steps.{step_tables, Stepping};
ghost use Rattle.masks.specs.Parts.{above, merged_reply};
ghost use Rattle.linear.specs.Lent.{PairsSwept, PartSwept};
ghost use Rattle.avalanche.specs.Avalanche.{measured_between, correlated, changes_of};
ghost use Rattle.avalanche.specs.Avalanche as spec;
ghost use Rattle.avalanche.specs.Calls.{distance_checks, said_largest_change, autocorrelation_reply, distance_reply, complete_reply};
ghost use Rattle.avalanche.specs.Parts.{said_part_change, distance_part_checks, autocorrelation_between_reply, distance_between_reply};
ghost use Rattle.avalanche.specs.Work.{change_candidate, truth_table, correlations, Compared, LargestWithin};
ghost use Rattle.avalanche.specs.Work.{FirstWithin, Listed, ChangesInside, LargestListed, FirstListed, beaten_at_once};

use refusals::Refusal;

// The best so far.
#[derive(Clone, Copy)]
pub struct FoundChange {
    pub figure: u32,
    pub c: u32,
    pub s: u32,
}

// The checks of the dynamic distance: those of a box, then the order (i, j).
#[tactic(auto, unfolding(refusals::specs::Table::first, crate::specs::Calls::distance_checks))]
pub fn check_distance(n: u32, m: u32, rows: &[u32], i: u32, j: u32) -> Result<(), Refusal>
    ensures { result ≡ first (distance_checks n m rows.now i j) }
{
    refusals::check_box(n, m, rows)?;
    if !refusals::in_range(1, m, i) {
        return Err(Refusal::Parameter);
    }
    if !refusals::in_range(1, n, j) {
        return Err(Refusal::Parameter);
    }
    Ok(())
}

// The checks of the dynamic distance over a part: the plain call's, then that the part lies from 1 to 2^m − 1.
#[tactic(auto, unfolding(refusals::specs::Table::first, crate::specs::Parts::distance_part_checks))]
pub fn check_distance_part(
    n: u32,
    m: u32,
    rows: &[u32],
    i: u32,
    j: u32,
    low: u32,
    high: u32,
) -> Result<(), Refusal>
    ensures { result ≡ first (distance_part_checks n m rows.now i j low high) }
{
    check_distance(n, m, rows, i, j)?;
    masks::check_part(m, low, high)
}

// The square of each value's double, which a 16-bit value may not hold.
fn square_all(values: &[i16], squares: &mut [i32])
    requires { ((k : ℕ) → nat_abs (value_at values.now k) ≤ 128) × (length squares.old ≡ length values.now) }
    ensures { squares.new
        ≡ list_below (length values.now)
        (λ k. pos (square (value_at values.now k +ℤ value_at values.now k))) }
{
    for (k, value) in values.iter().enumerate() {
        let value = i32::from(*value);
        let double = value + value;
        squares[k] = double * double;
    }
}

// 2^n times the autocorrelation of component c at every s, from its truth table. The squares of the Walsh values, which are
// twice the spectrum's, are the transform of the autocorrelation, so that their transform gives it back, 2^n times.
fn correlate(
    fixed: &[i16; 2048],
    n: u32,
    m: u32,
    rows: &[u32],
    c: u64,
    table: &[u8],
    work: &mut [i16],
    values: &mut [i32],
)
    requires { PairsSwept n m rows.now table.now work.old × Spectra fixed.now × (table.now ≡ truth_table n rows.now c)
        × (length values.old ≡ 2 ^ n) }
    ensures { (values.new ≡ correlations n rows.now c) × AnyContent work.old work.new }
{
    walsh::short_spectrum(fixed, n, table, work);
    square_all(work, values);
    walsh::transform(n, values);
}

// 2^n times the autocorrelation of component c at every s, from the truth table of component `last`, the mask before c.
fn next_correlation(
    fixed: &[i16; 2048],
    n: u32,
    m: u32,
    rows: &[u32],
    steps: &[u8],
    last: u64,
    c: u64,
    table: &mut [u8],
    work: &mut [i16],
    values: &mut [i32],
)
    requires { PairsSwept n m rows.now table.old work.old × Spectra fixed.now
        × Stepping m rows.now steps.now last c table.old × (length values.old ≡ 2 ^ n) }
    ensures { (values.new ≡ correlations n rows.now c)
        × (table.new ≡ truth_table n rows.now c) × AnyContent work.old work.new }
{
    masks::next_component(m, rows, steps, last, c, table);
    correlate(fixed, n, m, rows, c, table, work, values);
}

// One change more: it is listed where it has at most j ones.
fn list_change(j: u32, s: u32, count: usize, list: &mut [u32]) -> usize
    requires { (1 ≤ s) × (count < length list.old) × Listed j s (take count list.old) }
    ensures { (result ≤ count + 1) × Listed j (s + 1) (take result list.new)
        × AnyContent list.old list.new }
{
    if j < u32::count_ones(s) {
        return count;
    }
    list[count] = s;
    count + 1
}

// Lists the changes of at most j of the n inputs, once for all components, and gives their number. Where j is n or more the limit leaves
// out none: no list is made, and the number is 0.
fn list_changes(n: u32, j: u32, list: &mut [u32]) -> usize
    requires { (n ≤ 8) × (length list.old ≡ 2 ^ n) }
    ensures { (result ≤ 2 ^ n) × (j < n → Listed j (2 ^ n) (take result list.new))
        × AnyContent list.old list.new × (n ≤ j → result ≡ 0) }
{
    if n <= j {
        return 0;
    }
    let end = list.len() as u32;
    let mut count = 0;
    for s in 1..end {
        count = list_change(j, s, count, list);
    }
    count
}

// The largest magnitude at the changes of a list.
fn largest_listed(values: &[i32], list: &[u32]) -> u32
    requires { ChangesInside values.now list.now }
    ensures { LargestListed values.now list.now result }
{
    let mut largest = 0;
    for s in list {
        largest = boolean::magnitude(values[*s as usize]).max(largest);
    }
    largest
}

// The largest magnitude at an s from 1. None of them has more than 8 ones, so that none is counted.
// kept: apart from largest_listed, since values that stand side by side are gone through by vector instructions
fn largest_from_one(values: &[i32]) -> u32
    requires { (1 ≤ length values.now) × (length values.now ≤ 256) }
    ensures { LargestWithin values.now 8 result × (result ≡ largest_magnitude (drop 1 values.now)) }
{
    walsh::largest_magnitude(&values[1..])
}

// The largest magnitude at an s from 1 with at most j ones. Where to find it is not asked yet: most components do not need it.
fn largest_within(n: u32, values: &[i32], j: u32, list: &[u32]) -> u32
    requires { (n ≤ 8) × (length values.now ≡ 2 ^ n) × (j < n → Listed j (2 ^ n) list.now) }
    ensures { LargestWithin values.now j result }
{
    if j < n {
        largest_listed(values, list)
    } else {
        largest_from_one(values)
    }
}

// The first change of a list that has the largest magnitude, which is not 0.
fn first_listed(values: &[i32], list: &[u32], largest: u32) -> u32
    requires { ChangesInside values.now list.now × LargestListed values.now list.now largest × (0 < largest) }
    ensures { FirstListed values.now list.now largest result }
{
    *list
        .iter()
        .find(|s| boolean::magnitude(values[**s as usize]) == largest)
        .unwrap()
}

// The first s from 1 that has the largest magnitude, which is not 0.
fn first_from_one(values: &[i32], largest: u32) -> u32
    requires { (length values.now ≤ 256) × LargestWithin values.now 8 largest × (0 < largest) }
    ensures { FirstWithin values.now 8 largest result }
{
    let place = walsh::first_place(&values[1..], largest);
    place as u32 + 1
}

// The first s from 1 with at most j ones that has the largest magnitude, which is not 0.
fn first_within(n: u32, values: &[i32], j: u32, list: &[u32], largest: u32) -> u32
    requires { (n ≤ 8) × (length values.now ≡ 2 ^ n) × (j < n → Listed j (2 ^ n) list.now)
        × LargestWithin values.now j largest × (0 < largest) }
    ensures { FirstWithin values.now j largest result }
{
    if n <= j {
        first_from_one(values, largest)
    } else {
        first_listed(values, list, largest)
    }
}

// The first s from 1 with at most j ones that has the largest magnitude: 1 where that is 0.
fn first_change(n: u32, values: &[i32], j: u32, list: &[u32], largest: u32) -> u32
    requires { (1 ≤ n) × (n ≤ 8) × (1 ≤ j) × (length values.now ≡ 2 ^ n) × (j < n → Listed j (2 ^ n) list.now)
        × LargestWithin values.now j largest }
    ensures { FirstWithin values.now j largest result }
{
    if largest == 0 {
        return 1;
    }
    first_within(n, values, j, list, largest)
}

// Whether the largest magnitude at all changes shows already that component c is no better than the best so far. It is found by vector
// instructions, several values at a time, and a list is gone through one by one: it is asked where half of the changes or more are listed.
fn is_beaten(
    found: FoundChange,
    n: u32,
    m: u32,
    rows: &[u32],
    j: u32,
    list: &[u32],
    c: u32,
    values: &[i32],
) -> bool
    requires { Compared n m rows.now j found c values.now }
    ensures { (result ≡ true → change_candidate found
        ≡ best (ranked higher outputs) (change_candidate found) (first_largest (changes_of n j (correlated n rows.now) c) ∷ []))
        × (result ≡ beaten_at_once found rows.now (length list.now) c values.now) }
{
    if list.len() < values.len() / 2 {
        return false;
    }
    let bound = largest_from_one(values) / rows.len() as u32;
    !masks::is_preferred(found.figure, bound, c, found.c)
}

// The best change so far, or the first best of component c, whose autocorrelation is given 2^n times: by the figure, and among equal
// figures by fewer outputs. The figure is divided once, after the scan, and its change is looked for only where it is taken.
fn with_correlation(
    found: FoundChange,
    n: u32,
    m: u32,
    rows: &[u32],
    j: u32,
    list: &[u32],
    c: u32,
    values: &[i32],
) -> FoundChange
    requires { Compared n m rows.now j found c values.now × (j < n → Listed j (2 ^ n) list.now) }
    ensures { change_candidate result
        ≡ best (ranked higher outputs) (change_candidate found) (first_largest (changes_of n j (correlated n rows.now) c) ∷ []) }
{
    if is_beaten(found, n, m, rows, j, list, c, values) {
        return found;
    }
    let largest = largest_within(n, values, j, list);
    let figure = largest / rows.len() as u32;
    if masks::is_preferred(found.figure, figure, c, found.c) {
        let s = first_change(n, values, j, list, largest);
        FoundChange { figure, c, s }
    } else {
        found
    }
}

// Every component within the limit i from `first`, which is one of them, to `last` in turn, each from the one before. It starts from the
// figure 0 with the first candidate's witness, and from the component of the number before `first`.
fn sweep(
    fixed: &[i16; 2048],
    n: u32,
    m: u32,
    rows: &[u32],
    i: u32,
    j: u32,
    list: &[u32],
    first: u32,
    last: u32,
    steps: &mut [u8],
    table: &mut [u8],
    work: &mut [i16],
    values: &mut [i32],
) -> FoundChange
    requires { PairsSwept n m rows.now table.old work.old × Spectra fixed.now
        × (length steps.old ≡ m * length rows.now) × (1 ≤ i) × (1 ≤ j) × (j < n → Listed j (2 ^ n) list.now)
        × PartSwept m i first last × (length values.old ≡ 2 ^ n) }
    ensures { (change_candidate result ≡ first_largest (measured_between n m i j first last (correlated n rows.now)))
        × (steps.new ≡ step_tables m rows.now) × AnyContent table.old table.new
        × AnyContent work.old work.new × AnyContent values.old values.new }
{
    masks::write_steps(m, rows, steps);
    masks::write_component(rows, first - 1, table);
    let end = last as u64 + 1;
    let mut found = FoundChange {
        figure: 0,
        c: first,
        s: 1,
    };
    let mut c = first as u64;
    let mut before = c - 1;
    // kept: the next mask within the limit is not the next number, so that no range has the masks in turn
    while c < end {
        next_correlation(fixed, n, m, rows, steps, before, c, table, work, values);
        found = with_correlation(found, n, m, rows, j, list, c as u32, values);
        before = c;
        c = masks::next_mask(i, c);
    }
    found
}

// The largest |r(s)| over components with at most i ones, from `first`, which is one of them, to `last`, and s with 1 to j ones, for an
// accepted box.
fn largest_correlation(
    n: u32,
    m: u32,
    rows: &[u32],
    i: u32,
    j: u32,
    first: u32,
    last: u32,
) -> FoundChange
    requires { Box n m rows.now × (1 ≤ i) × (1 ≤ j) × PartSwept m i first last }
    ensures { change_candidate result ≡ first_largest (measured_between n m i j first last (correlated n rows.now)) }
{
    let fixed = walsh::spectra();
    let mut list = [0u32; 256];
    let mut steps = [0u8; 8192];
    let mut table = [0u8; 256];
    let mut work = [0i16; 256];
    let mut values = [0i32; 256];
    let size = rows.len();
    let count = list_changes(n, j, &mut list[..size]);
    let total = m as usize * size;
    sweep(
        &fixed,
        n,
        m,
        rows,
        i,
        j,
        &list[..count],
        first,
        last,
        &mut steps[..total],
        &mut table[..size],
        &mut work[..size],
        &mut values[..size],
    )
}

// Whether bit j of two rows differs.
fn bit_differs(a: u32, b: u32, j: u32) -> bool
    requires { (1 ≤ j) × (j ≤ 32) }
    ensures { result ≡ not (eqb (bit j a) (bit j b)) }
{
    (a >> (j - 1)) % 2 != (b >> (j - 1)) % 2
}

// Whether column j changes at some input where `flip` is XORed to it.
fn column_changes(n: u32, m: u32, rows: &[u32], flip: usize, j: u32) -> bool
    requires { Box n m rows.now × (flip < 2 ^ n) × (1 ≤ j) × (j ≤ m) }
    ensures { result ≡ not (eqb (changes n (column rows.now j) flip) 0) }
{
    (0..rows.len()).any(|x| bit_differs(rows[x], rows[x ^ flip], j))
}

// Whether every column changes at some input where `flip` is XORed to it.
fn every_column_changes(n: u32, m: u32, rows: &[u32], flip: usize) -> bool
    requires { Box n m rows.now × (flip < 2 ^ n) }
    ensures { result ≡ every (λ j. not (eqb (changes n (column rows.now j) flip) 0)) (list_from 1 m (λ j. j)) }
{
    (1..m + 1).all(|j| column_changes(n, m, rows, flip, j))
}

// Whether every input bit changes every column at some input, for an accepted box.
fn all_complete(n: u32, m: u32, rows: &[u32]) -> bool
    requires { Box n m rows.now }
    ensures { result ≡ spec.complete n m rows.now }
{
    (0..n).all(|k| every_column_changes(n, m, rows, boolean::power_of_two(k)))
}

// The largest |r(s)| over the combinations of at most i outputs and all s from 1.
pub fn autocorrelation(n: u32, m: u32, rows: &[u32], i: u32) -> Result<FoundChange, Refusal>
    ensures { said_largest_change result ≡ autocorrelation_reply n m rows.now i }
{
    refusals::check_limited(n, m, rows, i)?;
    let masks = (boolean::power_of_two(m) - 1) as u32;
    Ok(largest_correlation(n, m, rows, i, n, 1, masks))
}

// The autocorrelation over the combinations of at most i outputs whose masks lie from `first` to `last`: a part of a sweep.
pub fn autocorrelation_between(
    n: u32,
    m: u32,
    rows: &[u32],
    i: u32,
    first: u32,
    last: u32,
) -> Result<Option<FoundChange>, Refusal>
    ensures { said_part_change result ≡ autocorrelation_between_reply n m rows.now i first last }
{
    linear::check_part(n, m, rows, i, first, last)?;
    let start = masks::first_mask(i, first as u64);
    if (last as u64) < start {
        return Ok(None);
    }
    Ok(Some(largest_correlation(n, m, rows, i, n, start as u32, last)))
}

// The dynamic distance of order (i, j) over the combinations whose masks lie from `first` to `last`: a part of a sweep.
pub fn dynamic_distance_between(
    n: u32,
    m: u32,
    rows: &[u32],
    i: u32,
    j: u32,
    first: u32,
    last: u32,
) -> Result<Option<FoundChange>, Refusal>
    ensures { said_part_change result ≡ distance_between_reply n m rows.now i j first last }
{
    check_distance_part(n, m, rows, i, j, first, last)?;
    let start = masks::first_mask(i, first as u64);
    if (last as u64) < start {
        return Ok(None);
    }
    let widest = largest_correlation(n, m, rows, i, j, start as u32, last);
    Ok(Some(FoundChange {
        figure: widest.figure / 2,
        c: widest.c,
        s: widest.s,
    }))
}

// Two parts' answers of one of these calls as one: the larger figure, then the fewer outputs, then the smaller mask; a refusal stays one.
pub fn merge_changes(
    x: Result<Option<FoundChange>, Refusal>,
    y: Result<Option<FoundChange>, Refusal>,
) -> Result<Option<FoundChange>, Refusal>
    ensures { said_part_change result ≡ merged_reply above (said_part_change x) (said_part_change y) }
{
    let Some(first) = x? else {
        return y;
    };
    let Some(second) = y? else {
        return x;
    };
    if masks::is_sooner(first.figure, second.figure, second.c, first.c) {
        y
    } else {
        x
    }
}

// The dynamic distance of order (i, j), as document 01 doubles it: half of the largest |r(s)|.
pub fn dynamic_distance(
    n: u32,
    m: u32,
    rows: &[u32],
    i: u32,
    j: u32,
) -> Result<FoundChange, Refusal>
    ensures { said_largest_change result ≡ distance_reply n m rows.now i j }
{
    check_distance(n, m, rows, i, j)?;
    let masks = (boolean::power_of_two(m) - 1) as u32;
    let found = largest_correlation(n, m, rows, i, j, 1, masks);
    Ok(FoundChange {
        figure: found.figure / 2,
        c: found.c,
        s: found.s,
    })
}

// Whether every input bit changes every column at some input.
pub fn is_complete(n: u32, m: u32, rows: &[u32]) -> Result<bool, Refusal>
    ensures { said_verdict result ≡ complete_reply n m rows.now }
{
    refusals::check_box(n, m, rows)?; // a refused box has no verdict
    Ok(all_complete(n, m, rows))
}

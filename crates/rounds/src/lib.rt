// Boxes added together: the outputs of one to four boxes, each fed by its own input bits, XORed. It stands above the analyser and uses
// of its figures only the spectrum of a component and the largest magnitude there.
#![tactic(auto)]

ghost use Rattle.std.specs.Prelude.{◌≡◌, eqb, ◌-◌, ◌/◌, ◌^◌, ◌≤◌, ◌<◌, length, sum_by};
ghost use Rattle.std.specs.List.{list_all};
ghost use Rattle.boolean.specs.Sums.{each, AnyContent};
ghost use Rattle.boolean.specs.Functions.{component, spectrum};
ghost use Rattle.refusals.specs.Table.{first, Box};
ghost use Rattle.walsh.specs.FixedTable.{Spectra};
ghost use Rattle.masks.specs.Parts.{components_between};
ghost use Rattle.masks.specs.Masks.{PowerAdded};
ghost use Rattle.masks.specs.Work.{preferred};
ghost use Rattle.linear.specs.Lent.{PartSwept};
ghost use Rattle.rounds.specs.Round.{summand_of, outputs_of, summand_checks, sum_checks, sum_reply, sum_part_checks, sum_between_reply};
ghost use Rattle.rounds.specs.Spectra.{peak, product, largest_product};
ghost use Rattle.rounds.specs.Calls.{summands_of, SumAnswer};
ghost use Rattle.rounds.specs.Parts.{PartSumAnswer, SumsMerged};
ghost use Rattle.rounds.specs.Work.{as_summand, summed, IsBox, Round, Stepped, AllStepped};
ghost use Rattle.rounds.specs.Work.{found_candidate, Highest, TopOf, WitnessOf, NearestOf};

use refusals::Refusal;

// The inputs and outputs of the four boxes that are handed over.
#[derive(Clone, Copy)]
pub struct Widths {
    pub n1: u32,
    pub m1: u32,
    pub n2: u32,
    pub m2: u32,
    pub n3: u32,
    pub m3: u32,
    pub n4: u32,
    pub m4: u32,
}

// One box of the sum: its numbers of inputs and outputs, and its rows.
#[derive(Clone, Copy)]
struct Summand<'a> {
    n: u32,
    m: u32,
    rows: &'a [u32],
}

// The arrays of one box: its step tables, and the truth table of a component, each in as much of its array as the box needs.
#[derive(Clone, Copy)]
struct Work {
    steps: [u8; 8192],
    bits: [u8; 256],
}

// The first mask of the largest magnitude of a spectrum, and the sign bit of the value there.
#[derive(Clone, Copy)]
struct Top {
    mask: u32,
    sign: u32,
}

// A mask for each box, 0 for a box past the number given, and b.
#[derive(Clone, Copy)]
struct Witness {
    masks: [u32; 4],
    b: u32,
}

// The best component so far, with the product of the boxes' largest magnitudes.
#[derive(Clone, Copy)]
struct Found {
    size: u64,
    c: u32,
}

// The first nearest pair that was found: the figure, c, the boxes' masks (0 past the last box) and b.
#[derive(Clone, Copy)]
struct FoundNearest {
    figure: u32,
    c: u32,
    masks: [u32; 4],
    b: u32,
}

// The first nearest pair of a sum, as the calls answer it: the figure, c, a mask for each box (0 past the number given) and b.
// kept: four fields and no array, since `one_answer` and `one_part_answer` say that all answers with the same reply are one, which is not
// so where a list in an answer may have any length.
#[derive(Clone, Copy)]
pub struct NearestSum {
    pub figure: u32,
    pub c: u32,
    pub w1: u32,
    pub w2: u32,
    pub w3: u32,
    pub w4: u32,
    pub b: u32,
}

// Writes the step tables of a box, and the truth table of its component c.
fn start_box(s: &Summand, c: u32, work: &mut Work)
    requires { IsBox (as_summand s.now) }
    ensures { Stepped s.now c work.new.steps work.new.bits }
{
    let size = s.rows.len();
    let total = s.m as usize * size;
    masks::write_steps(s.m, s.rows, &mut work.steps[..total]);
    masks::write_component(s.rows, c, &mut work.bits[..size]);
}

// The same for each box.
fn start_boxes(boxes: &[Summand], c: u32, work: &mut [Work; 4])
    requires { Round (summed boxes.now) }
    ensures { AllStepped boxes.now c work.new }
{
    for (k, s) in boxes.iter().enumerate() {
        start_box(s, c, &mut work[k]);
    }
}

// The largest magnitude of a Walsh value of component c of a box, twice that in its spectrum, from the truth table of component `last`, the
// mask before it, which becomes that of c. The fixed table and an array to work in are lent.
fn size_in(
    fixed: &[i16; 2048],
    s: &Summand,
    steps: &[u8; 8192],
    bits: &mut [u8; 256],
    last: u64,
    c: u64,
    out: &mut [i16; 256],
) -> u32
    requires { IsBox (as_summand s.now) × (c < 2 ^ s.now.m) × Stepped s.now last steps.now bits.old × PowerAdded last c
        × Spectra fixed.now }
    ensures { (result ≡ (peak (as_summand s.now) c).figure) × (result ≤ 256) × Stepped s.now c steps.now bits.new
        × AnyContent out.old out.new }
{
    let size = s.rows.len();
    let total = s.m as usize * size;
    let steps = &steps[..total];
    let bits = &mut bits[..size];
    let out = &mut out[..size];
    let largest = linear::next_peak(fixed, s.n, s.m, s.rows, steps, last, c, bits, out);
    2 * largest
}

// The product of the boxes' largest magnitudes at component c, from the truth tables of component `last`, the mask before it.
fn product_at(
    fixed: &[i16; 2048],
    boxes: &[Summand],
    work: &mut [Work; 4],
    last: u64,
    c: u64,
    out: &mut [i16; 256],
) -> u64
    requires { Round (summed boxes.now) × AllStepped boxes.now last work.old × PowerAdded last c
        × (c < 2 ^ outputs_of (summed boxes.now)) × Spectra fixed.now }
    ensures { (result ≡ product (summed boxes.now) c) × AllStepped boxes.now c work.new }
{
    let mut size = 1u64;
    for (k, s) in boxes.iter().enumerate() {
        let w = &mut work[k];
        size *= size_in(fixed, s, &w.steps, &mut w.bits, last, c, out) as u64;
    }
    size
}

// Whether component c, with its product, comes before the best so far: by a larger product, or by the same product and fewer outputs.
fn is_preferred(found: Found, size: u64, c: u32) -> bool
    ensures { result ≡ preferred found.size size c found.c }
{
    if found.size < size {
        true
    } else if found.size == size {
        u32::count_ones(c) < u32::count_ones(found.c)
    } else {
        false
    }
}

// Every component within the limit from `first`, which is one of them, to `last` in turn, each from the one before; the first of the
// largest product is kept, fewest outputs first. It starts from the truth tables of the number before `first`.
fn sweep(
    fixed: &[i16; 2048],
    boxes: &[Summand],
    i: u32,
    first: u32,
    last: u32,
    work: &mut [Work; 4],
    out: &mut [i16; 256],
) -> Found
    requires { Round (summed boxes.now) × (1 ≤ i) × PartSwept (outputs_of (summed boxes.now)) i first last
        × Spectra fixed.now × AllStepped boxes.now (first - 1) work.old }
    ensures { found_candidate result
        ≡ largest_product (summed boxes.now) (components_between (outputs_of (summed boxes.now)) i first last) }
{
    let end = last as u64 + 1;
    let mut found = Found { size: 0, c: 0 };
    let mut c = first as u64;
    let mut before = c - 1;
    // kept: the next mask within the limit is not the next number, so that no range has the masks in turn
    while c < end {
        let mask = c as u32;
        let size = product_at(fixed, boxes, work, before, c, out);
        if is_preferred(found, size, mask) {
            found = Found { size, c: mask };
        }
        before = c;
        c = masks::next_mask(i, c);
    }
    found
}

// The sweep with its arrays, started at the number before `first`, and with the fixed table, written once for all components.
fn largest_product(boxes: &[Summand], i: u32, first: u32, last: u32) -> Found
    requires { Round (summed boxes.now) × (1 ≤ i) × PartSwept (outputs_of (summed boxes.now)) i first last }
    ensures { found_candidate result
        ≡ largest_product (summed boxes.now) (components_between (outputs_of (summed boxes.now)) i first last) }
{
    // The arrays come first: the compiled code sets all locals to 0 when it begins, and sets these no second time if nothing comes between.
    let mut work = [Work {
        steps: [0; 8192],
        bits: [0; 256],
    }; 4];
    let mut out = [0i16; 256];
    let fixed = walsh::spectra();
    start_boxes(boxes, first - 1, &mut work);
    sweep(&fixed, boxes, i, first, last, &mut work, &mut out)
}

// The first place of the largest magnitude of some values, and the sign there.
fn highest(values: &[i32]) -> Top
    requires { (0 < length values.now) × (length values.now ≤ 256) }
    ensures { Highest values.now result }
{
    let most = walsh::largest_magnitude(values);
    let place = walsh::first_place(values, most);
    let sign = boolean::sign_bit(values[place]);
    Top {
        mask: place as u32,
        sign: sign as u32,
    }
}

// The first mask of the largest magnitude in the spectrum of component c of a box, and the sign there.
fn top_of(s: &Summand, c: u32) -> Top
    requires { IsBox (as_summand s.now) × (1 ≤ c) × (c < 2 ^ s.now.m) }
    ensures { TopOf (as_summand s.now) c result }
{
    let mut array = [0i32; 256];
    let values = &mut array[..s.rows.len()];
    let _ = linear::spectrum_of_component(s.n, s.m, s.rows, c, values);
    highest(values)
}

// The witness of component c: each box's own first mask, and the sign of the product of the values there.
fn witness_at(boxes: &[Summand], c: u32) -> Witness
    requires { Round (summed boxes.now) × (1 ≤ c) × (c < 2 ^ outputs_of (summed boxes.now)) }
    ensures { WitnessOf (summed boxes.now) c result }
{
    let mut masks = [0; 4];
    let mut b = 0;
    for (k, s) in boxes.iter().enumerate() {
        let top = top_of(s, c);
        masks[k] = top.mask;
        b ^= top.sign;
    }
    Witness { masks, b }
}

// Each box's own checks, in box order.
fn check_boxes(boxes: &[Summand]) -> Result<(), Refusal>
    ensures { result ≡ first (each (summed boxes.now) summand_checks) }
{
    for s in boxes {
        refusals::check_box(s.n, s.m, s.rows)?;
    }
    Ok(())
}

// Whether all boxes have m outputs.
fn same_outputs(boxes: &[Summand], m: u32) -> bool
    ensures { result ≡ list_all (λ s. eqb s.m m) boxes.now }
{
    boxes.iter().all(|s| s.m == m)
}

// The four boxes that are handed over.
fn handed<'a>(
    widths: Widths,
    rows1: &'a [u32],
    rows2: &'a [u32],
    rows3: &'a [u32],
    rows4: &'a [u32],
) -> [Summand<'a>; 4]
    ensures { summed result ≡ summands_of widths rows1.now rows2.now rows3.now rows4.now }
{
    [
        Summand {
            n: widths.n1,
            m: widths.m1,
            rows: rows1,
        },
        Summand {
            n: widths.n2,
            m: widths.m2,
            rows: rows2,
        },
        Summand {
            n: widths.n3,
            m: widths.m3,
            rows: rows3,
        },
        Summand {
            n: widths.n4,
            m: widths.m4,
            rows: rows4,
        },
    ]
}

// The checks of the call: the number of boxes, each box's own, the output widths, the limit.
pub fn check_sum(
    count: u32,
    widths: Widths,
    rows1: &[u32],
    rows2: &[u32],
    rows3: &[u32],
    rows4: &[u32],
    i: u32,
) -> Result<(), Refusal>
    ensures { result
        ≡ first (sum_checks count (summands_of widths rows1.now rows2.now rows3.now rows4.now) i) }
{
    if !refusals::in_range(1, 4, count) {
        return Err(Refusal::BoxCount);
    }
    let all = handed(widths, rows1, rows2, rows3, rows4);
    let boxes = &all[..count as usize];
    check_boxes(boxes)?;
    if !same_outputs(boxes, widths.m1) {
        return Err(Refusal::OutputWidths);
    }
    if !refusals::in_range(1, widths.m1, i) {
        return Err(Refusal::Parameter);
    }
    Ok(())
}

// The number of all boxes' inputs.
fn all_inputs(boxes: &[Summand]) -> u32
    requires { sum_by (λ s. s.n) boxes.now < 2 ^ 32 }
    ensures { result ≡ sum_by (λ s. s.n) boxes.now }
{
    boxes.iter().map(|s| s.n).sum()
}

// 2^(N − 1) less half the product.
fn figure_of(inputs: u32, size: u64) -> u32
    requires { (1 ≤ inputs) × (inputs ≤ 32) × (size ≤ 2 ^ inputs) }
    ensures { result ≡ 2 ^ (inputs - 1) - size / 2 }
{
    let half = 1u64 << (inputs - 1);
    (half - size / 2) as u32
}

// The first nearest pair of the sum over the components within the limit from `first`, which is one of them, to `last`.
fn least_between(boxes: &[Summand], i: u32, first: u32, last: u32) -> FoundNearest
    requires { Round (summed boxes.now) × (1 ≤ i) × PartSwept (outputs_of (summed boxes.now)) i first last }
    ensures { NearestOf (summed boxes.now) (components_between (outputs_of (summed boxes.now)) i first last) result }
{
    let found = largest_product(boxes, i, first, last);
    let Witness { masks, b } = witness_at(boxes, found.c);
    FoundNearest {
        figure: figure_of(all_inputs(boxes), found.size),
        c: found.c,
        masks,
        b,
    }
}

// The nonlinearity of the sum of one to four boxes, as a box whose inputs are all their inputs, over its combinations of at most i
// outputs, with the first pair that reaches it. Boxes past the number given are not read.
pub fn sum_nonlinearity(
    count: u32,
    widths: Widths,
    rows1: &[u32],
    rows2: &[u32],
    rows3: &[u32],
    rows4: &[u32],
    i: u32,
) -> Result<NearestSum, Refusal>
    ensures { SumAnswer count result
        (sum_reply count (summands_of widths rows1.now rows2.now rows3.now rows4.now) i) }
{
    check_sum(count, widths, rows1, rows2, rows3, rows4, i)?;
    let all = handed(widths, rows1, rows2, rows3, rows4);
    let masks = (boolean::power_of_two(widths.m1) - 1) as u32;
    let nearest = least_between(&all[..count as usize], i, 1, masks);
    let [w1, w2, w3, w4] = nearest.masks;
    Ok(NearestSum {
        figure: nearest.figure,
        c: nearest.c,
        w1,
        w2,
        w3,
        w4,
        b: nearest.b,
    })
}

// The checks of a part: the plain call's, then that it lies from 1 to 2^m − 1.
pub fn check_sum_part(
    count: u32,
    widths: Widths,
    rows1: &[u32],
    rows2: &[u32],
    rows3: &[u32],
    rows4: &[u32],
    i: u32,
    low: u32,
    high: u32,
) -> Result<(), Refusal>
    ensures { result
        ≡ first (sum_part_checks count
        (summands_of widths rows1.now rows2.now rows3.now rows4.now) i low high) }
{
    check_sum(count, widths, rows1, rows2, rows3, rows4, i)?;
    let masks = (boolean::power_of_two(widths.m1) - 1) as u32;
    if !refusals::in_range(1, masks, low) {
        return Err(Refusal::Parameter);
    }
    if !refusals::in_range(low, masks, high) {
        return Err(Refusal::Parameter);
    }
    Ok(())
}

// The same over the combinations of at most i outputs whose masks lie from `first` to `last`: a part of a sweep.
pub fn sum_nonlinearity_between(
    count: u32,
    widths: Widths,
    rows1: &[u32],
    rows2: &[u32],
    rows3: &[u32],
    rows4: &[u32],
    i: u32,
    first: u32,
    last: u32,
) -> Result<Option<NearestSum>, Refusal>
    ensures { PartSumAnswer count result
        (sum_between_reply count (summands_of widths rows1.now rows2.now rows3.now rows4.now)
        i first last) }
{
    check_sum_part(count, widths, rows1, rows2, rows3, rows4, i, first, last)?;
    let start = masks::first_mask(i, first as u64);
    if (last as u64) < start {
        return Ok(None);
    }
    let all = handed(widths, rows1, rows2, rows3, rows4);
    let nearest = least_between(&all[..count as usize], i, start as u32, last);
    let [w1, w2, w3, w4] = nearest.masks;
    Ok(Some(NearestSum {
        figure: nearest.figure,
        c: nearest.c,
        w1,
        w2,
        w3,
        w4,
        b: nearest.b,
    }))
}

// Two parts' answers as one: the fewer inputs, then the fewer outputs, then the smaller mask; a refusal stays one.
pub fn merge_sums(
    x: Result<Option<NearestSum>, Refusal>,
    y: Result<Option<NearestSum>, Refusal>,
) -> Result<Option<NearestSum>, Refusal>
    ensures { SumsMerged x y result }
{
    let Some(first) = x? else {
        return y;
    };
    let Some(second) = y? else {
        return x;
    };
    if masks::is_sooner(second.figure, first.figure, second.c, first.c) {
        y
    } else {
        x
    }
}

// The algebraic normal form of a function, the degree of a box, and bijectivity.
#![tactic(auto)]

mod order;

ghost use Rattle.std.specs.Prelude.{◌≡◌, [], ◌∷◌, ℕ, ◌+◌, ◌^◌, ◌≤◌, ◌<◌, eqb, length, take};
ghost use Rattle.std.specs.Int.Count.{ones};
ghost use Rattle.boolean.specs.Bits.{dot};
ghost use Rattle.boolean.specs.Sums.{AnyContent};
ghost use Rattle.boolean.specs.Functions.{at, normal_form};
ghost use Rattle.boolean.specs.Selection.{best, lower, first_least, ranked};
ghost use Rattle.refusals.specs.Table.{said_verdict, Box, Table};
ghost use Rattle.masks.specs.Masks.{outputs, Next};
ghost use Rattle.algebraic.specs.Algebraic.{box_degree};
ghost use Rattle.algebraic.specs.Calls.{FormCalled, said_degree_found, box_degree_reply, bijective_reply};
ghost use Rattle.algebraic.specs.Work.{degree_at, degree_candidate, degree_of_words, degrees_of, HalvesAdded, Echelon};
ghost use Rattle.algebraic.specs.Work.{WordInserted, BasisGathered, DegreesSwept, threshold_of, FirstBelow};

use refusals::Refusal;

// The weakest component so far: its degree, its mask, and the threshold that another degree must be below to matter.
#[derive(Clone, Copy)]
pub struct Weakest {
    pub degree: u32,
    pub c: u32,
    pub threshold: u32,
}

// A mask that a sweep meets, with its component's degree.
#[derive(Clone, Copy)]
pub struct Met {
    pub c: u64,
    pub degree: u32,
}

// The degree of a box, and the first combination that has it.
#[derive(Clone, Copy)]
pub struct FoundDegree {
    pub degree: u32,
    pub c: u32,
}

// The truth table, copied to the words that the transform works on.
fn write_words(table: &[u8], words: &mut [u32])
    requires { length words.old ≡ length table.now }
    ensures { words.new ≡ table.now }
{
    for (x, value) in table.iter().enumerate() {
        words[x] = u32::from(*value);
    }
}

// Words that are truth values, copied to a truth table.
fn write_bits(words: &[u32], out: &mut [u8])
    requires { (length out.old ≡ length words.now) × ((x : ℕ) → at words.now x < 2) }
    ensures { out.new ≡ words.now }
{
    for (x, word) in words.iter().enumerate() {
        out[x] = *word as u8;
    }
}

// The lower half is XORed to the upper half, and stays.
fn add_lower_half(values: &mut [u32], h: usize)
    requires { length values.old ≡ h + h }
    ensures { HalvesAdded h values.old values.new }
{
    // kept: over the two halves of split_at_mut the degree of an 8 by 8 box takes 1.11 times as long
    for k in 0..h {
        values[h + k] ^= values[k];
    }
}

// The normal form in place, of a truth table or of all columns of a box at once: XOR does not mix the bits of a word. A number with the top
// bit has within it what lies within the rest, with the top bit and without: so each half is brought to its normal form, and the lower is
// then XORed to the upper. The width falls by one at each cut.
fn moebius(n: u32, values: &mut [u32])
    requires { length values.old ≡ 2 ^ n }
    ensures { values.new ≡ normal_form n (at values.old) }
{
    if n != 0 {
        let h = values.len() / 2;
        moebius(n - 1, &mut values[..h]);
        moebius(n - 1, &mut values[h..]);
        add_lower_half(values, h);
    }
}

// The normal form of a truth table, with an array of words to work in.
fn write_form(n: u32, table: &[u8], words: &mut [u32], out: &mut [u8])
    requires { Table n table.now × (length words.old ≡ 2 ^ n) × (length out.old ≡ 2 ^ n) }
    ensures { (out.new ≡ normal_form n (at table.now))
        × (words.new ≡ normal_form n (at table.now)) }
{
    write_words(table, words);
    moebius(n, words);
    write_bits(words, out);
}

// The normal form of a truth table. The same call goes back, coefficients being read as truth values.
pub fn normal_form(n: u32, table: &[u8], out: &mut [u8]) -> Result<(), Refusal>
    ensures { FormCalled n table.now out.old result out.new }
{
    refusals::check_table_call(n, table, out.len())?;
    let mut words = [0u32; 256];
    let size = table.len();
    write_form(n, table, &mut words[..size], out);
    Ok(())
}

// Whether the component at the mask c has the coefficient 1 where the normal form has this word.
fn is_odd(word: u32, c: u32) -> bool
    ensures { result ≡ eqb (dot word c) 1 }
{
    boolean::dot(word, c) == 1
}

// Whether the word is no XOR of words of the basis; then what they leave of it is put into the basis, at the place of its highest one.
// Where a word of the basis has its highest one, that word is XORed to it, until a place is free or nothing is left. (The contract leaves
// open what the rest has below its highest one.)
fn insert_word(m: u32, word: u32, basis: &mut [u32; 32]) -> bool
    requires { (m ≤ 32) × (word < 2 ^ m) × Echelon basis.old }
    ensures { WordInserted m word basis.old basis.new result }
{
    let mut rest = word;
    // kept: no plainer in another form, since each word is made from the one before
    while rest != 0 {
        let place = rest.ilog2() as usize;
        let here = basis[place];
        if here == 0 {
            basis[place] = rest;
            return true;
        }
        rest ^= here;
    }
    false
}

// Whether the normal form has a word at u that is no XOR of words of the basis; it is then put in. Past the inputs there is none.
fn adds_word(m: u32, words: &[u32], u: u8, basis: &mut [u32; 32]) -> bool
    requires { (m ≤ 32) × ((x : ℕ) → at words.now x < 2 ^ m) × Echelon basis.old }
    ensures { WordInserted m (at words.now u) basis.old basis.new result }
{
    let place = usize::from(u);
    if place < words.len() {
        insert_word(m, words[place], basis)
    } else {
        false
    }
}

// The inputs that settle every degree, those with the most ones first, and their number. A word that is an XOR of words before it is left
// out: a component that is odd there is odd at one of those. Once the basis has a word for each of the m bits every component is odd at one
// of them.
fn gather(m: u32, words: &[u32], inputs: &mut [u8]) -> usize
    requires { (m ≤ 32) × ((x : ℕ) → at words.now x < 2 ^ m) × (length words.now ≤ 256)
        × (length inputs.old ≡ 256) }
    ensures { (result ≤ length inputs.new) × BasisGathered words.now (take result inputs.new) × AnyContent inputs.old inputs.new }
{
    let table = order::by_ones();
    let width = m as usize;
    let mut basis = [0u32; 32];
    let mut count: usize = 0;
    for u in &table {
        if adds_word(m, words, *u, &mut basis) {
            inputs[count] = *u;
            count += 1;
            if boolean::lacks_row(&basis[..width], 0) {
                return count;
            }
        }
    }
    count
}

// The degree of the component at the mask c: the first input that is found odd has the most ones.
fn component_degree(words: &[u32], inputs: &[u8], c: u32) -> u32
    requires { BasisGathered words.now inputs.now }
    ensures { result ≡ degree_of_words words.now c }
{
    for u in inputs {
        if is_odd(words[usize::from(*u)], c) {
            return u.count_ones();
        }
    }
    0
}

// The mask that comes next within the limit. Where the limit leaves no combination out it is c + 1, without a count of the ones of c, which
// takes longer than most degrees do.
fn next_within(m: u32, i: u32, c: u64) -> u64
    requires { (1 ≤ i) × (m ≤ 32) × (c < 2 ^ m) × (ones c ≤ i) }
    ensures { Next i c result }
{
    if m <= i {
        c + 1
    } else {
        masks::next_mask(i, c)
    }
}

// The first mask from c on, within the limit, whose degree is below the threshold, or 2^m with the degree 0. Nearly all masks are passed
// over here, so that this loop has no other test than the threshold. The walk ends at 2^m itself, so that != tells its end; < a power of
// two would be compiled to a shift in each turn.
fn next_below(n: u32, m: u32, words: &[u32], i: u32, inputs: &[u8], threshold: u32, c: u64) -> Met
    requires { DegreesSwept n m words.now i × BasisGathered words.now inputs.now × (1 ≤ c) × (c ≤ 2 ^ m)
        × (ones c ≤ i) }
    ensures { FirstBelow m words.now i threshold c result }
{
    let masks = boolean::power_of_two(m) as u64;
    let mut at: u64 = c;
    // kept: the next mask within the limit is not the next number, so that no range has the masks in turn
    while at != masks {
        let degree = component_degree(words, inputs, at as u32);
        if degree < threshold {
            return Met { c: at, degree };
        }
        at = next_within(m, i, at);
    }
    Met { c: at, degree: 0 }
}

// The threshold for the components after one of this degree at the mask c: a mask of one output gives way only to a lower degree, a mask of
// several to the same degree too.
fn threshold_of(degree: u32, c: u32) -> u32
    requires { degree ≤ 8 }
    ensures { result ≡ threshold_of degree c }
{
    if u32::count_ones(c) <= 1 {
        degree
    } else {
        degree + 1
    }
}

// The weakest component so far, or the one at the mask c: by the degree, and among equal degrees by fewer outputs.
fn weaker(found: Weakest, degree: u32, c: u32) -> Weakest
    requires { (degree ≤ 8) × (found.threshold ≡ threshold_of found.degree found.c) }
    ensures { (degree_candidate result ≡ best (ranked lower outputs) (degree_candidate found) (degree_at degree c ∷ []))
        × (result.threshold ≡ threshold_of result.degree result.c) }
{
    if masks::is_preferred(degree, found.degree, c, found.c) {
        let threshold = threshold_of(degree, c);
        Weakest {
            degree,
            c,
            threshold,
        }
    } else {
        found
    }
}

// Every component within the limit in turn. It starts from a degree that no component has.
fn sweep(n: u32, m: u32, words: &[u32], i: u32, inputs: &[u8]) -> Weakest
    requires { DegreesSwept n m words.now i × BasisGathered words.now inputs.now }
    ensures { (degree_candidate result ≡ first_least (degrees_of m words.now i)) ×
        (result.threshold ≡ threshold_of result.degree result.c) }
{
    let masks = boolean::power_of_two(m) as u64;
    let mut found = Weakest {
        degree: n + 1,
        c: 0,
        threshold: n + 1,
    };
    let mut met = next_below(n, m, words, i, inputs, found.threshold, 1);
    // kept: the mask that is met next is not the next number, so that no range has these masks in turn
    while met.c != masks {
        found = weaker(found, met.degree, met.c as u32);
        let next = next_within(m, i, met.c);
        met = next_below(n, m, words, i, inputs, found.threshold, next);
    }
    found
}

// The weakest component of a box within the limit, with two arrays to work in.
fn weakest_of(n: u32, m: u32, rows: &[u32], i: u32, words: &mut [u32], inputs: &mut [u8]) -> Weakest
    requires { Box n m rows.now × (1 ≤ i) × (length words.old ≡ 2 ^ n) × (length inputs.old ≡ 256) }
    ensures { (degree_candidate result ≡ box_degree n m rows.now i) × (result.threshold ≡ threshold_of result.degree result.c)
        × (words.new ≡ normal_form n (at rows.now)) × AnyContent inputs.old inputs.new }
{
    words.copy_from_slice(rows);
    moebius(n, words);
    let count = gather(m, words, inputs);
    sweep(n, m, words, i, &inputs[..count])
}

// The degree of a box over its combinations of at most i outputs: the least degree of one, with the first that has it.
pub fn degree(n: u32, m: u32, rows: &[u32], i: u32) -> Result<FoundDegree, Refusal>
    ensures { said_degree_found result ≡ box_degree_reply n m rows.now i }
{
    refusals::check_limited(n, m, rows, i)?;
    let mut words = [0u32; 256];
    let mut inputs = [0u8; 256];
    let size = rows.len();
    let found = weakest_of(n, m, rows, i, &mut words[..size], &mut inputs);
    Ok(FoundDegree {
        degree: found.degree,
        c: found.c,
    })
}

// Whether n = m and no two rows are equal.
pub fn is_bijective(n: u32, m: u32, rows: &[u32]) -> Result<bool, Refusal>
    ensures { said_verdict result ≡ bijective_reply n m rows.now }
{
    refusals::check_box(n, m, rows)?;
    if n != m {
        return Ok(false);
    }
    Ok(boolean::rows_distinct(rows))
}

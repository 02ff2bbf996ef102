// The calls on a part of the combinations for C and for everything that speaks C, and the merging of two parts. A slice is a pointer and
// its number of elements. Every function returns 0 or the number of a refusal.
#![tactic(auto)]

mod giving;

ghost use Rattle.std.specs.Prelude.{◌≡◌, ltb, length, ◌≤◌, [], ◌∷◌};
ghost use Rattle.refusals.specs.Table.{first as firstMet};
ghost use Rattle.masks.specs.Parts.{above};
ghost use Rattle.linear.specs.Nonlinearity.{nonlinearity_between_reply};
ghost use Rattle.avalanche.specs.Parts.{autocorrelation_between_reply, distance_between_reply};
ghost use Rattle.rounds.specs.Round.{summand_of, sum_between_reply};
ghost use Rattle.border.specs.Border.{FiguresOut, WroteOut};
ghost use Rattle.satmegwo_parts.specs.Exports.{flagged, sum_size, second_taken, merged_part, merge_checks};

use refusals::Refusal;
use rounds::Widths;

// The nonlinearity over the combinations of at most i outputs from `first` to `last`.
pub fn satmegwo_nonlinearity_between(
    n: u32,
    m: u32,
    rows: &[u32],
    i: u32,
    first: u32,
    last: u32,
    part: &mut [u32],
) -> u32
    ensures { FiguresOut (flagged 5 (nonlinearity_between_reply n m rows.now i first last)) part.old result
        part.new }
{
    giving::give_pair(
        linear::nonlinearity_between(n, m, rows, i, first, last),
        part,
    )
}

// The autocorrelation over the combinations of at most i outputs from `first` to `last`.
// kept: beside `satmegwo_nonlinearity_between`, since C calls each by its name (the C interface), and each is one call.
pub fn satmegwo_autocorrelation_between(
    n: u32,
    m: u32,
    rows: &[u32],
    i: u32,
    first: u32,
    last: u32,
    part: &mut [u32],
) -> u32
    ensures { FiguresOut (flagged 4 (autocorrelation_between_reply n m rows.now i first last)) part.old result
        part.new }
{
    giving::give_change(
        avalanche::autocorrelation_between(n, m, rows, i, first, last),
        part,
    )
}

// The dynamic distance of order (i, j) over the combinations from `first` to `last`.
pub fn satmegwo_dynamic_distance_between(
    n: u32,
    m: u32,
    rows: &[u32],
    i: u32,
    j: u32,
    first: u32,
    last: u32,
    part: &mut [u32],
) -> u32
    ensures { FiguresOut (flagged 4 (distance_between_reply n m rows.now i j first last)) part.old result
        part.new }
{
    giving::give_change(
        avalanche::dynamic_distance_between(n, m, rows, i, j, first, last),
        part,
    )
}

// The nonlinearity of the sum of one to four boxes over its combinations of at most i outputs from `first` to `last`.
pub fn satmegwo_sum_nonlinearity_between(
    count: u32,
    n1: u32,
    m1: u32,
    rows1: &[u32],
    n2: u32,
    m2: u32,
    rows2: &[u32],
    n3: u32,
    m3: u32,
    rows3: &[u32],
    n4: u32,
    m4: u32,
    rows4: &[u32],
    i: u32,
    first: u32,
    last: u32,
    part: &mut [u32],
) -> u32
    ensures { FiguresOut (flagged (sum_size count) (sum_between_reply count (summand_of n1 m1 rows1.now
        ∷ summand_of n2 m2 rows2.now ∷ summand_of n3 m3 rows3.now ∷ summand_of n4 m4 rows4.now ∷ [])
        i first last)) part.old result part.new }
{
    let widths = Widths {
        n1,
        m1,
        n2,
        m2,
        n3,
        m3,
        n4,
        m4,
    };
    let answer = rounds::sum_nonlinearity_between(
        count, widths, rows1, rows2, rows3, rows4, i, first, last,
    );
    giving::give_sum(count, answer, part)
}

// The checks of a merging.
#[tactic(auto, unfolding(refusals::specs::Table::first, crate::specs::Exports::merge_checks))]
fn check_merging(x: &[u32], y: &[u32], room: usize) -> Result<(), Refusal>
    ensures { result ≡ firstMet (merge_checks x.now y.now room) }
{
    if x.len() < 3 { // a flag, a figure and a combination
        return Err(Refusal::ReadLength);
    }
    if y.len() != x.len() {
        return Err(Refusal::ReadLength);
    }
    if 1 < x[0] {
        return Err(Refusal::Value);
    }
    if 1 < y[0] {
        return Err(Refusal::Value);
    }
    if room != x.len() {
        return Err(Refusal::WrittenLength);
    }
    Ok(())
}

// Whether the second of two parts is taken, the smaller figure being the better one.
#[tactic(auto, unfolding(crate::specs::Exports::second_taken))]
fn is_second_less(x: &[u32], y: &[u32]) -> bool
    requires { (3 ≤ length x.now) × (3 ≤ length y.now) }
    ensures { result ≡ second_taken ltb x.now y.now }
{
    if y[0] == 0 {
        return false;
    }
    if x[0] == 0 {
        return true;
    }
    masks::is_sooner(y[1], x[1], y[2], x[2])
}

// And the larger figure being the better one.
// kept: beside `is_second_less`. Two arguments are exchanged: a closure for that line would have a contract longer than the function.
#[tactic(auto, unfolding(crate::specs::Exports::second_taken))]
fn is_second_larger(x: &[u32], y: &[u32]) -> bool
    requires { (3 ≤ length x.now) × (3 ≤ length y.now) }
    ensures { result ≡ second_taken above x.now y.now }
{
    if y[0] == 0 {
        return false;
    }
    if x[0] == 0 {
        return true;
    }
    masks::is_sooner(x[1], y[1], y[2], x[2])
}

// Writes a part as the merged one.
// kept: number by number, since `copy_from_slice` between two arrays of the caller would ask C for `memmove`
fn write_part(part: &[u32], merged: &mut [u32])
    requires { length merged.old ≡ length part.now }
    ensures { merged.new ≡ part.now }
{
    for (k, number) in part.iter().enumerate() {
        merged[k] = *number;
    }
}

// Merges two parts of which the smaller figure is the better one.
pub fn satmegwo_merge_least(x: &[u32], y: &[u32], merged: &mut [u32]) -> u32
    ensures { WroteOut (merge_checks x.now y.now (length merged.old))
        (merged_part ltb x.now y.now) merged.old result merged.new }
{
    if let Err(e) = check_merging(x, y, merged.len()) {
        return refusals::number_of(e);
    }
    if is_second_less(x, y) {
        write_part(y, merged);
        return 0;
    }
    write_part(x, merged);
    0
}

// Merges two parts of which the larger figure is the better one.
// kept: beside `satmegwo_merge_least`, since C calls each by its name (the C interface), and the test is all that differs.
pub fn satmegwo_merge_largest(x: &[u32], y: &[u32], merged: &mut [u32]) -> u32
    ensures { WroteOut (merge_checks x.now y.now (length merged.old))
        (merged_part above x.now y.now) merged.old result merged.new }
{
    if let Err(e) = check_merging(x, y, merged.len()) {
        return refusals::number_of(e);
    }
    if is_second_larger(x, y) {
        write_part(y, merged);
        return 0;
    }
    write_part(x, merged);
    0
}

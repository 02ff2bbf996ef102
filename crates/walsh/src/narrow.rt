// The spectrum in 16-bit values, which hold every one of them, and its largest magnitude: the sweeps take it of each component, and the
// machine adds eight such values at once.
ghost use Rattle.std.specs.Prelude.{◌≡◌, suc, ◌+◌, ◌^◌, ◌≤◌, length, nat_abs};
ghost use Rattle.boolean.specs.Sums.{AnyContent};
ghost use Rattle.boolean.specs.Functions.{at};
ghost use Rattle.boolean.specs.Functions as functions;
ghost use Rattle.walsh.specs.FixedTable.{Spectra};
ghost use Rattle.walsh.specs.Magnitudes.{largest_magnitude};
ghost use Rattle.walsh.specs.Work.{with_four, Ready, Halves, largest_sum};

use crate::blocks::{Block, Eight, Spectral, Twice};
use crate::number;
use crate::values::by_definition;

type Sixteen = Twice<Eight>;

type ThirtyTwo = Twice<Sixteen>;

type SixtyFour = Twice<ThirtyTwo>;

type OneTwentyEight = Twice<SixtyFour>;

// Eight entries of the fixed table go to an array of eight. All are read before any is written, so that the machine can move them at
// once.
// kept: the reason stands at `copy_four`.
fn copy_eight(fixed: &[i16; 2048], from: usize, out: &mut [i16])
    requires { (from + 8 ≤ 2048) × (length out.old ≡ 8) }
    ensures { out.new
        ≡ with_four (with_four out.old 0 fixed.now from) 4 fixed.now (from + 4) }
{
    let later = from + 4;
    let a = fixed[from];
    let b = fixed[from + 1];
    let c = fixed[from + 2];
    let d = fixed[from + 3];
    let e = fixed[later];
    let f = fixed[later + 1];
    let g = fixed[later + 2];
    let h = fixed[later + 3];
    out[0] = a;
    out[1] = b;
    out[2] = c;
    out[3] = d;
    out[4] = e;
    out[5] = f;
    out[6] = g;
    out[7] = h;
}

// Three inputs: the fixed table is read.
pub fn eight(fixed: &[i16; 2048], table: &[u8], out: &mut [i16])
    requires { Ready 3 table.now out.old × Spectra fixed.now }
    ensures { out.new ≡ functions.spectrum 3 (at table.now) }
{
    copy_eight(fixed, number(table) * 8, out);
}

// The spectrum of an accepted table, by the block of its width.
pub fn descend(fixed: &[i16; 2048], n: u32, table: &[u8], out: &mut [i16])
    requires { Ready n table.now out.old × Spectra fixed.now }
    ensures { out.new ≡ functions.spectrum n (at table.now) }
{
    match n {
        8 => Twice::<OneTwentyEight>::spectrum(fixed, table, out),
        7 => OneTwentyEight::spectrum(fixed, table, out),
        6 => SixtyFour::spectrum(fixed, table, out),
        5 => ThirtyTwo::spectrum(fixed, table, out),
        4 => Sixteen::spectrum(fixed, table, out),
        3 => Eight::spectrum(fixed, table, out),
        _ => by_definition(n, table, out),
    }
}

// The magnitude of a 16-bit number.
fn magnitude(v: i16) -> u16
    ensures { result ≡ nat_abs v }
{
    boolean::magnitude(v as i32) as u16
}

// The largest magnitude of some values, and 0 of none.
fn largest_magnitude(values: &[i16]) -> u16
    ensures { result ≡ largest_magnitude values.now }
{
    let mut largest: u16 = 0;
    for value in values {
        largest = largest.max(magnitude(*value));
    }
    largest
}

// The largest sum of the magnitudes of two numbers at the same place of the two halves.
fn largest_sum(values: &[i16], h: usize) -> u16
    requires { Halves (2 ^ 13) h values.now }
    ensures { result ≡ largest_sum h values.now }
{
    let mut largest: u16 = 0;
    for k in 0..h {
        largest = largest.max(magnitude(values[k]) + magnitude(values[h + k]));
    }
    largest
}

// One input more than those of B: the spectra of the two halves, A and B, and the largest |A| + |B|. It is the largest magnitude of the
// whole spectrum, which is A + B and A − B, and is not made.
fn peak_of_halves<B: Spectral>(fixed: &[i16; 2048], table: &[u8], work: &mut [i16]) -> u16
    requires { Ready (suc B.inputs) table.now work.old × Spectra fixed.now }
    ensures { (result ≡ largest_magnitude (functions.spectrum (suc B.inputs) (at table.now)))
        × AnyContent work.old work.new }
{
    let h = B::length();
    B::spectrum(fixed, &table[..h], &mut work[..h]);
    B::spectrum(fixed, &table[h..], &mut work[h..]);
    largest_sum(work, h)
}

// The largest magnitude in the spectrum of an accepted table. Up to three inputs, where little time goes, the whole spectrum is made.
pub fn peak(fixed: &[i16; 2048], n: u32, table: &[u8], work: &mut [i16]) -> u16
    requires { Ready n table.now work.old × Spectra fixed.now }
    ensures { (result ≡ largest_magnitude (functions.spectrum n (at table.now)))
        × AnyContent work.old work.new }
{
    match n {
        8 => peak_of_halves::<OneTwentyEight>(fixed, table, work),
        7 => peak_of_halves::<SixtyFour>(fixed, table, work),
        6 => peak_of_halves::<ThirtyTwo>(fixed, table, work),
        5 => peak_of_halves::<Sixteen>(fixed, table, work),
        4 => peak_of_halves::<Eight>(fixed, table, work),
        _ => {
            descend(fixed, n, table, work);
            largest_magnitude(work)
        }
    }
}

// Spectra and transforms of lengths that the compiler knows, each made of the two of half its length: all of it compiles to sums and
// differences of the machine's registers, with neither a loop nor a call.
ghost use Rattle.std.specs.Prelude.{◌≡◌, ℕ, suc, ◌+◌, ◌^◌, ◌≤◌, length, nat_abs};
ghost use Rattle.boolean.specs.Sums.{list_below};
ghost use Rattle.boolean.specs.Functions.{at, value_at};
ghost use Rattle.boolean.specs.Functions as functions;
ghost use Rattle.walsh.specs.FixedTable.{Spectra};
ghost use Rattle.walsh.specs.Work.{Ready, Summable};
ghost use Rattle.std.proofs.Common.{rules};

use crate::narrow::eight;
use crate::values::butterfly;
use std::marker::PhantomData;

// 2 to the power `inputs` values.
pub trait Block {
    ghost inputs: { ℕ };

    // How many values there are.
    fn length() -> usize
        requires { inputs ≤ 8 }
        ensures { result ≡ 2 ^ inputs };
}

// A block whose spectrum is taken, in 16-bit values.
pub trait Spectral: Block {
    fn spectrum(fixed: &[i16; 2048], table: &[u8], out: &mut [i16])
        requires { Ready Self.inputs table.now out.old × Spectra fixed.now }
        ensures { out.new ≡ functions.spectrum Self.inputs (at table.now) };

    ghost some: { 1 ≤ Self.inputs };
}

// A block of integers that is transformed in place.
pub trait Summed: Block {
    fn transform(values: &mut [i32])
        requires { Summable Self.inputs values.old }
        ensures { values.new ≡ list_below (2 ^ Self.inputs) (λ w. functions.transform Self.inputs (value_at values.old) w) };
}

// Two values: their transform is their sum and their difference.
pub struct Two;

// Eight values: their spectrum is read from the fixed table.
pub struct Eight;

// Twice as many values as B has: what is made of each half, and then the halves crossed.
pub struct Twice<B> {
    of: PhantomData<B>,
}

impl Block for Two {
    ghost inputs = { 1 };

    fn length() -> usize {
        2
    }
}

impl Block for Eight {
    ghost inputs = { 3 };

    fn length() -> usize {
        8
    }
}

impl<B: Block> Block for Twice<B> {
    ghost inputs = { suc B.inputs };

    fn length() -> usize {
        2 * B::length()
    }
}

impl Spectral for Eight {
    fn spectrum(fixed: &[i16; 2048], table: &[u8], out: &mut [i16]) {
        eight(fixed, table, out);
    }

    ghost some = { Prim.search rules };
}

impl<B: Spectral> Spectral for Twice<B> {
    fn spectrum(fixed: &[i16; 2048], table: &[u8], out: &mut [i16]) {
        let h = B::length();
        B::spectrum(fixed, &table[..h], &mut out[..h]);
        B::spectrum(fixed, &table[h..], &mut out[h..]);
        butterfly(out, h);
    }

    ghost some = { Prim.search rules };
}

impl Summed for Two {
    fn transform(values: &mut [i32]) {
        butterfly(values, 1);
    }
}

impl<B: Summed> Summed for Twice<B> {
    fn transform(values: &mut [i32]) {
        let h = B::length();
        B::transform(&mut values[..h]);
        B::transform(&mut values[h..]);
        butterfly(values, h);
    }
}

// The numbers that a spectrum is made of: 32 bits for the callers that read it, 16 for the sweeps.
ghost use Rattle.std.specs.Prelude.{◌≡◌, ℕ, ◌+◌, ◌^◌, ◌≤◌, ◌<◌, ℤ, pos, ◌+ℤ◌, ◌-ℤ◌, nat_abs, length};
ghost use Rattle.boolean.specs.Functions.{at};
ghost use Rattle.walsh.specs.Work.{Ready, SpectrumOf, HalvesOf, CrossedOf};

use crate::value;

pub trait Value: Copy {
    // The integer that a number stands for, and the number that a list has past its end.
    ghost whole: { Self → ℤ };

    ghost zero: { Self };

    // Sums and differences of two numbers within the limit are exact.
    ghost limit: { ℕ };

    fn of(v: i16) -> Self
        ensures { whole result ≡ v };

    fn plus(self, other: Self) -> Self
        requires { (nat_abs (whole self) ≤ limit) × (nat_abs (whole other) ≤ limit) }
        ensures { whole result ≡ whole self +ℤ whole other };

    fn minus(self, other: Self) -> Self
        requires { (nat_abs (whole self) ≤ limit) × (nat_abs (whole other) ≤ limit) }
        ensures { whole result ≡ whole self -ℤ whole other };
}

impl Value for i32 {
    ghost whole = { λ v. v };

    ghost zero = { pos 0 };

    ghost limit = { 2 ^ 29 };

    fn of(v: i16) -> i32 {
        i32::from(v)
    }

    fn plus(self, other: i32) -> i32 {
        self + other
    }

    fn minus(self, other: i32) -> i32 {
        self - other
    }
}

impl Value for i16 {
    ghost whole = { λ v. v };

    ghost zero = { pos 0 };

    ghost limit = { 2 ^ 13 };

    fn of(v: i16) -> i16 {
        v
    }

    fn plus(self, other: i16) -> i16 {
        self + other
    }

    fn minus(self, other: i16) -> i16 {
        self - other
    }
}

// Widths 1 and 2: the definition.
pub fn by_definition<T: Value>(n: u32, table: &[u8], out: &mut [T])
    requires { Ready n table.now out.old }
    ensures { SpectrumOf T.whole T.zero n (at table.now) out.new }
{
    for (w, to) in out.iter_mut().enumerate() {
        *to = T::of(value(table, w as u32));
    }
}

// Sums go to the lower half and differences to the upper.
pub fn butterfly<T: Value>(values: &mut [T], h: usize)
    requires { HalvesOf T.whole T.zero T.limit h values.old }
    ensures { CrossedOf T.whole T.zero h values.old values.new }
{
    for k in 0..h {
        let a = values[k];
        let b = values[h + k];
        values[k] = a.plus(b);
        values[h + k] = a.minus(b);
    }
}

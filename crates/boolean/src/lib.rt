// Boolean functions: the inner product, powers of two, bytes and rows. The definitions are in specs/, their laws in proofs/.
#![tactic(auto)]

ghost use Rattle.std.specs.Prelude.{◌≡◌, not, ◌^◌, ◌≤◌, ◌<◌, nat_abs, length};
ghost use Rattle.boolean.specs.Bits as bits;
ghost use Rattle.boolean.specs.Sums.{every, distinct};
ghost use Rattle.boolean.specs.Functions.{sign_bit};

// w·x: the parity of the ones in (w AND x).
#[tactic(auto, unfolding(crate::specs::Bits::dot, crate::specs::Bits::parity))]
pub fn dot(w: u32, x: u32) -> u32
    ensures { (result ≡ bits.dot w x) × (result < 2) }
{
    u32::count_ones(w & x) % 2
}

// 2 to the power k.
pub fn power_of_two(k: u32) -> usize
    requires { k ≤ 32 }
    ensures { (result ≡ 2 ^ k) × (result ≤ 4294967296) }
{
    1usize << k
}

// A byte as a number.
pub fn wide(x: u8) -> u32
    ensures { (result ≡ x) × (result < 256) }
{
    u32::from(x)
}

// The magnitude of a signed number, by negation. The lowest number has no negation that fits, so one is added before and after it.
pub fn magnitude(v: i32) -> u32
    ensures { result ≡ nat_abs v }
{
    if v < 0 {
        let above = -(v + 1);
        (above as u32) + 1
    } else {
        v as u32
    }
}

// The sign of a number as a truth value: 1 for what is below 0.
#[tactic(auto, unfolding(crate::specs::Functions::sign_bit))]
pub fn sign_bit(v: i32) -> u8
    ensures { result ≡ sign_bit v }
{
    u8::from(v < 0)
}

// A copy of rows, or of other numbers.
pub fn copy(rows: &[u32], out: &mut [u32])
    requires { length out.old ≡ length rows.now }
    ensures { out.new ≡ rows.now }
{
    out.copy_from_slice(rows);
}

// Whether no row, or no byte or other item, equals this one.
pub fn lacks_row<T: PartialEq + Copy>(rows: &[T], row: T) -> bool
    ensures { result ≡ every (λ y. not (T.eq row y)) rows.now }
{
    rows.iter().all(|other| row != *other)
}

// Whether no two rows, or no two bytes or other items, are equal: no later row equals row i, for each i.
pub fn rows_distinct<T: PartialEq + Copy>(rows: &[T]) -> bool
    ensures { result ≡ distinct T.eq rows.now }
{
    rows.iter()
        .enumerate()
        .all(|(i, row)| lacks_row(&rows[i + 1..], *row))
}

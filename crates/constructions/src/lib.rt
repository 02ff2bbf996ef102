// Boxes made from boxes: enlargement by one input, and the bent form.
#![tactic(auto)]

ghost use Rattle.std.specs.Prelude.{◌≡◌, ◌&&◌, suc, ◌+◌, ◌*◌, ◌/◌, ◌%◌, ◌^◌, ◌≤◌, ◌<◌, eqb, length};
ghost use Rattle.boolean.specs.Functions.{at};
ghost use Rattle.refusals.specs.Table.{first, in_range};
ghost use Rattle.constructions.specs.Enlargement.{enlarged, enlarged_table, enlarged_rows};
ghost use Rattle.constructions.specs.BentForm.{is_permutation, bent_form, bent_table};
ghost use Rattle.constructions.specs.Calls.{column_checks, enlarge_checks, bent_checks, ColumnCalled, BoxCalled, BentCalled};
ghost use Rattle.constructions.specs.Work.{source_of, Enlarges, EnlargesColumn, EnlargesBox, MakesBent};

use refusals::Refusal;

// Whether an array of this length is as long as a table of n inputs.
fn has_inputs(count: usize, n: u32) -> bool
    requires { n ≤ 16 }
    ensures { result ≡ eqb count (2 ^ n) }
{
    count == boolean::power_of_two(n)
}

// Whether one input more still makes a width that the calls accept.
fn can_grow(n: u32) -> bool
    ensures { result ≡ in_range 1 7 n }
{
    refusals::in_range(1, 7, n)
}

// The input at which the smaller function is asked. The lower half asks at x itself. The upper half asks without the top bit, and with
// bit k flipped.
fn source(n: u32, k: u32, x: usize) -> usize
    requires { Enlarges n k × (x < 2 ^ suc n) }
    ensures { (result ≡ source_of n k x) × (result < 2 ^ n) }
{
    let size = boolean::power_of_two(n);
    if x < size {
        return x;
    }
    (x - size) ^ boolean::power_of_two(k - 1)
}

// The value of the enlarged column at x: the constant is added in the upper half alone.
fn column_at(n: u32, table: &[u8], k: u32, a: u32, x: usize) -> u8
    requires { EnlargesColumn n table.now k a × (x < 2 ^ suc n) }
    ensures { result ≡ enlarged n (at table.now) k a x }
{
    let value = table[source(n, k, x)];
    if x < boolean::power_of_two(n) {
        return value;
    }
    value ^ (a as u8)
}

// The enlarged column, written to an array that is as long.
fn write_column(n: u32, table: &[u8], k: u32, a: u32, out: &mut [u8])
    requires { EnlargesColumn n table.now k a × (length out.old ≡ 2 ^ suc n) }
    ensures { out.new ≡ enlarged_table n table.now k a }
{
    for (x, entry) in out.iter_mut().enumerate() {
        *entry = column_at(n, table, k, a, x);
    }
}

// The checks of enlarging a column.
#[tactic(auto, unfolding(refusals::specs::Table::first, crate::specs::Calls::column_checks))]
fn check_column(n: u32, table: &[u8], k: u32, a: u32, room: usize) -> Result<(), Refusal>
    ensures { result ≡ first (column_checks n table.now k a room) }
{
    if !can_grow(n) {
        return Err(Refusal::InputWidth);
    }
    if !has_inputs(table.len(), n) {
        return Err(Refusal::ReadLength);
    }
    if !refusals::values_below(table, 2) {
        return Err(Refusal::Value);
    }
    if !refusals::in_range(1, n, k) {
        return Err(Refusal::Parameter);
    }
    if 1 < a {
        return Err(Refusal::Parameter);
    }
    if !has_inputs(room, n + 1) {
        return Err(Refusal::WrittenLength);
    }
    Ok(())
}

// A truth table of one input more: the lower half is the table, the upper half is the table with bit k of the input flipped, XOR a.
pub fn enlarge_column(n: u32, table: &[u8], k: u32, a: u32, out: &mut [u8]) -> Result<(), Refusal>
    ensures { ColumnCalled n table.now k a out.old result out.new }
{
    check_column(n, table, k, a, out.len())?;
    write_column(n, table, k, a, out);
    Ok(())
}

// A row of the enlarged box: the old row at the source, in both halves alike, and above it the new top bit, which the table makes with
// the constant 1.
fn box_row(n: u32, rows: &[u32], table: &[u8], k: u32, x: usize) -> u32
    requires { EnlargesBox n rows.now table.now k × (x < 2 ^ suc n) }
    ensures { result ≡ enlarged n (at rows.now) k 0 x + enlarged n (at table.now) k 1 x * 2 ^ n }
{
    let row = rows[source(n, k, x)];
    let top = column_at(n, table, k, 1, x);
    row + ((top as u32) << n)
}

// The rows of the enlarged box, written to an array that is as long.
// kept: beside `write_column`. One function of both would take the value at x as a closure, and is no plainer than two loops of one line.
fn write_box(n: u32, rows: &[u32], table: &[u8], k: u32, out: &mut [u32])
    requires { EnlargesBox n rows.now table.now k × (length out.old ≡ 2 ^ suc n) }
    ensures { out.new ≡ enlarged_rows n rows.now table.now k }
{
    for (x, row) in out.iter_mut().enumerate() {
        *row = box_row(n, rows, table, k, x);
    }
}

// The checks of enlarging a box.
#[tactic(auto, unfolding(refusals::specs::Table::first, crate::specs::Calls::enlarge_checks))]
fn check_enlarge(n: u32, rows: &[u32], table: &[u8], k: u32, room: usize) -> Result<(), Refusal>
    ensures { result ≡ first (enlarge_checks n rows.now table.now k room) }
{
    if !can_grow(n) {
        return Err(Refusal::InputWidth);
    }
    if !has_inputs(rows.len(), n) {
        return Err(Refusal::ReadLength);
    }
    if !has_inputs(table.len(), n) {
        return Err(Refusal::ReadLength);
    }
    if !refusals::rows_below(rows, boolean::power_of_two(n)) {
        return Err(Refusal::Value);
    }
    if !refusals::values_below(table, 2) {
        return Err(Refusal::Value);
    }
    if !refusals::in_range(1, n, k) {
        return Err(Refusal::Parameter);
    }
    if !has_inputs(room, n + 1) {
        return Err(Refusal::WrittenLength);
    }
    Ok(())
}

// A box of n + 1 inputs and outputs from a box of n and a truth table, which makes the new top bit.
// kept: beside `enlarge_column`, since each calls its own checks and loop: one function would share no more than the order of its lines.
pub fn enlarge_box(
    n: u32,
    rows: &[u32],
    table: &[u8],
    k: u32,
    out: &mut [u32],
) -> Result<(), Refusal>
    ensures { BoxCalled n rows.now table.now k out.old result out.new }
{
    check_enlarge(n, rows, table, k, out.len())?;
    write_box(n, rows, table, k, out);
    Ok(())
}

// Whether n is 2, 4, 6 or 8.
fn even_width(n: u32) -> bool
    ensures { result ≡ (in_range 2 8 n && eqb (n % 2) 0) }
{
    refusals::in_range(2, 8, n) && n % 2 == 0
}

// Whether the entries, of which there are as many, are the numbers below the size in some order.
#[tactic(auto, unfolding(crate::specs::BentForm::is_permutation))]
fn is_permutation(size: usize, entries: &[u8]) -> bool
    ensures { result ≡ is_permutation size entries.now }
{
    refusals::values_below(entries, size) && boolean::rows_distinct(entries)
}

// The value of the bent form at z, whose upper half of bits is x, and whose lower half is y.
fn bent_at(h: u32, permutation: &[u8], table: &[u8], z: usize) -> u8
    requires { MakesBent h permutation.now table.now × (z < 2 ^ (h + h)) }
    ensures { result ≡ bent_form h permutation.now table.now z }
{
    let size = boolean::power_of_two(h);
    let x = z / size;
    let y = z % size;
    let product = boolean::dot(permutation[x] as u32, y as u32);
    (product as u8) ^ table[x]
}

// The bent function, written to an array that is as long.
fn write_bent(n: u32, permutation: &[u8], table: &[u8], out: &mut [u8])
    requires { MakesBent (n / 2) permutation.now table.now × (n / 2 + n / 2 ≡ n) × (length out.old ≡ 2 ^ n) }
    ensures { out.new ≡ bent_table n permutation.now table.now }
{
    for (z, entry) in out.iter_mut().enumerate() {
        *entry = bent_at(n / 2, permutation, table, z);
    }
}

// The checks of the bent form.
#[tactic(auto, unfolding(refusals::specs::Table::first, crate::specs::Calls::bent_checks))]
fn check_bent(n: u32, permutation: &[u8], table: &[u8], room: usize) -> Result<(), Refusal>
    ensures { result ≡ first (bent_checks n permutation.now table.now room) }
{
    if !even_width(n) {
        return Err(Refusal::InputWidth);
    }
    let h = n / 2;
    if !has_inputs(permutation.len(), h) {
        return Err(Refusal::ReadLength);
    }
    if !has_inputs(table.len(), h) {
        return Err(Refusal::ReadLength);
    }
    if !refusals::values_below(table, 2) {
        return Err(Refusal::Value);
    }
    if !is_permutation(boolean::power_of_two(h), permutation) {
        return Err(Refusal::Permutation);
    }
    if !has_inputs(room, n) {
        return Err(Refusal::WrittenLength);
    }
    Ok(())
}

// The bent function of n = 2h inputs that a permutation of 0 to 2^h - 1 and a table of 2^h truth values make.
pub fn bent_function(
    n: u32,
    permutation: &[u8],
    table: &[u8],
    out: &mut [u8],
) -> Result<(), Refusal>
    ensures { BentCalled n permutation.now table.now out.old result out.new }
{
    check_bent(n, permutation, table, out.len())?;
    write_bent(n, permutation, table, out);
    Ok(())
}

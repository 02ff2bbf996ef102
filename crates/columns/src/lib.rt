// Column addition: an affine function is added to one column of a box.
#![tactic(auto)]

ghost use Rattle.std.specs.Prelude.{◌≡◌, ◌^◌, ◌≤◌, ◌<◌, length};
ghost use Rattle.refusals.specs.Table.{first};
ghost use Rattle.columns.specs.Addition.{added_row, added_rows, addition_checks, AdditionCalled};

use refusals::Refusal;

// The row at input x, with bit j XORed with w·x XOR b.
#[tactic(auto, using(crate::proofs::Rows::row_is))]
fn added_row(j: u32, w: u32, b: u32, x: usize, row: u32) -> u32
    requires { (1 ≤ j) × (j ≤ 32) × (b < 2) × (x < 256) }
    ensures { result ≡ added_row j w b x row }
{
    let flip = boolean::dot(w, x as u32) ^ b;
    row ^ (flip << (j - 1))
}

// The new rows.
fn add_rows(rows: &[u32], j: u32, w: u32, b: u32, out: &mut [u32])
    requires { (1 ≤ j) × (j ≤ 32) × (b < 2) × (length rows.now ≤ 256) × (length out.old ≡ length rows.now) }
    ensures { out.new ≡ added_rows j w b rows.now }
{
    for (x, row) in rows.iter().enumerate() {
        out[x] = added_row(j, w, b, x, *row);
    }
}

// The checks of a column addition.
#[tactic(auto, unfolding(refusals::specs::Table::first, crate::specs::Addition::addition_checks))]
fn check_addition(
    n: u32,
    m: u32,
    rows: &[u32],
    j: u32,
    w: u32,
    b: u32,
    room: usize,
) -> Result<(), Refusal>
    ensures { result ≡ first (addition_checks n m rows.now j w b room) }
{
    refusals::check_box(n, m, rows)?;
    if !refusals::in_range(1, m, j) {
        return Err(Refusal::Parameter);
    }
    let size = boolean::power_of_two(n);
    if size <= w as usize {
        return Err(Refusal::Parameter);
    }
    if 1 < b {
        return Err(Refusal::Parameter);
    }
    if room != size {
        return Err(Refusal::WrittenLength);
    }
    Ok(())
}

// The affine function (w, b) is added to column j of the rows; the new rows go to a second array.
pub fn add_to_column(
    n: u32,
    m: u32,
    rows: &[u32],
    j: u32,
    w: u32,
    b: u32,
    out: &mut [u32],
) -> Result<(), Refusal>
    ensures { AdditionCalled n m rows.now j w b out.old result out.new }
{
    check_addition(n, m, rows, j, w, b, out.len())?;
    add_rows(rows, j, w, b, out);
    Ok(())
}

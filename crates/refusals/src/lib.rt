// The numbered refusals, which calls answer as errors, the checks that many calls share, and the widths that some answer with.
#![tactic(auto)]

ghost use Rattle.std.specs.Prelude.{◌≡◌, ◌≤◌, length};
ghost use Rattle.boolean.specs.Functions.{at};
ghost use Rattle.boolean.specs.Sums.{largest_below};
ghost use Rattle.refusals.specs.Table.{number, first, in_range, all_below, box_checks_up_to};
ghost use Rattle.refusals.specs.Table.{box_checks, limit_checks, table_checks, table_call_checks};

#[derive(Clone, Copy)]
pub enum Refusal {
    InputWidth,
    OutputWidth,
    ReadLength,
    Value,
    Permutation,
    Parameter,
    WrittenLength,
    NoFunction,
    ListTooShort,
    FileLength,
    BoxCount,
    OutputWidths,
    Catalogue,
    NoRoom,
    NoRecord,
    UnusedBit,
    UnsetMark,
    NoPlace,
    PlaceState,
}

// The widths of a box, where they are the answer of a call.
#[derive(Clone, Copy)]
pub struct BoxWidths {
    pub n: u32,
    pub m: u32,
}

// The number of a refusal, as documents 01 and 02 give it.
// kept: the numbers are the documents', and C is given them (the C interface): a cast would give the places of the cases.
pub fn number_of(e: Refusal) -> u32
    ensures { result ≡ number e }
{
    match e {
        Refusal::InputWidth => 1,
        Refusal::OutputWidth => 2,
        Refusal::ReadLength => 3,
        Refusal::Value => 4,
        Refusal::Permutation => 5,
        Refusal::Parameter => 6,
        Refusal::WrittenLength => 7,
        Refusal::NoFunction => 8,
        Refusal::ListTooShort => 9,
        Refusal::FileLength => 10,
        Refusal::BoxCount => 11,
        Refusal::OutputWidths => 12,
        Refusal::Catalogue => 13,
        Refusal::NoRoom => 14,
        Refusal::NoRecord => 15,
        Refusal::UnusedBit => 16,
        Refusal::UnsetMark => 17,
        Refusal::NoPlace => 18,
        Refusal::PlaceState => 19,
    }
}

// Whether a is at least lo and at most hi.
pub fn in_range(lo: u32, hi: u32, a: u32) -> bool
    ensures { result ≡ in_range lo hi a }
{
    if a < lo {
        return false;
    }
    a <= hi
}

// The largest row, and 0 where there is none.
#[tactic(auto, unfolding(boolean::specs::Sums::largest_below))]
fn largest_row(rows: &[u32]) -> u32
    ensures { result ≡ largest_below (length rows.now) (at rows.now) }
{
    let mut most = 0;
    for row in rows {
        most = most.max(*row);
    }
    most
}

// Whether every row is below the limit. The largest alone is compared: a loop without an early exit compiles to vector instructions, which
// look at several rows at a time.
pub fn rows_below(rows: &[u32], limit: usize) -> bool
    ensures { result ≡ all_below limit rows.now }
{
    if rows.len() == 0 {
        return true;
    }
    let most = largest_row(rows) as usize;
    most < limit
}

// Whether every byte is below the limit.
pub fn values_below(table: &[u8], limit: usize) -> bool
    ensures { result ≡ all_below limit table.now }
{
    table.iter().all(|value| (*value as usize) < limit)
}

// The checks 1 to 4 of a box where at most `most` outputs are taken.
#[tactic(auto, unfolding(crate::specs::Table::first))]
pub fn check_box_up_to(most: u32, n: u32, m: u32, rows: &[u32]) -> Result<(), Refusal>
    requires { most ≤ 32 }
    ensures { result ≡ first (box_checks_up_to most n m rows.now) }
{
    if !in_range(1, 8, n) {
        return Err(Refusal::InputWidth);
    }
    if !in_range(1, most, m) {
        return Err(Refusal::OutputWidth);
    }
    if rows.len() != boolean::power_of_two(n) {
        return Err(Refusal::ReadLength);
    }
    if !rows_below(rows, boolean::power_of_two(m)) {
        return Err(Refusal::Value);
    }
    Ok(())
}

// The checks 1 to 4 of a box.
// kept: n, m and rows stay apart in every call, since C hands them over so (the C interface), and each call refuses what is no box.
pub fn check_box(n: u32, m: u32, rows: &[u32]) -> Result<(), Refusal>
    ensures { result ≡ first (box_checks n m rows.now) }
{
    check_box_up_to(32, n, m, rows)
}

// The checks 1 to 4 of a box, and 6 for the limit on its combinations.
#[tactic(auto, unfolding(crate::specs::Table::first, crate::specs::Table::limit_checks))]
pub fn check_limited(n: u32, m: u32, rows: &[u32], i: u32) -> Result<(), Refusal>
    ensures { result ≡ first (limit_checks n m rows.now i) }
{
    check_box(n, m, rows)?;
    if !in_range(1, m, i) {
        return Err(Refusal::Parameter);
    }
    Ok(())
}

// The checks 1, 3 and 4 of a truth table.
#[tactic(auto, unfolding(crate::specs::Table::first))]
pub fn check_table(n: u32, table: &[u8]) -> Result<(), Refusal>
    ensures { result ≡ first (table_checks n table.now) }
{
    if !in_range(1, 8, n) {
        return Err(Refusal::InputWidth);
    }
    if table.len() != boolean::power_of_two(n) {
        return Err(Refusal::ReadLength);
    }
    if !values_below(table, 2) {
        return Err(Refusal::Value);
    }
    Ok(())
}

// The checks of a call that reads a truth table and writes as many values: 1, 3, 4 and 7.
#[tactic(auto, unfolding(crate::specs::Table::first, crate::specs::Table::table_call_checks))]
pub fn check_table_call(n: u32, table: &[u8], room: usize) -> Result<(), Refusal>
    ensures { result ≡ first (table_call_checks n table.now room) }
{
    check_table(n, table)?;
    if room != boolean::power_of_two(n) {
        return Err(Refusal::WrittenLength);
    }
    Ok(())
}

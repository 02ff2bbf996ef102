// The calls for C and for everything that speaks C. A slice is a pointer and its number of elements. Every function but `satmegwo_version`
// returns 0 or the number of a refusal, and its figures go to an array that is lent for them.
#![tactic(auto)]

mod giving;

ghost use Rattle.std.specs.Prelude.{[], ◌∷◌, ◌^◌, ◌≡◌, length};
ghost use Rattle.std.proofs.lemmas.List.Edits.{sets};
ghost use Rattle.boolean.specs.Sums.{list_below};
ghost use Rattle.boolean.specs.Functions.{at, value_at, component, spectrum, inverse, normal_form};
ghost use Rattle.refusals.specs.Table.{table_call_checks, box_checks, first, reply_after};
ghost use Rattle.walsh.specs.Calls.{inverse_checks};
ghost use Rattle.linear.specs.Calls.{component_checks};
ghost use Rattle.linear.specs.Nonlinearity.{nonlinearity_reply};
ghost use Rattle.columns.specs.Addition.{addition_checks, added_rows};
ghost use Rattle.differential.specs.XorTable.{xor_row, largest_cells};
ghost use Rattle.differential.specs.Calls.{row_checks, largest_cell_reply, list_after};
ghost use Rattle.nearest.specs.NearestPairs.{nearest_pairs};
ghost use Rattle.avalanche.specs.Calls.{autocorrelation_reply, distance_reply, complete_reply};
ghost use Rattle.algebraic.specs.Calls.{box_degree_reply, bijective_reply};
ghost use Rattle.constructions.specs.Enlargement.{enlarged_table, enlarged_rows};
ghost use Rattle.constructions.specs.BentForm.{bent_table};
ghost use Rattle.constructions.specs.Calls.{column_checks, enlarge_checks, bent_checks};
ghost use Rattle.boxfile.specs.File.{file_rows, write_checks, file_of};
ghost use Rattle.rounds.specs.Round.{summand_of, sum_reply};
ghost use Rattle.swaps.specs.Swaps.{raising_reply};
ghost use Rattle.border.specs.Border.{WroteOut, FiguresOut, status};
ghost use Rattle.satmegwo.specs.Exports.{cells_checks, read_box_checks, add_record_checks, sheet_checks, version, nearest_checks};
ghost use Rattle.sheet.specs.Sheet.{sheet_text};
ghost use Rattle.catalogue.specs.Calls.{check_reply, fetch_reply, catalogue_checks, index_checks};
ghost use Rattle.catalogue.specs.Calls.{gap_for, gap_index, removed, added, compacted};
ghost use Rattle.packing.specs.Packing.{packed as packedForm, unpacked, pack_checks, unpack_checks};

use algebraic::FoundDegree;
use catalogue::Extent;
use differential::FoundCell;
use linear::Found;
use refusals::{BoxWidths, Refusal};
use rounds::Widths;
use swaps::Raise;

// The spectrum of a truth table.
pub fn satmegwo_spectrum(n: u32, table: &[u8], out: &mut [i32]) -> u32
    ensures { WroteOut (table_call_checks n table.now (length out.old))
        (spectrum n (at table.now)) out.old result out.new }
{
    border::status_of(walsh::spectrum(n, table, out))
}

// The truth table of a spectrum.
pub fn satmegwo_inverse_spectrum(n: u32, values: &[i32], table: &mut [u8]) -> u32
    ensures { WroteOut (inverse_checks n values.now (length table.old))
        (list_below (2 ^ n) (λ x. inverse n (value_at values.now) x)) table.old result table.new }
{
    border::status_of(walsh::inverse_spectrum(n, values, table))
}

// The spectrum of component c of a box.
pub fn satmegwo_component_spectrum(n: u32, m: u32, rows: &[u32], c: u32, out: &mut [i32]) -> u32
    ensures { WroteOut (component_checks n m rows.now c (length out.old))
        (spectrum n (component rows.now c)) out.old result out.new }
{
    border::status_of(linear::spectrum_of_component(n, m, rows, c, out))
}

// The nonlinearity of a box over its combinations of at most i outputs, with c, w and b.
pub fn satmegwo_nonlinearity(n: u32, m: u32, rows: &[u32], i: u32, figures: &mut [u32]) -> u32
    ensures { FiguresOut (nonlinearity_reply n m rows.now i) figures.old result figures.new }
{
    if figures.len() != 4 { // the count, c, w and b
        return border::number_for_room(refusals::check_limited(n, m, rows, i));
    }
    match linear::nonlinearity(n, m, rows, i) {
        Ok(Found { count, c, w, b }) => border::give(&[count, c, w, b], figures),
        Err(e) => refusals::number_of(e),
    }
}

// Adds the affine function (w, b) to column j.
pub fn satmegwo_add_to_column(
    n: u32,
    m: u32,
    rows: &[u32],
    j: u32,
    w: u32,
    b: u32,
    out: &mut [u32],
) -> u32
    ensures { WroteOut (addition_checks n m rows.now j w b (length out.old))
        (added_rows j w b rows.now) out.old result out.new }
{
    border::status_of(columns::add_to_column(n, m, rows, j, w, b, out))
}

// One row of the XOR table of a box of at most 16 outputs.
pub fn satmegwo_xor_row(n: u32, m: u32, rows: &[u32], a: u32, counts: &mut [u16]) -> u32
    ensures { WroteOut (row_checks n m rows.now a (length counts.old))
        (xor_row n m rows.now a) counts.old result counts.new }
{
    border::status_of(differential::xor_row(n, m, rows, a, counts))
}

// The largest cell of the XOR table, with a and beta.
pub fn satmegwo_largest_cell(n: u32, m: u32, rows: &[u32], figures: &mut [u32]) -> u32
    ensures { FiguresOut (largest_cell_reply n m rows.now) figures.old result figures.new }
{
    match differential::largest_cell(n, m, rows) {
        Ok(FoundCell { count, a, beta }) => border::give(&[count, a, beta], figures),
        Err(e) => refusals::number_of(e),
    }
}

// The list of all cells that reach the largest count, by ascending a, then beta. It is written to only where its number can be given too.
pub fn satmegwo_largest_cells(
    n: u32,
    m: u32,
    rows: &[u32],
    list: &mut [u64],
    figures: &mut [u32],
) -> u32
    ensures count { WroteOut (cells_checks n m rows.now (length figures.old) (length list.old))
        (length (largest_cells n m rows.now) ∷ []) figures.old result figures.new }
    ensures cells { WroteOut (cells_checks n m rows.now (length figures.old) (length list.old))
        (list_after (largest_cells n m rows.now) list.old) list.old result list.new }
{
    if figures.len() != 1 { // the number of cells
        return border::number_for_room(refusals::check_box(n, m, rows));
    }
    match differential::largest_cells(n, m, rows, list) {
        Ok(count) => border::give(&[count], figures),
        Err(e) => refusals::number_of(e),
    }
}

// The largest |r(s)| over the combinations of at most i outputs, with c and s.
pub fn satmegwo_autocorrelation(n: u32, m: u32, rows: &[u32], i: u32, figures: &mut [u32]) -> u32
    ensures { FiguresOut (autocorrelation_reply n m rows.now i) figures.old result figures.new }
{
    if figures.len() != 3 { // the figure, c and s
        return border::number_for_room(refusals::check_limited(n, m, rows, i));
    }
    giving::give_change(avalanche::autocorrelation(n, m, rows, i), figures)
}

// The dynamic distance of order (i, j), doubled, with c and d.
pub fn satmegwo_dynamic_distance(
    n: u32,
    m: u32,
    rows: &[u32],
    i: u32,
    j: u32,
    figures: &mut [u32],
) -> u32
    ensures { FiguresOut (distance_reply n m rows.now i j) figures.old result figures.new }
{
    if figures.len() != 3 { // the doubled distance, c and d
        return border::number_for_room(avalanche::check_distance(n, m, rows, i, j));
    }
    giving::give_change(avalanche::dynamic_distance(n, m, rows, i, j), figures)
}

// The normal form of a truth table.
pub fn satmegwo_normal_form(n: u32, table: &[u8], out: &mut [u8]) -> u32
    ensures { WroteOut (table_call_checks n table.now (length out.old))
        (normal_form n (at table.now)) out.old result out.new }
{
    border::status_of(algebraic::normal_form(n, table, out))
}

// The least degree of the combinations of at most i outputs, with c.
pub fn satmegwo_degree(n: u32, m: u32, rows: &[u32], i: u32, figures: &mut [u32]) -> u32
    ensures { FiguresOut (box_degree_reply n m rows.now i) figures.old result figures.new }
{
    if figures.len() != 2 { // the degree and c
        return border::number_for_room(refusals::check_limited(n, m, rows, i));
    }
    match algebraic::degree(n, m, rows, i) {
        Ok(FoundDegree { degree, c }) => border::give(&[degree, c], figures),
        Err(e) => refusals::number_of(e),
    }
}

// Whether every input bit changes every column.
pub fn satmegwo_complete(n: u32, m: u32, rows: &[u32], figures: &mut [u32]) -> u32
    ensures { FiguresOut (complete_reply n m rows.now) figures.old result figures.new }
{
    giving::give_verdict(avalanche::is_complete(n, m, rows), figures)
}

// Whether n = m and no two rows are equal.
pub fn satmegwo_bijective(n: u32, m: u32, rows: &[u32], figures: &mut [u32]) -> u32
    ensures { FiguresOut (bijective_reply n m rows.now) figures.old result figures.new }
{
    giving::give_verdict(algebraic::is_bijective(n, m, rows), figures)
}

// A column with one more input.
pub fn satmegwo_enlarge_column(n: u32, table: &[u8], k: u32, a: u32, out: &mut [u8]) -> u32
    ensures { WroteOut (column_checks n table.now k a (length out.old))
        (enlarged_table n table.now k a) out.old result out.new }
{
    border::status_of(constructions::enlarge_column(n, table, k, a, out))
}

// A box with one more input and one more output.
pub fn satmegwo_enlarge_box(n: u32, rows: &[u32], table: &[u8], k: u32, out: &mut [u32]) -> u32
    ensures { WroteOut (enlarge_checks n rows.now table.now k (length out.old))
        (enlarged_rows n rows.now table.now k) out.old result out.new }
{
    border::status_of(constructions::enlarge_box(n, rows, table, k, out))
}

// A bent function.
pub fn satmegwo_bent_function(n: u32, permutation: &[u8], table: &[u8], out: &mut [u8]) -> u32
    ensures { WroteOut (bent_checks n permutation.now table.now (length out.old))
        (bent_table n permutation.now table.now) out.old result out.new }
{
    border::status_of(constructions::bent_function(n, permutation, table, out))
}

// Reads a box file: the rows go to one array, n and m to another. Neither is written to unless both can be.
pub fn satmegwo_read_box(file: &[u8], rows: &mut [u32], figures: &mut [u32]) -> u32
    ensures widths { WroteOut (read_box_checks file.now (length rows.old) (length figures.old))
        (at file.now 0 ∷ at file.now 1 ∷ []) figures.old result figures.new }
    ensures rows { WroteOut (read_box_checks file.now (length rows.old) (length figures.old))
        (file_rows file.now (at file.now 0)) rows.old result rows.new }
{
    if figures.len() != 2 { // n and m
        return border::number_for_room(boxfile::check_file(file, rows.len()));
    }
    match boxfile::read_box(file, rows) {
        Ok(BoxWidths { n, m }) => border::give(&[n, m], figures),
        Err(e) => refusals::number_of(e),
    }
}

// The nonlinearity of the sum of one to four boxes over its combinations of at most i outputs, with c, a mask for each box, and b. The
// array for the figures is looked at before the sweep, which may be long, and told after the checks.
pub fn satmegwo_sum_nonlinearity(
    count: u32,
    n1: u32,
    m1: u32,
    rows1: &[u32],
    n2: u32,
    m2: u32,
    rows2: &[u32],
    n3: u32,
    m3: u32,
    rows3: &[u32],
    n4: u32,
    m4: u32,
    rows4: &[u32],
    i: u32,
    figures: &mut [u32],
) -> u32
    ensures { FiguresOut (sum_reply count (summand_of n1 m1 rows1.now ∷ summand_of n2 m2 rows2.now
        ∷ summand_of n3 m3 rows3.now ∷ summand_of n4 m4 rows4.now ∷ []) i) figures.old result
        figures.new }
{
    let widths = Widths {
        n1,
        m1,
        n2,
        m2,
        n3,
        m3,
        n4,
        m4,
    };
    if figures.len() != 3 + count as usize {
        let found = rounds::check_sum(count, widths, rows1, rows2, rows3, rows4, i);
        return border::number_for_room(found);
    }
    let answer = rounds::sum_nonlinearity(count, widths, rows1, rows2, rows3, rows4, i);
    giving::give_sum(count, answer, figures)
}

// Checks a catalogue: the number of its records.
pub fn satmegwo_check_catalogue(catalogue: &[u8], figures: &mut [u32]) -> u32
    ensures { FiguresOut (check_reply catalogue.now) figures.old result figures.new }
{
    match catalogue::check(catalogue) {
        Ok(records) => border::give(&[records], figures),
        Err(e) => refusals::number_of(e),
    }
}

// Adds a box file to a catalogue: the index of the new record. The catalogue is written to only where the index can be given too.
pub fn satmegwo_add_record(catalogue: &mut [u8], file: &[u8], figures: &mut [u32]) -> u32
    ensures index { WroteOut (add_record_checks catalogue.old file.now (length figures.old))
        (gap_index (gap_for catalogue.old file.now) ∷ []) figures.old result figures.new }
    ensures records { WroteOut (add_record_checks catalogue.old file.now (length figures.old))
        (added catalogue.old file.now) catalogue.old result catalogue.new }
{
    if figures.len() != 1 { // the index
        return border::number_for_room(catalogue::check_offered(catalogue, file));
    }
    match catalogue::add(catalogue, file) {
        Ok(index) => border::give(&[index], figures),
        Err(e) => refusals::number_of(e),
    }
}

// Removes a record of a catalogue.
pub fn satmegwo_remove_record(catalogue: &mut [u8], index: u32) -> u32
    ensures { WroteOut (index_checks catalogue.old index)
        (removed catalogue.old index) catalogue.old result catalogue.new }
{
    border::status_of(catalogue::remove(catalogue, index))
}

// Where a record of a catalogue lies, and its length.
pub fn satmegwo_fetch_record(catalogue: &[u8], index: u32, figures: &mut [u32]) -> u32
    ensures { FiguresOut (fetch_reply catalogue.now index) figures.old result figures.new }
{
    match catalogue::fetch_status(catalogue, index) {
        Ok(Extent { offset, size }) => border::give(&[offset, size], figures),
        Err(e) => refusals::number_of(e),
    }
}

// Compacts a catalogue.
pub fn satmegwo_compact_catalogue(catalogue: &mut [u8]) -> u32
    ensures { WroteOut (catalogue_checks catalogue.old)
        (compacted catalogue.old) catalogue.old result catalogue.new }
{
    border::status_of(catalogue::compact(catalogue))
}

// The columns of a box, packed for the mask.
pub fn satmegwo_pack_columns(n: u32, m: u32, rows: &[u32], packed: &mut [u8]) -> u32
    ensures { WroteOut (pack_checks n m rows.now (length packed.old))
        (packedForm n m rows.now) packed.old result packed.new }
{
    border::status_of(packing::pack(n, m, rows, packed))
}

// The rows of packed columns.
pub fn satmegwo_unpack_columns(n: u32, m: u32, packed: &[u8], rows: &mut [u32]) -> u32
    ensures { WroteOut (unpack_checks n m packed.now (length rows.old))
        (unpacked n m packed.now) rows.old result rows.new }
{
    border::status_of(packing::unpack(n, m, packed, rows))
}

// The first swap of two unlike rows that raises the nonlinearity over all combinations: 1, both inputs and the new figure, or four zeros
// for "none".
pub fn satmegwo_raising_swap(n: u32, m: u32, rows: &[u32], figures: &mut [u32]) -> u32
    ensures { FiguresOut (raising_reply n m rows.now) figures.old result figures.new }
{
    if figures.len() != 4 { // 1, x, y and the new figure
        return border::number_for_room(refusals::check_box_up_to(8, n, m, rows));
    }
    match swaps::raising_swap(n, m, rows) {
        Ok(Some(Raise { low, high, figure })) => border::give(&[1, low, high, figure], figures),
        Ok(None) => border::give(&[0u32, 0, 0, 0], figures),
        Err(e) => refusals::number_of(e),
    }
}

// The checks 1 to 4 of a box, by themselves.
pub fn satmegwo_check_box(n: u32, m: u32, rows: &[u32]) -> u32
    ensures { result ≡ status (reply_after (first (box_checks n m rows.now)) []) }
{
    match refusals::check_box(n, m, rows) {
        Ok(()) => 0,
        Err(e) => refusals::number_of(e),
    }
}

// Writes the file of a box.
pub fn satmegwo_write_box(n: u32, m: u32, rows: &[u32], file: &mut [u8]) -> u32
    ensures { WroteOut (write_checks n m rows.now (length file.old))
        (file_of n m rows.now) file.old result file.new }
{
    border::status_of(boxfile::write_box(n, m, rows, file))
}

// Writes the sheet of a box file at the start of the text, and how many bytes it has: a refused file has a sheet too. The sheet is made in
// an array whose type says its length, and then copied. Neither array is written to unless both can be.
pub fn satmegwo_sheet(file: &[u8], text: &mut [u8], figures: &mut [u32]) -> u32
    ensures size { WroteOut (sheet_checks (length text.old) (length figures.old))
        (length (sheet_text file.now) ∷ []) figures.old result figures.new }
    ensures text { WroteOut (sheet_checks (length text.old) (length figures.old))
        (sets text.old 0 (sheet_text file.now)) text.old result text.new }
{
    if text.len() != 332 {
        return refusals::number_of(Refusal::WrittenLength);
    }
    let room = figures.len();
    if room != 1 {
        return refusals::number_of(Refusal::WrittenLength);
    }
    let mut made = [0u8; 332];
    let size = sheet::write_sheet(file, &mut made);
    texts::put_bytes(text, 0, &made[..size]);
    border::give(&[size as u32], figures)
}

// The version of the library.
pub fn satmegwo_version() -> u32
    ensures { result ≡ version }
{
    10000
}

// All pairs that differ at as few inputs as the nonlinearity within the limit i says, and how many they are.
pub fn satmegwo_nearest_pairs(
    n: u32,
    m: u32,
    rows: &[u32],
    i: u32,
    list: &mut [u64],
    figures: &mut [u64],
) -> u32
    ensures count { WroteOut (nearest_checks n m rows.now i (length figures.old) (length list.old))
        (length (nearest_pairs n m rows.now i) ∷ []) figures.old result figures.new }
    ensures pairs { WroteOut (nearest_checks n m rows.now i (length figures.old) (length list.old))
        (list_after (nearest_pairs n m rows.now i) list.old) list.old result list.new }
{
    let counts = figures.len();
    if counts != 1 {
        return border::number_for_room(refusals::check_limited(n, m, rows, i));
    }
    match nearest::nearest_pairs(n, m, rows, i, list) {
        Ok(count) => {
            figures[0] = count;
            0
        }
        Err(e) => refusals::number_of(e),
    }
}

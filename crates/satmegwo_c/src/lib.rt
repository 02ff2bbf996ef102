// The calls for C and for everything that speaks C, under their names in include/satmegwo.h. A crate is a library or is linked into C, and
// not both: so the code and its proofs stand in the library `satmegwo`, and each function here hands its arguments to the one of the same
// name there and states its contract again.
#![tactic(auto)]

ghost use Rattle.std.specs.Prelude.{[], ◌∷◌, ◌^◌, ◌≡◌, length};
ghost use Rattle.std.proofs.lemmas.List.Edits.{sets};
ghost use Rattle.boolean.specs.Sums.{list_below};
ghost use Rattle.boolean.specs.Functions.{at, value_at, component, spectrum, inverse, normal_form};
ghost use Rattle.refusals.specs.Table.{table_call_checks, box_checks, first, reply_after};
ghost use Rattle.walsh.specs.Calls.{inverse_checks};
ghost use Rattle.linear.specs.Calls.{component_checks};
ghost use Rattle.linear.specs.Nonlinearity.{nonlinearity_reply};
ghost use Rattle.columns.specs.Addition.{addition_checks, added_rows};
ghost use Rattle.differential.specs.XorTable.{xor_row, largest_cells};
ghost use Rattle.differential.specs.Calls.{row_checks, largest_cell_reply, list_after};
ghost use Rattle.nearest.specs.NearestPairs.{nearest_pairs};
ghost use Rattle.avalanche.specs.Calls.{autocorrelation_reply, distance_reply, complete_reply};
ghost use Rattle.algebraic.specs.Calls.{box_degree_reply, bijective_reply};
ghost use Rattle.constructions.specs.Enlargement.{enlarged_table, enlarged_rows};
ghost use Rattle.constructions.specs.BentForm.{bent_table};
ghost use Rattle.constructions.specs.Calls.{column_checks, enlarge_checks, bent_checks};
ghost use Rattle.boxfile.specs.File.{file_rows, write_checks, file_of};
ghost use Rattle.rounds.specs.Round.{summand_of, sum_reply};
ghost use Rattle.swaps.specs.Swaps.{raising_reply};
ghost use Rattle.border.specs.Border.{WroteOut, FiguresOut, status};
ghost use Rattle.satmegwo.specs.Exports.{cells_checks, read_box_checks, add_record_checks, sheet_checks, version, nearest_checks};
ghost use Rattle.sheet.specs.Sheet.{sheet_text};
ghost use Rattle.catalogue.specs.Calls.{check_reply, fetch_reply, catalogue_checks, index_checks};
ghost use Rattle.catalogue.specs.Calls.{gap_for, gap_index, removed, added, compacted};
ghost use Rattle.packing.specs.Packing.{packed as packedForm, unpacked, pack_checks, unpack_checks};

#[unsafe(no_mangle)]
pub extern "C" fn satmegwo_spectrum(n: u32, table: &[u8], out: &mut [i32]) -> u32
    ensures { WroteOut (table_call_checks n table.now (length out.old))
        (spectrum n (at table.now)) out.old result out.new }
{
    satmegwo::satmegwo_spectrum(n, table, out)
}

#[unsafe(no_mangle)]
pub extern "C" fn satmegwo_inverse_spectrum(n: u32, values: &[i32], table: &mut [u8]) -> u32
    ensures { WroteOut (inverse_checks n values.now (length table.old))
        (list_below (2 ^ n) (λ x. inverse n (value_at values.now) x)) table.old result table.new }
{
    satmegwo::satmegwo_inverse_spectrum(n, values, table)
}

#[unsafe(no_mangle)]
pub extern "C" fn satmegwo_component_spectrum(
    n: u32,
    m: u32,
    rows: &[u32],
    c: u32,
    out: &mut [i32],
) -> u32
    ensures { WroteOut (component_checks n m rows.now c (length out.old))
        (spectrum n (component rows.now c)) out.old result out.new }
{
    satmegwo::satmegwo_component_spectrum(n, m, rows, c, out)
}

#[unsafe(no_mangle)]
pub extern "C" fn satmegwo_nonlinearity(
    n: u32,
    m: u32,
    rows: &[u32],
    i: u32,
    figures: &mut [u32],
) -> u32
    ensures { FiguresOut (nonlinearity_reply n m rows.now i) figures.old result figures.new }
{
    satmegwo::satmegwo_nonlinearity(n, m, rows, i, figures)
}

#[unsafe(no_mangle)]
pub extern "C" fn satmegwo_add_to_column(
    n: u32,
    m: u32,
    rows: &[u32],
    j: u32,
    w: u32,
    b: u32,
    out: &mut [u32],
) -> u32
    ensures { WroteOut (addition_checks n m rows.now j w b (length out.old))
        (added_rows j w b rows.now) out.old result out.new }
{
    satmegwo::satmegwo_add_to_column(n, m, rows, j, w, b, out)
}

#[unsafe(no_mangle)]
pub extern "C" fn satmegwo_xor_row(n: u32, m: u32, rows: &[u32], a: u32, counts: &mut [u16]) -> u32
    ensures { WroteOut (row_checks n m rows.now a (length counts.old))
        (xor_row n m rows.now a) counts.old result counts.new }
{
    satmegwo::satmegwo_xor_row(n, m, rows, a, counts)
}

#[unsafe(no_mangle)]
pub extern "C" fn satmegwo_largest_cell(n: u32, m: u32, rows: &[u32], figures: &mut [u32]) -> u32
    ensures { FiguresOut (largest_cell_reply n m rows.now) figures.old result figures.new }
{
    satmegwo::satmegwo_largest_cell(n, m, rows, figures)
}

#[unsafe(no_mangle)]
pub extern "C" fn satmegwo_largest_cells(
    n: u32,
    m: u32,
    rows: &[u32],
    list: &mut [u64],
    figures: &mut [u32],
) -> u32
    ensures count { WroteOut (cells_checks n m rows.now (length figures.old) (length list.old))
        (length (largest_cells n m rows.now) ∷ []) figures.old result figures.new }
    ensures cells { WroteOut (cells_checks n m rows.now (length figures.old) (length list.old))
        (list_after (largest_cells n m rows.now) list.old) list.old result list.new }
{
    satmegwo::satmegwo_largest_cells(n, m, rows, list, figures)
}

#[unsafe(no_mangle)]
pub extern "C" fn satmegwo_autocorrelation(
    n: u32,
    m: u32,
    rows: &[u32],
    i: u32,
    figures: &mut [u32],
) -> u32
    ensures { FiguresOut (autocorrelation_reply n m rows.now i) figures.old result figures.new }
{
    satmegwo::satmegwo_autocorrelation(n, m, rows, i, figures)
}

#[unsafe(no_mangle)]
pub extern "C" fn satmegwo_dynamic_distance(
    n: u32,
    m: u32,
    rows: &[u32],
    i: u32,
    j: u32,
    figures: &mut [u32],
) -> u32
    ensures { FiguresOut (distance_reply n m rows.now i j) figures.old result figures.new }
{
    satmegwo::satmegwo_dynamic_distance(n, m, rows, i, j, figures)
}

#[unsafe(no_mangle)]
pub extern "C" fn satmegwo_normal_form(n: u32, table: &[u8], out: &mut [u8]) -> u32
    ensures { WroteOut (table_call_checks n table.now (length out.old))
        (normal_form n (at table.now)) out.old result out.new }
{
    satmegwo::satmegwo_normal_form(n, table, out)
}

#[unsafe(no_mangle)]
pub extern "C" fn satmegwo_degree(n: u32, m: u32, rows: &[u32], i: u32, figures: &mut [u32]) -> u32
    ensures { FiguresOut (box_degree_reply n m rows.now i) figures.old result figures.new }
{
    satmegwo::satmegwo_degree(n, m, rows, i, figures)
}

#[unsafe(no_mangle)]
pub extern "C" fn satmegwo_complete(n: u32, m: u32, rows: &[u32], figures: &mut [u32]) -> u32
    ensures { FiguresOut (complete_reply n m rows.now) figures.old result figures.new }
{
    satmegwo::satmegwo_complete(n, m, rows, figures)
}

#[unsafe(no_mangle)]
pub extern "C" fn satmegwo_bijective(n: u32, m: u32, rows: &[u32], figures: &mut [u32]) -> u32
    ensures { FiguresOut (bijective_reply n m rows.now) figures.old result figures.new }
{
    satmegwo::satmegwo_bijective(n, m, rows, figures)
}

#[unsafe(no_mangle)]
pub extern "C" fn satmegwo_enlarge_column(
    n: u32,
    table: &[u8],
    k: u32,
    a: u32,
    out: &mut [u8],
) -> u32
    ensures { WroteOut (column_checks n table.now k a (length out.old))
        (enlarged_table n table.now k a) out.old result out.new }
{
    satmegwo::satmegwo_enlarge_column(n, table, k, a, out)
}

#[unsafe(no_mangle)]
pub extern "C" fn satmegwo_enlarge_box(
    n: u32,
    rows: &[u32],
    table: &[u8],
    k: u32,
    out: &mut [u32],
) -> u32
    ensures { WroteOut (enlarge_checks n rows.now table.now k (length out.old))
        (enlarged_rows n rows.now table.now k) out.old result out.new }
{
    satmegwo::satmegwo_enlarge_box(n, rows, table, k, out)
}

#[unsafe(no_mangle)]
pub extern "C" fn satmegwo_bent_function(
    n: u32,
    permutation: &[u8],
    table: &[u8],
    out: &mut [u8],
) -> u32
    ensures { WroteOut (bent_checks n permutation.now table.now (length out.old))
        (bent_table n permutation.now table.now) out.old result out.new }
{
    satmegwo::satmegwo_bent_function(n, permutation, table, out)
}

#[unsafe(no_mangle)]
pub extern "C" fn satmegwo_read_box(file: &[u8], rows: &mut [u32], figures: &mut [u32]) -> u32
    ensures widths { WroteOut (read_box_checks file.now (length rows.old) (length figures.old))
        (at file.now 0 ∷ at file.now 1 ∷ []) figures.old result figures.new }
    ensures rows { WroteOut (read_box_checks file.now (length rows.old) (length figures.old))
        (file_rows file.now (at file.now 0)) rows.old result rows.new }
{
    satmegwo::satmegwo_read_box(file, rows, figures)
}

#[unsafe(no_mangle)]
pub extern "C" fn satmegwo_sum_nonlinearity(
    count: u32,
    n1: u32,
    m1: u32,
    rows1: &[u32],
    n2: u32,
    m2: u32,
    rows2: &[u32],
    n3: u32,
    m3: u32,
    rows3: &[u32],
    n4: u32,
    m4: u32,
    rows4: &[u32],
    i: u32,
    figures: &mut [u32],
) -> u32
    ensures { FiguresOut (sum_reply count (summand_of n1 m1 rows1.now ∷ summand_of n2 m2 rows2.now
        ∷ summand_of n3 m3 rows3.now ∷ summand_of n4 m4 rows4.now ∷ []) i) figures.old result
        figures.new }
{
    satmegwo::satmegwo_sum_nonlinearity(
        count, n1, m1, rows1, n2, m2, rows2, n3, m3, rows3, n4, m4, rows4, i, figures,
    )
}

#[unsafe(no_mangle)]
pub extern "C" fn satmegwo_check_catalogue(catalogue: &[u8], figures: &mut [u32]) -> u32
    ensures { FiguresOut (check_reply catalogue.now) figures.old result figures.new }
{
    satmegwo::satmegwo_check_catalogue(catalogue, figures)
}

#[unsafe(no_mangle)]
pub extern "C" fn satmegwo_add_record(catalogue: &mut [u8], file: &[u8], figures: &mut [u32]) -> u32
    ensures index { WroteOut (add_record_checks catalogue.old file.now (length figures.old))
        (gap_index (gap_for catalogue.old file.now) ∷ []) figures.old result figures.new }
    ensures records { WroteOut (add_record_checks catalogue.old file.now (length figures.old))
        (added catalogue.old file.now) catalogue.old result catalogue.new }
{
    satmegwo::satmegwo_add_record(catalogue, file, figures)
}

#[unsafe(no_mangle)]
pub extern "C" fn satmegwo_remove_record(catalogue: &mut [u8], index: u32) -> u32
    ensures { WroteOut (index_checks catalogue.old index)
        (removed catalogue.old index) catalogue.old result catalogue.new }
{
    satmegwo::satmegwo_remove_record(catalogue, index)
}

#[unsafe(no_mangle)]
pub extern "C" fn satmegwo_fetch_record(catalogue: &[u8], index: u32, figures: &mut [u32]) -> u32
    ensures { FiguresOut (fetch_reply catalogue.now index) figures.old result figures.new }
{
    satmegwo::satmegwo_fetch_record(catalogue, index, figures)
}

#[unsafe(no_mangle)]
pub extern "C" fn satmegwo_compact_catalogue(catalogue: &mut [u8]) -> u32
    ensures { WroteOut (catalogue_checks catalogue.old)
        (compacted catalogue.old) catalogue.old result catalogue.new }
{
    satmegwo::satmegwo_compact_catalogue(catalogue)
}

#[unsafe(no_mangle)]
pub extern "C" fn satmegwo_pack_columns(n: u32, m: u32, rows: &[u32], packed: &mut [u8]) -> u32
    ensures { WroteOut (pack_checks n m rows.now (length packed.old))
        (packedForm n m rows.now) packed.old result packed.new }
{
    satmegwo::satmegwo_pack_columns(n, m, rows, packed)
}

#[unsafe(no_mangle)]
pub extern "C" fn satmegwo_unpack_columns(n: u32, m: u32, packed: &[u8], rows: &mut [u32]) -> u32
    ensures { WroteOut (unpack_checks n m packed.now (length rows.old))
        (unpacked n m packed.now) rows.old result rows.new }
{
    satmegwo::satmegwo_unpack_columns(n, m, packed, rows)
}

#[unsafe(no_mangle)]
pub extern "C" fn satmegwo_raising_swap(n: u32, m: u32, rows: &[u32], figures: &mut [u32]) -> u32
    ensures { FiguresOut (raising_reply n m rows.now) figures.old result figures.new }
{
    satmegwo::satmegwo_raising_swap(n, m, rows, figures)
}

#[unsafe(no_mangle)]
pub extern "C" fn satmegwo_check_box(n: u32, m: u32, rows: &[u32]) -> u32
    ensures { result ≡ status (reply_after (first (box_checks n m rows.now)) []) }
{
    satmegwo::satmegwo_check_box(n, m, rows)
}

#[unsafe(no_mangle)]
pub extern "C" fn satmegwo_write_box(n: u32, m: u32, rows: &[u32], file: &mut [u8]) -> u32
    ensures { WroteOut (write_checks n m rows.now (length file.old))
        (file_of n m rows.now) file.old result file.new }
{
    satmegwo::satmegwo_write_box(n, m, rows, file)
}

#[unsafe(no_mangle)]
pub extern "C" fn satmegwo_sheet(file: &[u8], text: &mut [u8], figures: &mut [u32]) -> u32
    ensures size { WroteOut (sheet_checks (length text.old) (length figures.old))
        (length (sheet_text file.now) ∷ []) figures.old result figures.new }
    ensures text { WroteOut (sheet_checks (length text.old) (length figures.old))
        (sets text.old 0 (sheet_text file.now)) text.old result text.new }
{
    satmegwo::satmegwo_sheet(file, text, figures)
}

#[unsafe(no_mangle)]
pub extern "C" fn satmegwo_version() -> u32
    ensures { result ≡ version }
{
    satmegwo::satmegwo_version()
}

#[unsafe(no_mangle)]
pub extern "C" fn satmegwo_nearest_pairs(
    n: u32,
    m: u32,
    rows: &[u32],
    i: u32,
    list: &mut [u64],
    figures: &mut [u64],
) -> u32
    ensures count { WroteOut (nearest_checks n m rows.now i (length figures.old) (length list.old))
        (length (nearest_pairs n m rows.now i) ∷ []) figures.old result figures.new }
    ensures pairs { WroteOut (nearest_checks n m rows.now i (length figures.old) (length list.old))
        (list_after (nearest_pairs n m rows.now i) list.old) list.old result list.new }
{
    satmegwo::satmegwo_nearest_pairs(n, m, rows, i, list, figures)
}

// The calls on a part of the combinations for C and for everything that speaks C, under their names in include/satmegwo_parts.h. A crate
// is a library or is linked into C, and not both: so the code and its proofs stand in the library `satmegwo_parts`, and each function here
// hands its arguments to the one of the same name there and states its contract again.
#![tactic(auto)]

ghost use Rattle.std.specs.Prelude.{ltb, length, [], ◌∷◌};
ghost use Rattle.masks.specs.Parts.{above};
ghost use Rattle.linear.specs.Nonlinearity.{nonlinearity_between_reply};
ghost use Rattle.avalanche.specs.Parts.{autocorrelation_between_reply, distance_between_reply};
ghost use Rattle.rounds.specs.Round.{summand_of, sum_between_reply};
ghost use Rattle.border.specs.Border.{FiguresOut, WroteOut};
ghost use Rattle.satmegwo_parts.specs.Exports.{flagged, sum_size, merged_part, merge_checks};

#[unsafe(no_mangle)]
pub extern "C" fn satmegwo_nonlinearity_between(
    n: u32,
    m: u32,
    rows: &[u32],
    i: u32,
    first: u32,
    last: u32,
    part: &mut [u32],
) -> u32
    ensures { FiguresOut (flagged 5 (nonlinearity_between_reply n m rows.now i first last)) part.old result
        part.new }
{
    satmegwo_parts::satmegwo_nonlinearity_between(n, m, rows, i, first, last, part)
}

#[unsafe(no_mangle)]
pub extern "C" fn satmegwo_autocorrelation_between(
    n: u32,
    m: u32,
    rows: &[u32],
    i: u32,
    first: u32,
    last: u32,
    part: &mut [u32],
) -> u32
    ensures { FiguresOut (flagged 4 (autocorrelation_between_reply n m rows.now i first last)) part.old result
        part.new }
{
    satmegwo_parts::satmegwo_autocorrelation_between(n, m, rows, i, first, last, part)
}

#[unsafe(no_mangle)]
pub extern "C" fn satmegwo_dynamic_distance_between(
    n: u32,
    m: u32,
    rows: &[u32],
    i: u32,
    j: u32,
    first: u32,
    last: u32,
    part: &mut [u32],
) -> u32
    ensures { FiguresOut (flagged 4 (distance_between_reply n m rows.now i j first last)) part.old result
        part.new }
{
    satmegwo_parts::satmegwo_dynamic_distance_between(n, m, rows, i, j, first, last, part)
}

#[unsafe(no_mangle)]
pub extern "C" fn satmegwo_sum_nonlinearity_between(
    count: u32,
    n1: u32,
    m1: u32,
    rows1: &[u32],
    n2: u32,
    m2: u32,
    rows2: &[u32],
    n3: u32,
    m3: u32,
    rows3: &[u32],
    n4: u32,
    m4: u32,
    rows4: &[u32],
    i: u32,
    first: u32,
    last: u32,
    part: &mut [u32],
) -> u32
    ensures { FiguresOut (flagged (sum_size count) (sum_between_reply count (summand_of n1 m1 rows1.now
        ∷ summand_of n2 m2 rows2.now ∷ summand_of n3 m3 rows3.now ∷ summand_of n4 m4 rows4.now ∷ [])
        i first last)) part.old result part.new }
{
    satmegwo_parts::satmegwo_sum_nonlinearity_between(
        count, n1, m1, rows1, n2, m2, rows2, n3, m3, rows3, n4, m4, rows4, i, first, last, part,
    )
}

#[unsafe(no_mangle)]
pub extern "C" fn satmegwo_merge_least(x: &[u32], y: &[u32], merged: &mut [u32]) -> u32
    ensures { WroteOut (merge_checks x.now y.now (length merged.old))
        (merged_part ltb x.now y.now) merged.old result merged.new }
{
    satmegwo_parts::satmegwo_merge_least(x, y, merged)
}

#[unsafe(no_mangle)]
pub extern "C" fn satmegwo_merge_largest(x: &[u32], y: &[u32], merged: &mut [u32]) -> u32
    ensures { WroteOut (merge_checks x.now y.now (length merged.old))
        (merged_part above x.now y.now) merged.old result merged.new }
{
    satmegwo_parts::satmegwo_merge_largest(x, y, merged)
}

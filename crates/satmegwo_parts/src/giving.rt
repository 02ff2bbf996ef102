// What is found over a part, in an array for C: 1, the figure and its witness; zeros where there is no combination; or the number of a
// refusal.
ghost use Rattle.std.specs.Prelude.{[], ◌∷◌, ◌++◌, take};
ghost use Rattle.refusals.specs.Table.{figures as given};
ghost use Rattle.linear.specs.Parts.{said_part};
ghost use Rattle.avalanche.specs.Parts.{said_part_change};
ghost use Rattle.rounds.specs.Parts.{said_part_sum};
ghost use Rattle.border.specs.Border.{FiguresOut};
ghost use Rattle.satmegwo_parts.specs.Exports.{flagged, sum_size};

use avalanche::FoundChange;
use linear::Found;
use refusals::Refusal;
use rounds::NearestSum;

// The nearest pair of a part: the count, c, w and b.
#[tactic(auto, unfolding(crate::specs::Exports::flagged, crate::specs::Exports::part_figures))]
pub fn give_pair(answer: Result<Option<Found>, Refusal>, part: &mut [u32]) -> u32
    ensures { FiguresOut (flagged 5 (said_part answer)) part.old result part.new }
{
    match answer {
        Ok(Some(Found { count, c, w, b })) => border::give(&[1, count, c, w, b], part),
        Ok(None) => border::give(&[0, 0, 0, 0, 0], part),
        Err(e) => refusals::number_of(e),
    }
}

// The largest change of a part: the figure, c and the input change.
#[tactic(auto, unfolding(crate::specs::Exports::flagged, crate::specs::Exports::part_figures))]
pub fn give_change(answer: Result<Option<FoundChange>, Refusal>, part: &mut [u32]) -> u32
    ensures { FiguresOut (flagged 4 (said_part_change answer)) part.old result part.new }
{
    match answer {
        Ok(Some(FoundChange { figure, c, s })) => border::give(&[1, figure, c, s], part),
        Ok(None) => border::give(&[0, 0, 0, 0], part),
        Err(e) => refusals::number_of(e),
    }
}

// A flag and the figures of a sum of `count` boxes: a mask for each of them, and b last.
fn give_masks(
    count: u32,
    flag: u32,
    figure: u32,
    c: u32,
    w1: u32,
    w2: u32,
    w3: u32,
    w4: u32,
    b: u32,
    part: &mut [u32],
) -> u32
    ensures { FiguresOut (given (flag ∷ figure ∷ c ∷ (take count (w1 ∷ w2 ∷ w3 ∷ w4 ∷ []) ++ (b ∷ []))))
        part.old result part.new }
{
    match count {
        0 => border::give(&[flag, figure, c, b], part),
        1 => border::give(&[flag, figure, c, w1, b], part),
        2 => border::give(&[flag, figure, c, w1, w2, b], part),
        3 => border::give(&[flag, figure, c, w1, w2, w3, b], part),
        _ => border::give(&[flag, figure, c, w1, w2, w3, w4, b], part),
    }
}

// The nearest pair of a part of a sum of so many boxes.
#[tactic(auto, unfolding(crate::specs::Exports::flagged, crate::specs::Exports::part_figures))]
pub fn give_sum(count: u32, answer: Result<Option<NearestSum>, Refusal>, part: &mut [u32]) -> u32
    ensures { FiguresOut (flagged (sum_size count) (said_part_sum count answer)) part.old result part.new }
{
    match answer {
        Ok(
            Some(
                NearestSum {
                    figure,
                    c,
                    w1,
                    w2,
                    w3,
                    w4,
                    b,
                },
            ),
        ) => { give_masks(count, 1, figure, c, w1, w2, w3, w4, b, part) }
        Ok(None) => give_masks(count, 0, 0, 0, 0, 0, 0, 0, 0, part),
        Err(e) => refusals::number_of(e),
    }
}

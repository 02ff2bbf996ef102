// The figures of answers that more than one export gives, and of a sum, whose masks are as many as its boxes; or the number of a refusal.
ghost use Rattle.std.specs.Prelude.{[], ◌∷◌, ◌++◌, ◌≤◌, length};
ghost use Rattle.refusals.specs.Table.{said_verdict, figures as given};
ghost use Rattle.avalanche.specs.Calls.{said_largest_change};
ghost use Rattle.rounds.specs.Calls.{said_least_sum};
ghost use Rattle.border.specs.Border.{FiguresOut};

use avalanche::FoundChange;
use refusals::Refusal;
use rounds::NearestSum;

// The largest change: the figure, c and the input change.
pub fn give_change(answer: Result<FoundChange, Refusal>, figures: &mut [u32]) -> u32
    ensures { FiguresOut (said_largest_change answer) figures.old result figures.new }
{
    match answer {
        Ok(FoundChange { figure, c, s }) => border::give(&[figure, c, s], figures),
        Err(e) => refusals::number_of(e),
    }
}

// Yes is 1, and no is 0.
pub fn give_verdict(answer: Result<bool, Refusal>, figures: &mut [u32]) -> u32
    ensures { FiguresOut (said_verdict answer) figures.old result figures.new }
{
    match answer {
        Ok(true) => border::give(&[1u32], figures),
        Ok(false) => border::give(&[0u32], figures),
        Err(e) => refusals::number_of(e),
    }
}

// The figures of a sum: a mask for each of its boxes, and b last.
fn give_masks(figure: u32, c: u32, masks: &[u32], b: u32, figures: &mut [u32]) -> u32
    requires { length masks.now ≤ 4 }
    ensures { FiguresOut (given (figure ∷ c ∷ (masks.now ++ (b ∷ [])))) figures.old result figures.new }
{
    let last = 2 + masks.len();
    let mut all = [figure, c, 0, 0, 0, 0, 0];
    all[2..last].copy_from_slice(masks);
    all[last] = b;
    border::give(&all[..last + 1], figures)
}

// The nearest pair of a sum of so many boxes.
pub fn give_sum(count: u32, answer: Result<NearestSum, Refusal>, figures: &mut [u32]) -> u32
    ensures { FiguresOut (said_least_sum count answer) figures.old result figures.new }
{
    match answer {
        Ok(sum) => {
            let masks = [sum.w1, sum.w2, sum.w3, sum.w4];
            give_masks(
                sum.figure,
                sum.c,
                &masks[..count.min(4) as usize],
                sum.b,
                figures,
            )
        }
        Err(e) => refusals::number_of(e),
    }
}

// The calls on a design, for C and for everything that speaks C. A design goes into each operation by value, and comes out of it beside 0
// or the number of a refusal. Any bytes may be handed in as a design: no call reads anything outside it. The contracts are those of the
// crate `design`, with what the number says in place of the answer.
#![tactic(auto)]

ghost use Rattle.std.specs.Prelude.{◌≡◌};
ghost use Rattle.refusals.specs.Table.{said_written};
ghost use Rattle.design.specs.Calls.{DesignBegun, DesignSwapped, DesignAdded, DesignMarked, DesignReturned};
ghost use Rattle.satmegwo_design.specs.Exports.{number_says, ReadOut};

use design::{Design, Tuned};
use refusals::{BoxWidths, Refusal};

// The design after an operation, with 0 or the number of the refusal.
#[repr(C)]
#[derive(Clone, Copy)]
pub struct Outcome {
    pub design: Design,
    pub status: u32,
}

// An operation's answer as a number.
#[tactic(auto, using(crate::proofs::Numbers::says_answer))]
fn numbered(tuned: Tuned) -> Outcome
    ensures { (result.design ≡ tuned.design) × (number_says result.status ≡ said_written tuned.answer) }
{
    let design = tuned.design;
    let answer = tuned.answer;
    let status = border::status_of(answer);
    Outcome { design, status }
}

// A design of this box, with no mark set. Refused, it is a design without a box.
pub fn satmegwo_design_begin(n: u32, m: u32, rows: &[u32]) -> Outcome
    ensures { DesignBegun n m rows.now (number_says result.status) result.design }
{
    numbered(Design::begin(n, m, rows))
}

// Exchanges the rows of inputs x and y.
pub fn satmegwo_design_swap(design: Design, x: u32, y: u32) -> Outcome
    ensures { DesignSwapped design x y (number_says result.status) result.design }
{
    numbered(design.swap(x, y))
}

// Adds the affine function (w, b) to column j.
pub fn satmegwo_design_add(design: Design, j: u32, w: u32, b: u32) -> Outcome
    ensures { DesignAdded design j w b (number_says result.status) result.design }
{
    numbered(design.add(j, w, b))
}

// Sets mark k: it keeps the box of this moment.
pub fn satmegwo_design_mark(design: Design, k: u32) -> Outcome
    ensures { DesignMarked design k (number_says result.status) result.design }
{
    numbered(design.mark(k))
}

// Brings back the box of mark k; all marks remain.
pub fn satmegwo_design_return(design: Design, k: u32) -> Outcome
    ensures { DesignReturned design k (number_says result.status) result.design }
{
    numbered(design.return_to(k))
}

// Reads the box: the rows go to one array, n and m to another. Neither is written to unless both can be.
pub fn satmegwo_design_read(design: Design, rows: &mut [u32], figures: &mut [u32]) -> u32
    ensures { ReadOut design rows.old figures.old result rows.new figures.new }
{
    if figures.len() != 2 {
        return refusals::number_of(Refusal::WrittenLength);
    }
    match design.read_box(rows) {
        Ok(BoxWidths { n, m }) => border::give(&[n, m], figures),
        Err(e) => refusals::number_of(e),
    }
}

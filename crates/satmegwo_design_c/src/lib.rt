// The calls on a design for C and for everything that speaks C, under their names in include/satmegwo_design.h. A crate is a library or is
// linked into C, and not both: so the code and its proofs stand in the library `satmegwo_design`, and each function here hands its
// arguments to the one of the same name there and states its contract again.
#![tactic(auto)]

ghost use Rattle.design.specs.Calls.{DesignBegun, DesignSwapped, DesignAdded, DesignMarked, DesignReturned};
ghost use Rattle.satmegwo_design.specs.Exports.{number_says, ReadOut};

use design::Design;
use satmegwo_design::Outcome;

#[unsafe(no_mangle)]
pub extern "C" fn satmegwo_design_begin(n: u32, m: u32, rows: &[u32]) -> Outcome
    ensures { DesignBegun n m rows.now (number_says result.status) result.design }
{
    satmegwo_design::satmegwo_design_begin(n, m, rows)
}

#[unsafe(no_mangle)]
pub extern "C" fn satmegwo_design_swap(design: Design, x: u32, y: u32) -> Outcome
    ensures { DesignSwapped design x y (number_says result.status) result.design }
{
    satmegwo_design::satmegwo_design_swap(design, x, y)
}

#[unsafe(no_mangle)]
pub extern "C" fn satmegwo_design_add(design: Design, j: u32, w: u32, b: u32) -> Outcome
    ensures { DesignAdded design j w b (number_says result.status) result.design }
{
    satmegwo_design::satmegwo_design_add(design, j, w, b)
}

#[unsafe(no_mangle)]
pub extern "C" fn satmegwo_design_mark(design: Design, k: u32) -> Outcome
    ensures { DesignMarked design k (number_says result.status) result.design }
{
    satmegwo_design::satmegwo_design_mark(design, k)
}

#[unsafe(no_mangle)]
pub extern "C" fn satmegwo_design_return(design: Design, k: u32) -> Outcome
    ensures { DesignReturned design k (number_says result.status) result.design }
{
    satmegwo_design::satmegwo_design_return(design, k)
}

#[unsafe(no_mangle)]
pub extern "C" fn satmegwo_design_read(design: Design, rows: &mut [u32], figures: &mut [u32]) -> u32
    ensures { ReadOut design rows.old figures.old result rows.new figures.new }
{
    satmegwo_design::satmegwo_design_read(design, rows, figures)
}

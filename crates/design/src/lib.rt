// A design: one box that is tuned by swaps and column additions, with sixteen marks to go back to. It goes into each operation and comes
// out of it as a whole. What a call does with a design that its own calls made is settled, every field of it; any other one is safe to call
// with. The contract of each call is a record of specs/Calls, which the theorems on histories take as it stands.
#![tactic(auto)]

ghost use Rattle.std.specs.Prelude.{◌≡◌, Err};
ghost use Rattle.refusals.specs.Table.{said_written};
ghost use Rattle.design.specs.Model as model;
ghost use Rattle.design.specs.Calls.{snapshot_of, said_box_held, DesignBegun, DesignSwapped};
ghost use Rattle.design.specs.Calls.{DesignAdded, DesignMarked, DesignReturned, DesignRead};

use refusals::{BoxWidths, Refusal};

// A mark: 1 and the rows of the moment when it was last set, or zeros where it was never set. A caller in C may hand in any number, so it
// is no bool.
#[repr(C)]
#[derive(Clone, Copy)]
pub struct Snapshot {
    // kept: a number, since C hands the struct in (the C interface)
    pub taken: u32,
    pub rows: [u32; 256],
}

// One box, its rows at the start of the array, and the marks 1 to 16.
#[repr(C)]
#[derive(Clone, Copy)]
pub struct Design {
    pub n: u32,
    pub m: u32,
    pub rows: [u32; 256],
    pub marks: [Snapshot; 16],
}

// The design after an operation, with the operation's answer.
#[derive(Clone, Copy)]
pub struct Tuned {
    pub design: Design,
    pub answer: Result<(), Refusal>,
}

// A mark that was never set.
fn unset() -> Snapshot
    ensures { result ≡ snapshot_of model.unset }
{
    let rows = [0u32; 256];
    Snapshot { taken: 0, rows }
}

// A refused call hands the design back beside the number.
fn declined(design: Design, e: Refusal) -> Tuned
    ensures { (result.design ≡ design) × (result.answer ≡ Err e) }
{
    let answer = Err(e);
    Tuned { design, answer }
}

impl Design {
    // A design of this box, with no mark set. Refused, it is a design without a box.
    pub fn begin(n: u32, m: u32, rows: &[u32]) -> Tuned
        ensures { DesignBegun n m rows.now (said_written result.answer) result.design }
    {
        let none = unset();
        let marks = [none; 16];
        let mut held = [0u32; 256];
        if let Err(e) = refusals::check_box(n, m, rows) {
            let design = Design {
                n: 0,
                m: 0,
                rows: held,
                marks,
            };
            return declined(design, e);
        }
        held[..rows.len()].copy_from_slice(rows);
        let design = Design {
            n,
            m,
            rows: held,
            marks,
        };
        let answer = Ok(());
        Tuned { design, answer }
    }

    // Exchanges the rows of inputs x and y.
    pub fn swap(self, x: u32, y: u32) -> Tuned
        ensures { DesignSwapped self x y (said_written result.answer) result.design }
    {
        let n = self.n;
        if !refusals::in_range(1, 8, n) {
            // no box: there are no rows to exchange
            return declined(self, Refusal::Parameter);
        }
        let size = boolean::power_of_two(n);
        let i = x as usize;
        let j = y as usize;
        if size <= i {
            return declined(self, Refusal::Parameter);
        }
        if size <= j {
            return declined(self, Refusal::Parameter);
        }
        let m = self.m;
        let marks = self.marks;
        let mut rows = self.rows;
        let here = rows[i];
        let there = rows[j];
        rows[i] = there;
        rows[j] = here;
        let design = Design { n, m, rows, marks };
        let answer = Ok(());
        Tuned { design, answer }
    }

    // Adds the affine function (w, b) to column j.
    pub fn add(self, j: u32, w: u32, b: u32) -> Tuned
        ensures { DesignAdded self j w b (said_written result.answer) result.design }
    {
        let n = self.n;
        let old = self.rows;
        let all = &old[..];
        if !refusals::in_range(1, 8, n) {
            // no box: there is no column to add to
            return declined(self, Refusal::Parameter);
        }
        let size = boolean::power_of_two(n);
        let mut rows = [0u32; 256];
        let added = columns::add_to_column(n, self.m, &all[..size], j, w, b, &mut rows[..size]);
        if let Err(e) = added {
            return declined(self, e);
        }
        let mut design = self;
        design.rows = rows;
        let answer = Ok(());
        Tuned { design, answer }
    }

    // Sets mark k: it keeps the box of this moment.
    pub fn mark(self, k: u32) -> Tuned
        ensures { DesignMarked self k (said_written result.answer) result.design }
    {
        if !refusals::in_range(1, 8, self.n) {
            // no box: there is nothing to keep
            return declined(self, Refusal::Parameter);
        }
        if !refusals::in_range(1, 16, k) {
            // there is no such mark to set
            return declined(self, Refusal::Parameter);
        }
        let i = (k - 1) as usize;
        let rows = self.rows;
        let mut design = self;
        design.marks[i] = Snapshot { taken: 1, rows };
        let answer = Ok(());
        Tuned { design, answer }
    }

    // Brings back the box of mark k; all marks remain. (`return` alone is a word of the language.)
    pub fn return_to(self, k: u32) -> Tuned
        ensures { DesignReturned self k (said_written result.answer) result.design }
    {
        if !refusals::in_range(1, 8, self.n) {
            // no box: no mark was set in it
            return declined(self, Refusal::Parameter);
        }
        if !refusals::in_range(1, 16, k) {
            return declined(self, Refusal::Parameter);
        }
        let place = (k - 1) as usize;
        let here = self.marks[place];
        if here.taken != 1 {
            return declined(self, Refusal::UnsetMark);
        }
        let rows = here.rows;
        let mut design = self;
        design.rows = rows;
        let answer = Ok(());
        Tuned { design, answer }
    }

    // The box: n and m are the answer, and the rows go to a lent array.
    pub fn read_box(self, rows: &mut [u32]) -> Result<BoxWidths, Refusal>
        ensures { DesignRead self rows.old (said_box_held result) rows.new }
    {
        let n = self.n;
        let held = self.rows;
        let all = &held[..];
        if !refusals::in_range(1, 8, n) {
            // no box: there is nothing to read
            return Err(Refusal::WrittenLength);
        }
        let size = boolean::power_of_two(n);
        if rows.len() != size {
            return Err(Refusal::WrittenLength);
        }
        rows.copy_from_slice(&all[..size]);
        Ok(BoxWidths { n, m: self.m })
    }
}

// The evaluation server: up to eight boxes under analysis for their nonlinearity, one combination a step.
#![tactic(auto)]

ghost use Rattle.std.specs.Prelude.{Err, ◌≡◌, [], ◌∷◌, true, ◌^◌, ◌≤◌, ◌<◌, length};
ghost use Rattle.boolean.specs.Sums.{AnyContent};
ghost use Rattle.boolean.specs.Selection.{best, lower, first_least, ranked};
ghost use Rattle.refusals.specs.Table.{Box, first, said_written};
ghost use Rattle.walsh.specs.FixedTable.{Spectra};
ghost use Rattle.masks.specs.Masks.{outputs};
ghost use Rattle.linear.specs.Nonlinearity.{pairs_of};
ghost use Rattle.linear.specs.Lent.{PairsSwept};
ghost use Rattle.linear.specs.Calls.{pair_candidate};
ghost use Rattle.server.specs.Model as model;
ghost use Rattle.server.specs.Calls.{spot_in, state_of_server, said_asked, found_of, place_of, replaced, better};
ghost use Rattle.server.specs.Calls.{one_more_place, ServerBegan, ServerPut, ServerWithdrew, ServerTold, ServerStepped, ServerRan};
ghost use Rattle.server.specs.Work.{Waiting, turn};

use linear::Found;
use refusals::Refusal;

// A place: a box with the number of its combinations that were examined and the best pair among exactly those, or, where `taken` is not
// 1, none. A caller in C may hand in any number, so it is no bool.
#[repr(C)]
#[derive(Clone, Copy)]
pub struct Place {
    // kept: a number, since C hands the struct in (the C interface)
    pub taken: u32,
    pub n: u32,
    pub m: u32,
    pub rows: [u32; 256],
    pub examined: u32,
    pub found: Found,
}

// The eight places, and the one last served: 0 before the first step.
#[repr(C)]
#[derive(Clone, Copy)]
pub struct Server {
    pub places: [Place; 8],
    pub last: u32,
}

// The server after a call, with the call's answer.
#[derive(Clone, Copy)]
pub struct Served {
    pub server: Server,
    pub answer: Result<(), Refusal>,
}

// An empty place.
fn vacant() -> Place
    ensures { result ≡ place_of model.empty }
{
    let found = Found {
        count: 0,
        c: 0,
        w: 0,
        b: 0,
    };
    let none = 0;
    let rows = [0u32; 256];
    Place {
        taken: none,
        n: none,
        m: none,
        rows,
        examined: none,
        found,
    }
}

// Whether a box stands there of which a combination is left. A server that was made up may hold widths that no box has here: it is not
// served for them, so that every server is soon done.
fn unfinished(p: Place) -> bool
    ensures { result ≡ model.unfinished (spot_in p) }
{
    if p.taken != 1 {
        return false;
    }
    if !refusals::in_range(1, 8, p.n) {
        return false;
    }
    let m = p.m;
    if !refusals::in_range(1, 16, m) {
        return false;
    }
    let masks = boolean::power_of_two(m) as u32;
    p.examined < masks - 1
}

// A refused call hands the server back beside the number.
fn declined(server: Server, e: Refusal) -> Served
    ensures { (result.server ≡ server) × (result.answer ≡ Err e) }
{
    let answer = Err(e);
    Served { server, answer }
}

// A box of which no combination was examined, with a count that no pair has.
fn fresh(n: u32, m: u32, rows: &[u32]) -> Place
    requires { Box n m rows.now }
    ensures { result ≡ place_of (model.holds (model.analysis_of n m rows.now 0)) }
{
    let found = Found {
        count: rows.len() as u32 + 1,
        c: 0,
        w: 0,
        b: 0,
    };
    let mut kept = [0u32; 256];
    kept[..rows.len()].copy_from_slice(rows);
    Place {
        taken: 1,
        n,
        m,
        rows: kept,
        examined: 0,
        found,
    }
}

// The best pair so far, or the first nearest pair of component c, in arrays that are lent. Its largest magnitude says whether its pair is
// taken: only then is its spectrum made.
fn with_arrays(
    found: Found,
    fixed: &[i16; 2048],
    n: u32,
    m: u32,
    rows: &[u32],
    c: u32,
    table: &mut [u8],
    work: &mut [i16],
    values: &mut [i32],
) -> Found
    requires { PairsSwept n m rows.now table.old work.old × Spectra fixed.now × (length values.old ≡ 2 ^ n) }
    ensures pair { pair_candidate result ≡ best (ranked lower outputs) (pair_candidate found) (first_least (pairs_of n rows.now c) ∷ []) }
    ensures arrays { AnyContent table.old table.new × AnyContent work.old work.new
        × AnyContent values.old values.new }
{
    let largest = linear::component_peak(fixed, n, m, rows, c, table, work);
    linear::with_peak(fixed, found, n, m, rows, c, largest, table, values)
}

// The better of the best pair so far and the first nearest pair of component c. What is no box is left alone: a server that was not made
// by its calls may hold anything.
fn with_component(fixed: &[i16; 2048], found: Found, n: u32, m: u32, rows: &[u32], c: u32) -> Found
    requires { Spectra fixed.now }
    ensures { result ≡ found_of (better n m rows.now (pair_candidate found) c) }
{
    if let Err(_) = refusals::check_box(n, m, rows) {
        return found;
    }
    let mut table = [0u8; 256];
    let mut work = [0i16; 256];
    let mut values = [0i32; 256];
    let size = rows.len();
    with_arrays(
        found,
        fixed,
        n,
        m,
        rows,
        c,
        &mut table[..size],
        &mut work[..size],
        &mut values[..size],
    )
}

// The next combination of an unfinished box is examined.
fn examine(fixed: &[i16; 2048], p: Place) -> Place
    requires { Spectra fixed.now × (model.unfinished (spot_in p) ≡ true) }
    ensures { result ≡ one_more_place p }
{
    let n = p.n;
    let m = p.m;
    let rows = p.rows;
    let old = p.found;
    let all = &rows[..];
    let size = boolean::power_of_two(n);
    let next = p.examined + 1;
    let found = with_component(fixed, old, n, m, &all[..size], next);
    Place {
        taken: 1,
        n,
        m,
        rows,
        examined: next,
        found,
    }
}

// The next place after the one last served, in a circle, whose box is unfinished, and 0 where there is none.
// kept: 0 and no None, since `turn` and `served`, which the clause and the theorems on histories name, say it so
fn next_place(waiting: &[bool; 8], last: u32) -> u32
    ensures { (result ≤ 8) × (result ≡ turn waiting.now last) }
{
    let start = last % 8;
    for k in 0..8 {
        let i = (start + k) % 8;
        if waiting[i as usize] {
            return i + 1;
        }
    }
    0
}

impl Server {
    // No box on any place.
    pub fn begin() -> Self
        ensures { ServerBegan result }
    {
        let none = vacant();
        let places = [none; 8];
        Server { places, last: 0 }
    }

    // The server with another place at an index.
    fn with_place(self, i: usize, p: Place) -> Self
        requires { i < 8 }
        ensures { result ≡ replaced self i p }
    {
        let mut server = self;
        server.places[i] = p;
        server
    }

    // The checks of asking and withdrawing: a place of the server, and a box on it.
    fn check_held(self, place: u32) -> Result<(), Refusal>
        ensures { result ≡ first (model.held_checks (state_of_server self) place) }
    {
        if !refusals::in_range(1, 8, place) {
            return Err(Refusal::NoPlace);
        }
        let i = (place - 1) as usize;
        let here = self.places[i];
        if here.taken != 1 {
            return Err(Refusal::PlaceState);
        }
        Ok(())
    }

    // Whether a box is finished, and its nonlinearity with the first pair that reaches it.
    pub fn ask(self, place: u32) -> Result<Option<Found>, Refusal>
        ensures { ServerTold self place (said_asked result) }
    {
        self.check_held(place)?;
        let i = (place - 1) as usize;
        let asked = self.places[i];
        if unfinished(asked) {
            return Ok(None);
        }
        Ok(Some(asked.found))
    }

    // Takes the box off a place.
    pub fn withdraw(self, place: u32) -> Served
        ensures { ServerWithdrew self place (said_written result.answer) result.server }
    {
        if let Err(reason) = self.check_held(place) {
            return declined(self, reason);
        }
        let i = (place - 1) as usize;
        let none = vacant();
        let cleared = self.with_place(i, none);
        let answer = Ok(());
        Served {
            server: cleared,
            answer,
        }
    }

    // The checks of putting: a place of the server, no box on it, and a box.
    fn check_put(self, place: u32, n: u32, m: u32, rows: &[u32]) -> Result<(), Refusal>
        ensures { result ≡ first (model.put_checks (state_of_server self) place n m rows.now) }
    {
        if !refusals::in_range(1, 8, place) {
            return Err(Refusal::NoPlace);
        }
        let i = (place - 1) as usize;
        let here = self.places[i];
        if here.taken == 1 {
            return Err(Refusal::PlaceState);
        }
        refusals::check_box_up_to(16, n, m, rows)
    }

    // Puts a box on a place. No combination of it is examined yet.
    pub fn put(self, place: u32, n: u32, m: u32, rows: &[u32]) -> Served
        ensures { ServerPut self place n m rows.now (said_written result.answer) result.server }
    {
        if let Err(e) = self.check_put(place, n, m, rows) {
            return declined(self, e);
        }
        let i = (place - 1) as usize;
        let with_box = fresh(n, m, rows);
        let filled = self.with_place(i, with_box);
        let answer = Ok(());
        Served {
            server: filled,
            answer,
        }
    }

    // Of each place, whether its box is unfinished.
    fn waiting_places(self) -> [bool; 8]
        ensures { Waiting self result }
    {
        let mut waiting = [false; 8];
        for at in 0..8 {
            let held = self.places[at];
            waiting[at] = unfinished(held);
        }
        waiting
    }

    // Examines one combination, not examined before, of the next unfinished box; with none unfinished it does nothing.
    pub fn step(self) -> Self
        ensures { ServerStepped self result }
    {
        self.run(1)
    }

    // Steps, one after the other, as many as the budget says. It stops where none is unfinished, since a step then does nothing. Which
    // places have an unfinished box is kept beside the server, so that a step hands over no more of the server than the place that it
    // serves.
    pub fn run(self, budget: u32) -> Self
        ensures { ServerRan self budget result }
    {
        let fixed = walsh::spectra();
        let mut waiting = self.waiting_places();
        let mut server = self;
        for _done in 0..budget {
            let last = server.last;
            let place = next_place(&waiting, last);
            if place == 0 {
                return server;
            }
            let i = (place - 1) as usize;
            let here = server.places[i];
            let served = examine(&fixed, here);
            waiting[i] = unfinished(served);
            server.places[i] = served;
            server.last = place;
        }
        server
    }
}

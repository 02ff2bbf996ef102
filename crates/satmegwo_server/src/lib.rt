// The server's calls for C and for everything that speaks C. A server goes into a call by value and comes out of it, so all of it is the
// caller's memory. A slice is a pointer and its number of elements; a status is 0 or the number of a refusal.
#![tactic(auto)]

ghost use Rattle.server.specs.Calls.{said_asked, ServerBegan, ServerPut, ServerWithdrew, ServerStepped, ServerRan};
ghost use Rattle.border.specs.Border.{FiguresOut};
ghost use Rattle.satmegwo_server.specs.Exports.{progress_reply, NumberedCall, ToldOut};

use linear::Found;
use refusals::Refusal;
use server::Server;

// The server after a call that may be refused, with the status.
#[repr(C)]
#[derive(Clone, Copy)]
pub struct Outcome {
    pub server: Server,
    pub status: u32,
}

// A server with no box on any place.
pub fn satmegwo_server_begin() -> Server
    ensures { ServerBegan result }
{
    Server::begin()
}

// Puts a box on a place. No combination of it is examined yet.
pub fn satmegwo_server_put(server: Server, place: u32, n: u32, m: u32, rows: &[u32]) -> Outcome
    ensures { NumberedCall (ServerPut server place n m rows.now) result }
{
    let tried = server.put(place, n, m, rows);
    let with_box = tried.server;
    let answer = tried.answer;
    Outcome {
        server: with_box,
        status: border::status_of(answer),
    }
}

// Takes the box off a place.
pub fn satmegwo_server_withdraw(server: Server, place: u32) -> Outcome
    ensures { NumberedCall (ServerWithdrew server place) result }
{
    let withdrawn = server.withdraw(place);
    let without = withdrawn.server;
    let answer = withdrawn.answer;
    Outcome {
        server: without,
        status: border::status_of(answer),
    }
}

// Examines one combination of the next unfinished box.
pub fn satmegwo_server_step(server: Server) -> Server
    ensures { ServerStepped server result }
{
    server.step()
}

// Steps, one after the other, as many as the budget says.
pub fn satmegwo_server_run(server: Server, budget: u32) -> Server
    ensures { ServerRan server budget result }
{
    server.run(budget)
}

// The figures of an answer to asking, or the number of its refusal.
fn give_standing(answer: Result<Option<Found>, Refusal>, figures: &mut [u32]) -> u32
    ensures { FiguresOut (progress_reply (said_asked answer)) figures.old result figures.new }
{
    match answer {
        Ok(None) => border::give(&[0u32, 0, 0, 0, 0], figures),
        Ok(Some(Found { count, c, w, b })) => border::give(&[1, count, c, w, b], figures),
        Err(e) => refusals::number_of(e),
    }
}

// Whether the box on a place is finished, and its nonlinearity with the first pair that reaches it.
pub fn satmegwo_server_ask(server: Server, place: u32, figures: &mut [u32]) -> u32
    ensures { ToldOut server place figures.old result figures.new }
{
    give_standing(server.ask(place), figures)
}

// The server's calls for C and for everything that speaks C, under their names in include/satmegwo_server.h. A crate is a library or is
// linked into C, and not both: so the code and its proofs stand in the library `satmegwo_server`, and each function here hands its
// arguments to the one of the same name there and states its contract again.
#![tactic(auto)]

ghost use Rattle.server.specs.Calls.{ServerBegan, ServerPut, ServerWithdrew, ServerStepped, ServerRan};
ghost use Rattle.satmegwo_server.specs.Exports.{NumberedCall, ToldOut};

use satmegwo_server::Outcome;
use server::Server;

#[unsafe(no_mangle)]
pub extern "C" fn satmegwo_server_begin() -> Server
    ensures { ServerBegan result }
{
    satmegwo_server::satmegwo_server_begin()
}

#[unsafe(no_mangle)]
pub extern "C" fn satmegwo_server_put(
    server: Server,
    place: u32,
    n: u32,
    m: u32,
    rows: &[u32],
) -> Outcome
    ensures { NumberedCall (ServerPut server place n m rows.now) result }
{
    satmegwo_server::satmegwo_server_put(server, place, n, m, rows)
}

#[unsafe(no_mangle)]
pub extern "C" fn satmegwo_server_withdraw(server: Server, place: u32) -> Outcome
    ensures { NumberedCall (ServerWithdrew server place) result }
{
    satmegwo_server::satmegwo_server_withdraw(server, place)
}

#[unsafe(no_mangle)]
pub extern "C" fn satmegwo_server_step(server: Server) -> Server
    ensures { ServerStepped server result }
{
    satmegwo_server::satmegwo_server_step(server)
}

#[unsafe(no_mangle)]
pub extern "C" fn satmegwo_server_run(server: Server, budget: u32) -> Server
    ensures { ServerRan server budget result }
{
    satmegwo_server::satmegwo_server_run(server, budget)
}

#[unsafe(no_mangle)]
pub extern "C" fn satmegwo_server_ask(server: Server, place: u32, figures: &mut [u32]) -> u32
    ensures { ToldOut server place figures.old result figures.new }
{
    satmegwo_server::satmegwo_server_ask(server, place, figures)
}

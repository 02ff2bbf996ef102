// The border to C: an answer's number is returned, and its figures go to an array that is lent for them.
#![tactic(auto)]

ghost use Rattle.std.specs.Prelude.{◌≡◌};
ghost use Rattle.refusals.specs.Table.{said_written, figures as given};
ghost use Rattle.border.specs.Border.{status, FiguresOut, room_number};

use refusals::Refusal;

// The number of a call that only writes.
#[tactic(auto, unfolding(crate::specs::Border::status))]
pub fn status_of(answer: Result<(), Refusal>) -> u32
    ensures { result ≡ status (said_written answer) }
{
    match answer {
        Ok(()) => 0,
        Err(e) => refusals::number_of(e),
    }
}

// The figures go to the lent array, or it has another length.
pub fn give(found: &[u32], figures: &mut [u32]) -> u32
    ensures { FiguresOut (given found.now) figures.old result figures.new }
{
    if figures.len() != found.len() {
        return refusals::number_of(Refusal::WrittenLength);
    }
    figures.copy_from_slice(found);
    0
}

// The number to return where the array for the figures has another length: the checks before it go first.
pub fn number_for_room(found: Result<(), Refusal>) -> u32
    ensures { result ≡ room_number found }
{
    match found {
        Ok(()) => refusals::number_of(Refusal::WrittenLength),
        Err(e) => refusals::number_of(e),
    }
}

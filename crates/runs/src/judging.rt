// What a call for a run of places refuses: a length, and then a place.
ghost use Rattle.std.specs.Prelude.{◌≡◌};
ghost use Rattle.refusal.specs.Tells.{told};
ghost use Rattle.runs.specs.Runs.{judged_blocks, judged_run};

use cards::BLOCK_LEN;
use refusal::Refusal;

// Refuses a length that is not one of whole blocks.
pub fn judge_blocks(len: usize) -> Result<(), Refusal>
    ensures { told result ≡ judged_blocks len }
{
    if len % BLOCK_LEN == 0 {
        Ok(())
    } else {
        Err(Refusal::WrongLength(len))
    }
}

// Refuses a run that passes the last place, by the first place that is lacking.
pub fn judge_run(start: usize, count: usize, places: usize) -> Result<(), Refusal>
    ensures { told result ≡ judged_run places start count }
{
    if start <= places && count <= places - start {
        Ok(())
    } else {
        Err(Refusal::NoSuchPlace(start.max(places)))
    }
}

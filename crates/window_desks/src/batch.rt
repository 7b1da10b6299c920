// Which requests of a volume a worker serves together.
ghost use Rattle.std.specs.Prelude.{◌≤◌, ℕ, length};
ghost use Rattle.window_desks.specs.Batches.{IsFirstBatch};

use trace_windows::Request;
use wol_model::Kind;

/// The most blocks of writes that are served together.
const MOST_BLOCKS: u32 = 128;

/// How many first ones of these requests go together: one alone, or the longest run of writes with at most so many blocks.
pub(crate) fn first_batch(requests: &[Request]) -> usize
    requires { 1 ≤ length requests.now }
    ensures { IsFirstBatch requests.now result }
{
    let mut left = MOST_BLOCKS;
    for k in 0..requests.len() {
        let request = requests[k];
        if request.kind != Kind::Write || request.count > left {
            return k.max(1);
        }
        left -= request.count;
    }
    requests.len()
}

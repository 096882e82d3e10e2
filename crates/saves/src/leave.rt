// What the end of a run leaves in the places: the open saves, each padded with zeros, and zeros in the places that are not open.
ghost use Rattle.std.specs.Prelude.{◌+◌, ◌^◌, ◌<◌, ◌≡◌};
ghost use Rattle.saves.specs.Leaving.{kept_words, left_places, LeaveFits};
ghost use Rattle.machine.specs.Runs.{max_saves};

use bytes_le::clear::clear;
use machine::MAX_SAVES;

// How many words of place k are kept. Heights of places that are not open are there too, so `heights[k]` is inside for each place.
#[tactic(auto, unfolding(crate::specs::Leaving::kept_words))]
fn kept(heights: &[u16; MAX_SAVES], k: usize, count: usize, before: usize) -> usize
    requires { (k < max_saves) × (before + 65536 < 2 ^ 64) }
    ensures { result ≡ kept_words heights.now count before k }
{
    if k < count {
        before + usize::from(heights[k])
    } else {
        0
    }
}

// Sets to 0 what is not kept of all places. A place has so many words before its entries, and an entry for each node. Places are counted, as their
// number says which are open, and the words may go on behind the last. The struct of words and heights is crate interpreter's, which is above.
pub fn leave(
    saves: &mut [u8],
    heights: &[u16; MAX_SAVES],
    count: usize,
    before: usize,
    nodes: usize,
)
    requires { LeaveFits saves.old heights.now count before nodes }
    ensures { saves.new ≡ left_places heights.now count before nodes max_saves saves.old }
{
    let size = before + nodes;
    for k in 0..MAX_SAVES {
        let from = size * k;
        let keep = kept(heights, k, count, before);
        clear(saves, from + keep, from + size);
    }
}

// Which places of a table hold something, as words: bit k of a word stands for the k-th of its
// places.
ghost use Rattle.std.specs.Prelude.{◌≡◌, ℕ, ◌+◌, ◌*◌, ◌<◌, ◌≤◌, length, slice_index};
ghost use Rattle.rows.specs.Limits.{most_events};
ghost use Rattle.plan.specs.Holding.{Held, HeldFrom, PutBefore};

use rows::MOST_EVENTS;
use solver::network::Standing;

// The word with one place more, before those that it has: its bit comes in by a shift of one, and
// with no branch, since every place of a table is read once a call.
fn with_place<L: Copy>(word: u64, place: Option<L>) -> u64
    ensures { PutBefore place word result }
{
    word << 1 | u64::from(place.is_some())
}

// The word of the last of so many places, from one of them on.
fn last_of<L: Copy>(
    places: &[Option<L>],
    count: usize,
    from: usize,
    first: usize,
    step: usize,
) -> u64
    requires few { count ≤ most_events }
    requires from { from ≤ count }
    requires inside { (k : ℕ) → k < count → first + k * step < length places.now }
    ensures { HeldFrom places.now count first step from result }
{
    let mut word = 0;
    for k in (from..count).rev() {
        word = with_place(word, places[first + k * step]);
    }
    word
}

// The word of so many places that lie a step apart, from the first on.
pub(crate) fn word_of<L: Copy>(places: &[Option<L>], count: usize, first: usize, step: usize) -> u64
    requires few { count ≤ most_events }
    requires inside { (k : ℕ) → k < count → first + k * step < length places.now }
    ensures { Held places.now count first step result }
{
    let threes = count / 3;
    let mut word = last_of(places, count, 3 * threes, first, step);
    // three places a turn, since a turn's own steps take as long as a place
    for three in (0..threes).rev() {
        let k = 3 * three;
        word = with_place(word, places[first + (k + 2) * step]);
        word = with_place(word, places[first + (k + 1) * step]);
        word = with_place(word, places[first + k * step]);
    }
    word
}

// The words of so many events, each of as many places, which begin `apart` places after those of
// the event before.
pub(crate) fn words_of<L: Copy>(
    places: &[Option<L>],
    count: usize,
    apart: usize,
    step: usize,
) -> Standing
    requires few { count ≤ most_events }
    requires inside { (u k : ℕ) → u < count → k < count → u * apart + k * step < length places.now }
    ensures { (u : ℕ) → u < count → Held places.now count (u * apart) step (slice_index result u) }
{
    let mut words = [0; MOST_EVENTS];
    for event in 0..count {
        words[event] = word_of(places, count, event * apart, step);
    }
    words
}

// Words of events: bit k of a word stands for event k.
ghost use Rattle.std.specs.Prelude.{◌≡◌, ◌<◌, ◌≤◌, ◌↔◌, IsTrue, MatchOption};
ghost use Rattle.std.specs.Int.{bit_at};
ghost use Rattle.solver.specs.Words.{Added, FirstEvents, Joined, Shared, Split, Without};

// An event of a word, the lowest as it happens, and the word without it; nothing where the word has
// none.
#[tactic(auto, using(crate::proofs::Bits::split_lowest))]
pub(crate) fn split(word: u64) -> Option<(usize, u64)>
    ensures { MatchOption result (word ≡ 0) (λ parts. Split word parts.0 parts.1) }
{
    if word == 0 {
        return None;
    }
    let event = word.trailing_zeros() as usize;
    Some((event, word & (word - 1)))
}

// From which end the events of a word are taken.
#[derive(Clone, Copy)]
pub(crate) enum End {
    Lowest,
    Highest,
}

// An event of a word, from that end as it happens, and the word without it; nothing where the word
// has none.
#[tactic(auto, using(crate::proofs::Bits::split_highest))]
pub(crate) fn split_from(end: End, word: u64) -> Option<(usize, u64)>
    ensures { MatchOption result (word ≡ 0) (λ parts. Split word parts.0 parts.1) }
{
    match end {
        End::Lowest => split(word),
        End::Highest => {
            if word == 0 {
                return None;
            }
            let event = 63 - word.leading_zeros() as usize;
            Some((event, word & !(1 << event)))
        }
    }
}

// The word with an event.
pub(crate) fn with_event(word: u64, event: usize) -> u64
    requires { event < 64 }
    ensures { Added word event result }
{
    word | 1 << event
}

// Whether an event is in a word.
pub(crate) fn has(word: u64, event: usize) -> bool
    requires { event < 64 }
    ensures { IsTrue result ↔ (bit_at word event ≡ 1) }
{
    word >> event & 1 == 1
}

// The events of both words together.
#[tactic(auto, using(crate::proofs::Bits::joined))]
pub(crate) fn either(one: u64, other: u64) -> u64
    ensures { Joined one other result }
{
    one | other
}

// The events that are in both words.
#[tactic(auto, using(crate::proofs::Bits::shared))]
pub(crate) fn both(one: u64, other: u64) -> u64
    ensures { Shared one other result }
{
    one & other
}

// The events of a word that the other has not.
#[tactic(auto, using(crate::proofs::Bits::without))]
pub(crate) fn without(word: u64, other: u64) -> u64
    ensures { Without word other result }
{
    word & !other
}

// The first so many events.
pub(crate) fn first_events(count: usize) -> u64
    requires { (1 ≤ count) × (count ≤ 63) }
    ensures { FirstEvents count result }
{
    u64::MAX >> (64 - count)
}

// Which events a chain of lags reaches, over the words of the lags that stand.
ghost use Rattle.std.specs.Prelude.{ℕ, ◌<◌};
ghost use Rattle.solver.specs.Words.{Among, AnswersStanding, ChainsFrom, ChainsOver, RootsOf, Stands};

use crate::network::{Network, Standing};
use crate::words::{End, both, either, split, split_from, with_event, without};

/// The word of the events that a chain of lags from an event reaches: bit k stands for event k.
pub fn reach<N: Network>(net: &N, standing: &Standing, event: usize) -> u64
    requires standing { Stands (N.Network.size net.now) (N.Network.weight net.now) standing.now }
    requires event { event < N.Network.size net.now }
    ensures { ChainsFrom (N.Network.size net.now) (N.Network.weight net.now) event result }
{
    reach_by(net, |from| standing[from], event)
}

/// The same, by a closure in place of the words: it answers the word of the events to which a lag
/// leads from an event, and is asked for the event itself and for each that is reached, once.
pub fn reach_by<N: Network, W: Fn(usize) -> u64>(net: &N, word_of: W, event: usize) -> u64
    requires callable { (u : ℕ) → u < N.Network.size net.now → W.pre word_of u }
    requires standing { AnswersStanding (N.Network.size net.now) (N.Network.weight net.now)
        (W.post word_of) }
    requires event { event < N.Network.size net.now }
    ensures { ChainsFrom (N.Network.size net.now) (N.Network.weight net.now) event result }
{
    reach_over(net, word_of, event, u64::MAX)
}

// The events that a chain of lags from an event reaches over events of a word.
fn reach_over<N: Network, W: Fn(usize) -> u64>(net: &N, word_of: W, event: usize, over: u64) -> u64
    requires callable { (u : ℕ) → u < N.Network.size net.now → W.pre word_of u }
    requires standing { AnswersStanding (N.Network.size net.now) (N.Network.weight net.now)
        (W.post word_of) }
    requires event { event < N.Network.size net.now }
    ensures { ChainsOver (N.Network.size net.now) (N.Network.weight net.now) over event result }
{
    let mut reached = word_of(event);
    let mut visited = with_event(0, event);
    while let Some((from, _)) = split(without(both(reached, over), visited)) {
        visited = with_event(visited, from);
        reached = either(reached, word_of(from));
    }
    reached
}

// Events of a word from which chains of lags reach all others of it: those that none before them
// reaches, where they are taken from one end.
fn first_roots<N: Network>(net: &N, standing: &Standing, word: u64, end: End) -> u64
    requires standing { Stands (N.Network.size net.now) (N.Network.weight net.now) standing.now }
    requires word { Among (N.Network.size net.now) word }
    ensures { RootsOf (N.Network.size net.now) (N.Network.weight net.now) word result }
{
    let mut roots = 0;
    let mut seen = 0;
    let mut left = word;
    while let Some((event, others)) = split_from(end, left) {
        // what was seen before leads to nothing new
        let reached = reach_over(net, |from| standing[from], event, !seen);
        roots = with_event(roots, event);
        seen = with_event(either(seen, reached), event);
        left = without(others, seen);
    }
    roots
}

// Events of a word from which chains of lags reach all others of it: as few as will do, which is no
// promise, and only saves rounds.
pub(crate) fn roots_of<N: Network>(net: &N, standing: &Standing, word: u64) -> u64
    requires standing { Stands (N.Network.size net.now) (N.Network.weight net.now) standing.now }
    requires word { Among (N.Network.size net.now) word }
    ensures { RootsOf (N.Network.size net.now) (N.Network.weight net.now) word result }
{
    // no first root reaches a later one, so that the last of them are taken first
    let roots = first_roots(net, standing, word, End::Lowest);
    first_roots(net, standing, roots, End::Highest)
}

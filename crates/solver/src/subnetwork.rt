// The lags of a network that lead to events of a word.
ghost use Rattle.std.specs.Prelude.{◌≡◌, ℕ, ◌<◌, ◌≤◌, false, length, slice_index};
ghost use Rattle.schedules.proofs.Fewer.{into_limited, into_wide};
ghost use Rattle.schedules.specs.Plans.{lags_into};
ghost use Rattle.solver.specs.Words.{in_word, Masked, NoneStand};

use crate::network::{Network, Standing};
use crate::words::{both, has};
use rows::MOST_EVENTS;

// The network without its lags to the other events.
#[derive(Clone, Copy)]
pub(crate) struct Subnetwork<N: Network> {
    pub(crate) net: N,
    pub(crate) word: u64,
}

impl<N: Network> Network for Subnetwork<N> {
    type Kind = N::Kind;

    ghost size = { λ part. N.Network.size part.net };

    ghost weight = { λ part. lags_into (in_word part.word) (N.Network.weight part.net) };

    ghost sound = { λ part. record {
      some = (N.Network.sound part.net).some;
      few = (N.Network.sound part.net).few;
      wide = into_wide (in_word part.word) (N.Network.weight part.net) _ _
          (N.Network.sound part.net).wide;
      limit = (N.Network.sound part.net).limit;
      limited = into_limited (in_word part.word) (N.Network.weight part.net) _ _
          (N.Network.sound part.net).limited;
      room = (N.Network.sound part.net).room;
    } };

    fn events(&self) -> usize {
        self.net.events()
    }

    fn follow(&self, total: N::Kind, to: usize, from: usize) -> Option<N::Kind> {
        if !has(self.word, to) {
            return None;
        }
        self.net.follow(total, to, from)
    }

    fn stand(&self) -> Standing {
        mask(&self.net.stand(), self.word)
    }
}

// Of each word the events that are in another.
pub(crate) fn mask(standing: &Standing, word: u64) -> Standing
    ensures masked { Masked standing.now word result }
    ensures long { length result ≡ length standing.now }
{
    let mut masked = *standing;
    for led_to in &mut masked {
        *led_to = both(*led_to, word);
    }
    masked
}

// Whether some event leads to any.
pub(crate) fn leads_on(standing: &Standing) -> bool
    ensures { result ≡ false → NoneStand standing.now }
{
    standing.iter().any(|led_to| *led_to != 0)
}

//! A list shuffled by a generator's words.
ghost use Rattle.std.specs.Prelude.{IsPermutation, ◌≡◌, ◌≤◌, ◌<◌, ◌-◌, ◌^◌, length};
ghost use Rattle.seed_deal.specs.Shuffle.{shuffled, chosen_place};

use card_piles::Card;
use rand_core::Rng;

/// The place from 0 to `last` that a word chooses.
fn chosen_place(word: u32, last: usize) -> usize
    requires { last < 2 ^ 31 }
    ensures place { result ≡ chosen_place word last }
    ensures up_to_last { result ≤ last }
{
    (u64::from(word) * (last as u64 + 1) >> 32) as usize
}

/// Shuffles from the last place down, with one word for each place but the first.
pub fn shuffle<R: Rng>(words: &mut R, cards: &mut [Card])
    requires { length cards.old < 2 ^ 31 }
    ensures order { cards.new ≡ shuffled (R.stream words.old) (length cards.old - 1) cards.old }
    ensures cards { IsPermutation cards.old cards.new }
{
    let mut last = cards.len();
    while last > 1 {
        last -= 1;
        let word = words.next_u32();
        cards.swap(last, chosen_place(word, last));
    }
}

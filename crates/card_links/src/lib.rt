//! Places with chains of slots, in one table of links.
//!
//! Means: a `Links` is the slot under each slot, and the top and the size of each place. A place's
//! chain begins at its top, follows the links down, and ends after as many slots as the place's
//! size. No slot is in two chains, and each slot below `used` is in one.
//! Above: `shift` carries the first slots of a chain to the front of another, and the same call the
//! other way round takes that back, link by link.
//! Limits: 208 slots and 315 places.
//! Refuses: nothing; no call takes memory.
//! Not promised: time.
#![tactic(auto)]

ghost use Rattle.std.specs.Prelude.{◌≡◌, ◌≢◌, ℕ, ◌+◌, ◌-◌, ◌<◌, ◌≤◌, if◌then◌else◌, nat_lt};
ghost use Rattle.card_links.specs.Chains.{Chains, IsChained, top_at, size_at, link, slot_at, shifted, no_chains};
ghost use Rattle.card_links.specs.Chains.{low_after, grown, shifted_each, dealt_out, gathered};

use std::marker::Model;

/// Chains of slots, one for each place.
#[derive(Debug, Drop)]
pub struct Links {
    // the slot under each slot, and 255 at the bottom of a chain
    under: [u8; 208],
    // the first slot of each place, and 255 where it has none
    tops: [u8; 315],
    sizes: [u8; 315],
    used: u8,
    // how many slots the places below 90 have together
    low: u8,
}

impl Model for Links {
    ghost use Rattle.card_links.specs.Chains.{Chains, IsChained};

    ghost Value = { Chains };

    ghost view = { λ l. record { under = l.under; tops = l.tops; sizes = l.sizes; used = l.used; low = l.low } };

    ghost invariant = { λ l. IsChained (record {
      under = l.under;
      tops = l.tops;
      sizes = l.sizes;
      used = l.used;
      low = l.low;
    }) };
}

/// How many slots the places below 90 have after a carry.
fn low_after(low: u8, from: usize, to: usize, count: u8) -> u8
    requires less { (from < 90) × (90 ≤ to) → count ≤ low }
    requires more { (to < 90) × (90 ≤ from) → low + count < 256 }
    ensures { result ≡ low_after low from to count }
{
    if from < 90 && 90 <= to {
        low - count
    } else if to < 90 && 90 <= from {
        low + count
    } else {
        low
    }
}

/// How many slots the places below 90 have after a new slot came to a place.
fn low_grown(low: u8, place: usize) -> u8
    requires { low < 255 }
    ensures { result ≡ (if nat_lt place 90 then low + 1 else low) }
{
    if place < 90 { low + 1 } else { low }
}

impl Links {
    /// No place has a slot.
    pub fn new() -> Links
        ensures { result ≡ no_chains }
    {
        Links {
            under: [255; 208],
            tops: [255; 315],
            sizes: [0; 315],
            used: 0,
            low: 0,
        }
    }

    /// The first slot of a place, and 255 where it has none.
    pub fn top(&self, place: usize) -> u8
        requires { place < 315 }
        ensures { result ≡ top_at self.now place }
    {
        self.tops[place]
    }

    /// How many slots a place has.
    pub fn size(&self, place: usize) -> u8
        requires { place < 315 }
        ensures { result ≡ size_at self.now place }
    {
        self.sizes[place]
    }

    /// The slot under a slot, and 255 at the bottom.
    pub fn under(&self, slot: u8) -> u8
        requires { slot < 208 }
        ensures { result ≡ link self.now.under slot }
    {
        self.under[usize::from(slot)]
    }

    /// How many slots are in the places.
    pub fn used(&self) -> u8
        ensures value { result ≡ self.now.used }
        ensures chained { IsChained self.now }
    {
        self.used
    }

    /// How many slots are in the places below 90.
    pub fn low(&self) -> u8
        ensures { result ≡ self.now.low }
    {
        self.low
    }

    /// The slot of a place that has so many above it.
    pub fn slot(&self, place: usize, depth: u8) -> u8
        requires place { place < 315 }
        requires depth { depth < size_at self.now place }
        ensures value { result ≡ slot_at self.now place depth }
        ensures used { result < self.now.used }
        ensures fits { self.now.used ≤ 208 }
    {
        let mut slot = self.tops[place];
        for _k in 0..depth {
            slot = self.under[usize::from(slot)];
        }
        slot
    }

    /// Puts a new slot at the front of a place.
    pub fn push(&mut self, place: usize)
        requires place { place < 315 }
        requires room { self.old.used < 208 }
        ensures { self.new ≡ grown self.old place }
    {
        let slot = self.used;
        self.under[usize::from(slot)] = self.tops[place];
        self.tops[place] = slot;
        self.sizes[place] += 1;
        self.used = slot + 1;
        self.low = low_grown(self.low, place);
    }

    /// Carries the first slots of a place to the front of another.
    pub fn shift(&mut self, from: usize, to: usize, count: u8)
        requires from { from < 315 }
        requires to { to < 315 }
        requires apart { from ≢ to }
        requires some { 0 < count }
        requires enough { count ≤ size_at self.old from }
        ensures { self.new ≡ shifted self.old from to count }
    {
        let last = usize::from(self.slot(from, count - 1));
        let (top, beyond) = (self.tops[from], self.tops[to]);
        let (size, more) = (self.sizes[from], self.sizes[to]);
        self.tops[from] = self.under[last];
        self.tops[to] = top;
        self.under[last] = beyond;
        self.sizes[from] = size - count;
        self.sizes[to] = more + count;
        self.low = low_after(self.low, from, to, count);
    }

    /// Carries slots from a place to another one after the other, so that they come to lie the other way round.
    pub fn shift_each(&mut self, from: usize, to: usize, count: u8)
        requires from { from < 315 }
        requires to { to < 315 }
        requires apart { from ≢ to }
        requires enough { count ≤ size_at self.old from }
        ensures { self.new ≡ shifted_each self.old from to count }
    {
        let _ = self.used();
        for _k in 0..count {
            self.shift(from, to, 1);
        }
    }

    /// Carries one slot from a place to each of the first places, in their order.
    pub fn deal_out(&mut self, from: usize, count: u8)
        requires from { from < 315 }
        requires below { count ≤ from }
        requires enough { count ≤ size_at self.old from }
        ensures { self.new ≡ dealt_out self.old from count }
    {
        let _ = self.used();
        for i in 0..count {
            self.shift(from, usize::from(i), 1);
        }
    }

    /// Carries one slot from each of the first places to a place, the last of these places first.
    pub fn gather(&mut self, to: usize, count: u8)
        requires to { to < 315 }
        requires below { count ≤ to }
        requires enough { (p : ℕ) → p < count → 1 ≤ size_at self.old p }
        ensures { self.new ≡ gathered self.old to count }
    {
        let _ = self.used();
        for i in 0..count {
            self.shift(usize::from(count - 1 - i), to, 1);
        }
    }
}

/// Single carries there and back only move a cut: what they leave is what single carries of the
/// difference leave, link by link.
pub fn carries_move_a_cut()
    ensures less { (c : Chains) (from to a b n : ℕ) → IsChained c → from < 315 → to < 315 → from ≢ to
        → a ≤ size_at c from → a ≡ n + b
        → shifted_each (shifted_each c from to a) to from b ≡ shifted_each c from to n }
    ensures beyond { (c : Chains) (from to a b n : ℕ) → IsChained c → from < 315 → to < 315 → from ≢ to
        → a ≤ size_at c from → b ≡ a + n
        → shifted_each (shifted_each c from to a) to from b ≡ shifted_each c to from n }
{}

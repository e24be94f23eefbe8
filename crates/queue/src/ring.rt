// A ring of sixteen places, which contracts see as the list of its items, the oldest first.
ghost use Rattle.std.specs.Prelude.{◌≡◌, ◌<◌, [], ◌∷◌, ◌++◌, length, MatchBool, MatchOption, drop};

use std::marker::Model;

const PLACES: usize = 16;

// Places of its own: the library allocates nothing, and the kit's `circular_buffer` stands on the heap; an `ArrayVec`
// would move all other items at each removal from the front.
#[derive(Drop)]
pub struct Ring<T> {
    pub(crate) places: [T; PLACES],
    // the place of the oldest item
    pub(crate) first: usize,
    pub(crate) count: usize,
}

impl<T> Model for Ring<T> {
    ghost use Rattle.std.specs.Prelude.{List};

    ghost Value = { List T };

    ghost use Rattle.queue.specs.Rings.{items, InRange};

    ghost view = { items };

    ghost invariant = { InRange };
}

impl<T: Copy> Ring<T> {
    // A ring with no items, whose places have to hold something.
    pub(crate) fn new(filler: T) -> Ring<T>
        ensures { result ≡ [] }
    {
        Ring {
            places: [filler; PLACES],
            first: 0,
            count: 0,
        }
    }

    pub(crate) fn is_full(&self) -> bool
        ensures { MatchBool result (length self.now ≡ 16) (length self.now < 16) }
    {
        self.count == PLACES
    }

    pub(crate) fn front(&self) -> Option<T>
        ensures { MatchOption result (self.now ≡ []) (λ item. self.now ≡ item ∷ drop 1 self.now) }
    {
        // A guard: with `(self.count > 0).then(..)` the index is the closure's, and what the answer is (`returns`) was left to prove.
        if self.count == 0 {
            return None;
        }
        Some(self.places[self.first])
    }

    // Removes the oldest item and answers it.
    pub(crate) fn pop_front(&mut self) -> Option<T>
        ensures answer { MatchOption result (self.old ≡ []) (λ item. self.old ≡ item ∷ self.new) }
        ensures rest { self.new ≡ drop 1 self.old }
    {
        let item = self.front()?;
        self.first = (self.first + 1) % PLACES;
        self.count -= 1;
        Some(item)
    }

    pub(crate) fn push_back(&mut self, item: T)
        requires { length self.old < 16 }
        ensures { self.new ≡ self.old ++ item ∷ [] }
    {
        self.places[(self.first + self.count) % PLACES] = item;
        self.count += 1;
    }
}

// A list of at most `N` items that lies in the value itself: it needs no heap, and is copied as it stands.

#![tactic(auto)]

ghost use Rattle.std.specs.Prelude.{◌≡◌, ◌+◌, ◌<◌, ◌≤◌, ⊤, [], ◌∷◌, ◌++◌, length, nat_le, if◌then◌else◌, MatchOption, MatchResult};

use std::alloc::AllocError;

// The first `many` places hold the items. The one array with a length beside it: no Vec, as nothing is allocated, and no ArrayVec, which is not Copy.
#[derive(Copy)]
pub struct Fixed<T, const N: usize> {
    places: [T; N],
    many: usize,
    ghost inside: { many ≤ N },
}

// By hand: `Clone` is not derived for a struct with both a type parameter and a ghost field.
impl<T: Copy, const N: usize> Clone for Fixed<T, N> {
    ghost is_clone = { λ x y. y ≡ x };

    ghost is_infallible = { λ _. ⊤ };

    fn clone(&self) -> Result<Self, AllocError> {
        Ok(*self)
    }
}

impl<T: Copy, const N: usize> Fixed<T, N> {
    ghost use Rattle.fixed.specs.Items.{items_of};

    // No items: each place holds the blank until an item is put there.
    pub fn new(blank: T) -> Self
        ensures { items_of result ≡ [] }
    {
        Fixed {
            places: [blank; N],
            many: 0,
        }
    }

    // The items of the slice, if there is a place for each.
    pub fn from_slice(blank: T, items: &[T]) -> Option<Self>
        ensures { MatchOption result (N < length items.now) (λ f. (length items.now ≤ N) × (items_of f ≡ items.now)) }
    {
        if items.len() > N {
            return None;
        }
        let mut places = [blank; N];
        places[..items.len()].copy_from_slice(items);
        Some(Fixed {
            places,
            many: items.len(),
        })
    }

    pub fn as_slice(&self) -> &[T]
        ensures value { result.now ≡ items_of self.now }
        ensures within { length (items_of self.now) ≤ N }
    {
        &self.places[..self.many]
    }

    // No items, whatever there were.
    pub fn clear(&mut self)
        ensures { items_of self.new ≡ [] }
    {
        self.many = 0;
    }

    // The items of the slice at the end, and true, where there is a place for each; otherwise nothing, and false.
    pub fn extend(&mut self, items: &[T]) -> bool
        ensures value { result ≡ nat_le (length (items_of self.old) + length items.now) N }
        ensures items { items_of self.new ≡ (if result then items_of self.old ++ items.now else items_of self.old) }
    {
        if items.len() > N - self.many {
            return false;
        }
        let end = self.many + items.len();
        let places = &mut self.places[..];
        places[self.many..end].copy_from_slice(items);
        self.many = end;
        true
    }

    // One item more at the end, or the item given back where every place is taken.
    pub fn push(&mut self, item: T) -> Result<(), T>
        ensures { MatchResult result (λ done. (length (items_of self.old) < N) × (items_of self.new ≡ items_of self.old ++ item ∷ [])) (λ back. (length (items_of self.old) ≡ N) × (back ≡ item) × (self.new ≡ self.old)) }
    {
        if self.many == N {
            return Err(item);
        }
        self.places[self.many] = item;
        self.many += 1;
        Ok(())
    }
}

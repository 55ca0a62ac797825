// A list of at most `N` values. The first `count` places hold them; what the others hold is never read.
ghost use Rattle.std.specs.Prelude.{◌≡◌, ◌-◌, ◌<◌, ◌≤◌, [], ◌∷◌, ◌++◌, length, take, slice_get, slice_set, MatchOption, MatchResult};

use std::marker::Model;

// There is no place left.
#[derive(Clone, Copy, PartialEq, Eq, Debug)]
pub struct Full {}

#[derive(Clone, Copy)]
pub struct List<T, const N: usize> {
    places: [T; N],
    count: usize,
}

impl<T, const N: usize> Model for List<T, N> {
    ghost use Rattle.std.specs.Prelude.{◌≡◌, ◌≤◌, ◌++◌, length, take, drop};
    ghost use Rattle.std.proofs.Common.{arith, take-append-drop, length-take-le};
    ghost use Rattle.lists.specs.Lists.{List as Listed};

    ghost Value = { Listed T };

    ghost view = { λ l. record { items = take l.count l.places; spare = drop l.count l.places } };

    ghost invariant = { λ l. (l.count ≤ N) × (length l.places ≡ N) };

    ghost inverse = { λ v. record { places = v.items ++ v.spare; count = length v.items } };

    ghost inverse_ok = { λ l h i. record {
      places = take-append-drop l.count l.places i;
      count = length-take-le l.count l.places (omega (arith, h.0, h.1)) i;
    } };
}

impl<T: Copy, const N: usize> List<T, N> {
    // An empty list; the places hold the blank until they are used.
    pub fn new(blank: T) -> List<T, N>
        ensures { result.items ≡ [] }
    {
        List {
            places: [blank; N],
            count: 0,
        }
    }

    // The first `count` of the places, or all of them where there are fewer.
    pub fn first(places: [T; N], count: usize) -> List<T, N>
        ensures { result.items ≡ take count places }
    {
        List {
            places,
            count: count.min(N),
        }
    }

    // How many values there are.
    pub fn len(&self) -> usize
        ensures { result ≡ length self.now.items }
    {
        self.as_slice().len()
    }

    // The values, in order.
    pub fn as_slice(&self) -> &[T]
        ensures { result.now ≡ self.now.items }
    {
        let all = &self.places[..];
        &all[0..self.count]
    }

    // Adds a value at the end; a list that is full stays as it is.
    pub fn push(&mut self, value: T) -> Result<(), Full>
        ensures { MatchResult result (λ _. (length self.old.items < N) × (self.new.items ≡ self.old.items ++ value ∷ [])) (λ _. (N ≤ length self.old.items) × (self.new ≡ self.old)) }
    {
        if self.count == N {
            return Err(Full {});
        }
        self.places[self.count] = value;
        self.count += 1;
        Ok(())
    }

    // Takes the last value off; an empty list stays as it is.
    pub fn pop(&mut self) -> Option<T>
        ensures { MatchOption result ((length self.old.items ≡ 0) × (self.new ≡ self.old)) (λ value. self.old.items ≡ self.new.items ++ value ∷ []) }
    {
        if self.count == 0 {
            return None;
        }
        self.count -= 1;
        Some(self.places[self.count])
    }

    // Writes a value at a place, and answers the one that was there; where there is none, the list stays as it is.
    #[tactic(auto, using(crate::proofs::Places::set_taken))]
    pub fn replace(&mut self, at: usize, value: T) -> Option<T>
        ensures was { result ≡ slice_get self.old.items at }
        ensures is { self.new.items ≡ slice_set self.old.items at value }
    {
        if at >= self.count {
            return None;
        }
        let was = self.places[at];
        self.places[at] = value;
        Some(was)
    }

    // Takes all values off.
    pub fn clear(&mut self)
        ensures { self.new.items ≡ [] }
    {
        self.count = 0;
    }
}

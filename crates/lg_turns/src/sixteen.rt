//! A row of sixteen places, which takes no memory of its own.

ghost use Rattle.std.specs.Prelude.{◌≡◌, ◌<◌, List, ◌∷◌, [], Some, None, length, slice_get, slice_set};

use std::marker::Model;
use std::mem;

/// Sixteen values, seen as the list of them.
#[derive(Drop)]
pub struct Sixteen<T> {
    at_0: T,
    at_1: T,
    at_2: T,
    at_3: T,
    at_4: T,
    at_5: T,
    at_6: T,
    at_7: T,
    at_8: T,
    at_9: T,
    at_10: T,
    at_11: T,
    at_12: T,
    at_13: T,
    at_14: T,
    at_15: T,
}

impl<T> Model for Sixteen<T> {
    ghost Value = { List T };

    ghost view = { λ s. s.at_0 ∷ s.at_1 ∷ s.at_2 ∷ s.at_3 ∷ s.at_4 ∷ s.at_5 ∷ s.at_6 ∷ s.at_7 ∷ s.at_8 ∷ s.at_9 ∷ s.at_10 ∷ s.at_11 ∷ s.at_12 ∷ s.at_13 ∷ s.at_14 ∷ s.at_15 ∷ [] };
}

impl<T> Sixteen<T> {
    /// A row of sixteen values.
    pub fn of(
        at_0: T,
        at_1: T,
        at_2: T,
        at_3: T,
        at_4: T,
        at_5: T,
        at_6: T,
        at_7: T,
        at_8: T,
        at_9: T,
        at_10: T,
        at_11: T,
        at_12: T,
        at_13: T,
        at_14: T,
        at_15: T,
    ) -> Sixteen<T>
        ensures { result ≡ at_0 ∷ at_1 ∷ at_2 ∷ at_3 ∷ at_4 ∷ at_5 ∷ at_6 ∷ at_7 ∷ at_8 ∷ at_9 ∷ at_10 ∷ at_11 ∷ at_12 ∷ at_13 ∷ at_14 ∷ at_15 ∷ [] }
    {
        Sixteen {
            at_0,
            at_1,
            at_2,
            at_3,
            at_4,
            at_5,
            at_6,
            at_7,
            at_8,
            at_9,
            at_10,
            at_11,
            at_12,
            at_13,
            at_14,
            at_15,
        }
    }

    pub fn len(&self) -> usize
        ensures { (result ≡ 16) × (length self.now ≡ 16) }
    {
        let _first = &self.at_0;
        16
    }

    pub fn get(&self, place: usize) -> &T
        requires { place < 16 }
        ensures value { slice_get self.now place ≡ Some result.now }
        ensures length { length self.now ≡ 16 }
    {
        match place {
            0 => &self.at_0,
            1 => &self.at_1,
            2 => &self.at_2,
            3 => &self.at_3,
            4 => &self.at_4,
            5 => &self.at_5,
            6 => &self.at_6,
            7 => &self.at_7,
            8 => &self.at_8,
            9 => &self.at_9,
            10 => &self.at_10,
            11 => &self.at_11,
            12 => &self.at_12,
            13 => &self.at_13,
            14 => &self.at_14,
            _ => &self.at_15,
        }
    }

    /// Puts a value into the place, and gives the one that was there.
    pub fn replace(&mut self, place: usize, value: T) -> T
        requires { place < 16 }
        ensures value { slice_get self.old place ≡ Some result }
        ensures others { self.new ≡ slice_set self.old place value }
        ensures length { (length self.old ≡ 16) × (length self.new ≡ 16) }
    {
        match place {
            0 => mem::replace(&mut self.at_0, value),
            1 => mem::replace(&mut self.at_1, value),
            2 => mem::replace(&mut self.at_2, value),
            3 => mem::replace(&mut self.at_3, value),
            4 => mem::replace(&mut self.at_4, value),
            5 => mem::replace(&mut self.at_5, value),
            6 => mem::replace(&mut self.at_6, value),
            7 => mem::replace(&mut self.at_7, value),
            8 => mem::replace(&mut self.at_8, value),
            9 => mem::replace(&mut self.at_9, value),
            10 => mem::replace(&mut self.at_10, value),
            11 => mem::replace(&mut self.at_11, value),
            12 => mem::replace(&mut self.at_12, value),
            13 => mem::replace(&mut self.at_13, value),
            14 => mem::replace(&mut self.at_14, value),
            _ => mem::replace(&mut self.at_15, value),
        }
    }
}

impl<T: Drop> Sixteen<Option<T>> {
    /// Sixteen empty places.
    pub fn none() -> Sixteen<Option<T>>
        ensures { result ≡ None ∷ None ∷ None ∷ None ∷ None ∷ None ∷ None ∷ None ∷ None ∷ None ∷ None ∷ None ∷ None ∷ None ∷ None ∷ None ∷ [] }
    {
        Sixteen {
            at_0: None,
            at_1: None,
            at_2: None,
            at_3: None,
            at_4: None,
            at_5: None,
            at_6: None,
            at_7: None,
            at_8: None,
            at_9: None,
            at_10: None,
            at_11: None,
            at_12: None,
            at_13: None,
            at_14: None,
            at_15: None,
        }
    }

    /// Empties the place.
    pub fn take(&mut self, place: usize) -> Option<T>
        requires { place < 16 }
        ensures value { slice_get self.old place ≡ Some result }
        ensures others { self.new ≡ slice_set self.old place None }
        ensures length { (length self.old ≡ 16) × (length self.new ≡ 16) }
    {
        self.replace(place, None)
    }

    /// Fills the place. What was there is let go.
    pub fn put(&mut self, place: usize, value: T)
        requires { place < 16 }
        ensures others { self.new ≡ slice_set self.old place (Some value) }
        ensures length { (length self.old ≡ 16) × (length self.new ≡ 16) }
    {
        drop(self.replace(place, Some(value)));
    }
}

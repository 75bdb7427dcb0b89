// The bad places that a skip card keeps: a table of 64 and how many of its entries are listed, seen as the list.
ghost use Rattle.std.specs.Prelude.{◌≡◌, ◌≤◌, ℕ, List, length, take};
ghost use Rattle.skip.specs.BadPlaces.{list_max};

use crate::list::LIST_MAX;
use std::marker::Model;

// The box has no heap: an array and a count in place of a `Vec`.
#[derive(Drop)]
pub struct SkipTable {
    places: [usize; LIST_MAX],
    count: usize,
}

impl Model for SkipTable {
    ghost Value = { List ℕ };

    ghost view = { λ t. take t.count t.places };

    ghost invariant = { λ t. t.count ≤ list_max };
}

impl SkipTable {
    // Keeps a list of bad places.
    pub fn new(list: &[usize]) -> SkipTable
        requires { length list.now ≤ list_max }
        ensures { result ≡ list.now }
    {
        let mut places = [0; LIST_MAX];
        let count = list.len();
        places[..count].copy_from_slice(list);
        SkipTable { places, count }
    }

    // The places that are listed.
    pub fn list(&self) -> &[usize]
        ensures { result.now ≡ self.now }
    {
        &self.places[..self.count]
    }
}

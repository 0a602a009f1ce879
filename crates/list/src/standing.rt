// Where a block stands in an accepted list (specification S5): searches among the keys of its records.
ghost use Rattle.std.specs.Prelude.{◌≡◌, true, ◌^◌, length};
ghost use Rattle.keys.specs.Key.{valid_key, height_of};
ghost use Rattle.definitions.specs.Standing.{place_of, is_listed, records_in, standing_of};
ghost use Rattle.list.specs.Sorted.{Near};
ghost use Rattle.list.specs.Taken.{records_listed, place_listed};

use crate::accepted_list::Accepted;
use crate::{check, search};
use definitions::Standing;
use keys::{Key, zeros};

impl Accepted<'_> {
    // The place of the last record whose key is at or before x.
    pub fn place(&self, x: u32) -> usize
        ensures { result ≡ place_listed self.now x }
    {
        search::place(self.keys, x)
    }

    // The same, looked for from a place on.
    pub fn place_from(&self, from: usize, x: u32) -> usize
        requires { Near self.now.keys.now (length self.now.keys.now) from x }
        ensures { result ≡ place_listed self.now x }
    {
        search::place_from(self.keys, from, x)
    }

    // How many records a listed block and all below it take, where step is the number of keys of its interval: of the root all, of a leaf 1 and of a node
    // of four pixels 5, without a search; the last record of another node is looked for from its own on.
    fn records_from(&self, place: usize, key: u32, step: u32) -> usize
        requires { (valid_key self.now.m key ≡ true) × (step ≡ 5 ^ height_of self.now.m key)
            × (is_listed key (records_listed self.now) ≡ true) × (place ≡ place_of key (records_listed self.now)) }
        ensures { result ≡ records_in self.now.m key (records_listed self.now) }
    {
        if key == Key::ROOT {
            return self.keys.len();
        }
        let own = self.bits[place];
        if check::has_one_slot(own) {
            return 1;
        }
        if step == 5 {
            return 5;
        }
        search::up_to_from(self.keys, place, key + (step - 1)) - place
    }

    // Where a block stands, with the number of its records or the key and level of the leaf around it: looked for from a place on, where step is the number
    // of keys of its interval.
    pub fn stand_from(&self, from: usize, key: u32, step: u32) -> Standing
        requires { (valid_key self.now.m key ≡ true) × (step ≡ 5 ^ height_of self.now.m key) × Near self.now.keys.now (length self.now.keys.now) from key }
        ensures { result ≡ standing_of self.now.m key (records_listed self.now) }
    {
        let place = self.place_from(from, key);
        let found = self.keys[place];
        if found == key {
            let records = self.records_from(place, key, step);
            return Standing::Listed(place, records);
        }
        let level = Key { number: found }.level(self.m);
        Standing::Inside(place, found, level)
    }

    // The same, where neither a place nor the step is known yet.
    pub fn stand(&self, key: u32) -> Standing
        requires { valid_key self.now.m key ≡ true }
        ensures { result ≡ standing_of self.now.m key (records_listed self.now) }
    {
        let step = zeros::keys_in(self.m, key);
        self.stand_from(0, key, step)
    }
}

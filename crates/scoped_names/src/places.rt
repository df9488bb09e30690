//! A table of the last place of each name.

ghost use Rattle.std.specs.Prelude.{◌≡◌, ℕ, ◌<◌, length, slice_set, OnOk};
ghost use Rattle.scoped_names.specs.Places.{place_of};

use std::alloc::AllocError;

/// What stands in the table for a name.
pub fn place_in(places: &[Option<usize>], name: u32) -> Option<usize>
    ensures { result ≡ place_of places.now name }
{
    match places.get(name as usize) {
        Some(place) => *place,
        None => None,
    }
}

/// Makes the table reach a name, and changes nothing that stands in it.
pub fn make_room(places: &mut Vec<Option<usize>>, name: u32) -> Result<(), AllocError>
    ensures room { OnOk result (name < length places.new.items) }
    ensures same { (other : ℕ) → place_of places.new.items other ≡ place_of places.old.items other }
{
    let at = name as usize;
    if at < places.len() {
        return Ok(());
    }
    places.resize(at + 1, None)
}

/// Writes the place of a name.
pub fn set_place(places: &mut Vec<Option<usize>>, name: u32, place: Option<usize>)
    requires { name < length places.old.items }
    ensures { places.new.items ≡ slice_set places.old.items name place }
{
    places[name as usize] = place;
}

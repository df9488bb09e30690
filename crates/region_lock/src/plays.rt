//! The rule of the table, and the names of its steps.

ghost use Rattle.std.specs.Prelude.{map};
ghost use Rattle.region_lock.specs.Boxes.{boxed, Boxed};
ghost use Rattle.region_lock.specs.Rule.{Orderly, counter, nobody};
ghost use Rattle.region_lock.specs.Plays.{taken, given, added, sat, counted, numbered, stamp_of, joined};

use crate::about::About;
use crate::kept::Kept;
use crate::view::View;
use atomic_table::{Join, Play, Split, TableRule};
use std::marker::{Brand, PhantomData};

pub struct Order<V> {
    marker: PhantomData<V>,
}

impl<V: Kept> TableRule<Option<Box<V>>, View, About<V>> for Order<V> {
    ghost holds = { λ about.
        Orderly (boxed V.region) (boxed V.list) (boxed V.plain) (map V.plain about.values.value.items)
        about.passes about.budget };

    ghost first = { λ _. counter 0 };
}

/// A fact about the value that a step finds. Each call of `take` picks it.
pub trait Told<V> {
    ghost fact: { V → Type 0 };
}

impl<V> Told<V> for Brand {
    ghost fact = { λ _. Unit {0} };
}

/// A region's word becomes the holder's number and 1 more, if it was 0, and its slot goes out to the holder.
pub struct Take<V, F> {
    marker: PhantomData<(V, F)>,
}

impl<V: Kept, F: Told<V>> Play<Option<Box<V>>, View> for Take<V, F> {
    ghost then = { taken (boxed V.region) (boxed V.list) (Boxed F.fact) };
}

/// A region's word becomes 0, and its slot goes home with the list as it was.
pub struct Give;

impl<W> Play<Option<W>, View> for Give {
    ghost then = { given };
}

/// A region's word becomes 0, and its slot goes home with one entry more. This is the one event.
pub struct Add<V> {
    marker: PhantomData<V>,
}

impl<V: Kept> Play<Option<Box<V>>, View> for Add<V> {
    ghost then = { added (boxed V.list) };
}

/// A new seat knows nothing.
pub struct Sit;

impl<W> Play<Option<W>, View> for Sit {
    ghost then = { sat };
}

/// A new pass gets the next number.
pub struct Number;

impl Split<View> for Number {
    ghost left = { counted };

    ghost right = { numbered };
}

/// A new seat has the last stamp of another, and nothing else.
pub struct Stamp;

impl Split<View> for Stamp {
    ghost left = { λ v. v };

    ghost right = { stamp_of };
}

/// A seat takes in what another knows, and the other is spent.
pub struct Both;

impl Join<View> for Both {
    ghost both = { joined };

    ghost spent = { nobody };
}

// One of the two keys of a record, so that a search is written once for both.
ghost use Rattle.std.specs.Prelude.{◌≡◌};

use crate::{BiHashItem, Key};
use std::marker::PhantomData;

pub trait Side {
    type R: Copy;

    type K: Key;

    ghost part: { Self.R → Self.K };

    fn part(one: &Self::R) -> Self::K
        ensures { result ≡ part one.now };
}

pub struct First<T: BiHashItem> {
    kind: PhantomData<T>,
}

impl<T: BiHashItem> Side for First<T> {
    type R = T;

    type K = T::K1;

    ghost part = { T.BiHashItem.first };

    fn part(one: &T) -> T::K1 {
        one.key1()
    }
}

pub struct Second<T: BiHashItem> {
    kind: PhantomData<T>,
}

impl<T: BiHashItem> Side for Second<T> {
    type R = T;

    type K = T::K2;

    ghost part = { T.BiHashItem.second };

    fn part(one: &T) -> T::K2 {
        one.key2()
    }
}

// The same record with its two keys exchanged, so that what is said of one key can be asked of the other.
use crate::BiHashItem;

#[derive(Clone, Copy, PartialEq, Eq)]
pub struct Crossed<T> {
    pub inner: T,
}

impl<T: BiHashItem> BiHashItem for Crossed<T> {
    type K1 = T::K2;

    type K2 = T::K1;

    ghost first = { λ item. T.BiHashItem.second item.inner };

    ghost second = { λ item. T.BiHashItem.first item.inner };

    fn key1(&self) -> T::K2 {
        self.inner.key2()
    }

    fn key2(&self) -> T::K1 {
        self.inner.key1()
    }
}

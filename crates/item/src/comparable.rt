// Kinds of records that also compare whole records.
ghost use Rattle.std.specs.Prelude.{◌≡◌, Bool, true};
ghost use Rattle.item.specs.Comparing.{same_keys};
ghost use Rattle.item.specs.Kinds.{kind_of};

use crate::BiHashItem;
use crate::crossed::Crossed;

// Records that are alike have the same keys, so that a map cannot tell them apart by a key.
pub trait Comparable: BiHashItem {
    ghost alike: { Self → Self → Bool };

    fn is_alike(&self, other: &Self) -> bool
        ensures answer { result ≡ alike self.now other.now }
        ensures keys { result ≡ true → same_keys (kind_of Self.BiHashItem Self.K1.Key Self.K2.Key) self.now other.now ≡ true };
}

// Exchanged keys change nothing of what the records hold.
impl<T: Comparable> Comparable for Crossed<T> {
    ghost alike = { λ a b. T.Comparable.alike a.inner b.inner };

    fn is_alike(&self, other: &Crossed<T>) -> bool {
        self.inner.is_alike(&other.inner)
    }
}

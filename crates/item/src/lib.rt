// Records with two keys.
#![tactic(auto)]

ghost use Rattle.std.specs.Prelude.{◌≡◌, Bool, true};
ghost use Rattle.hashing.specs.declared.Words.{Words as Hashed};

use hashing::Words;

pub mod comparable;
pub mod crossed;
pub mod predicate;
pub mod side;

// A kind of key: when two keys are equal, and what is hashed of one.
pub trait Key: Copy {
    ghost same: { Self → Self → Bool };

    ghost words: { Self → Hashed };

    fn equals(&self, other: &Self) -> bool
        ensures { result ≡ same self.now other.now };

    fn words(&self) -> Words
        ensures { result ≡ words self.now };

    ghost reflexive: { (a : Self) → same a a ≡ true };

    ghost symmetric: { (a b : Self) → same a b ≡ true → same b a ≡ true };

    ghost transitive: { (a b c : Self) → same a b ≡ true → same b c ≡ true → same a c ≡ true };

    ghost alike: { (a b : Self) → same a b ≡ true → words a ≡ words b };
}

// A kind of record, with its own two kinds of key.
pub trait BiHashItem: Copy {
    type K1: Key;

    type K2: Key;

    ghost first: { Self → Self.K1 };

    ghost second: { Self → Self.K2 };

    fn key1(&self) -> Self::K1
        ensures { result ≡ first self.now };

    fn key2(&self) -> Self::K2
        ensures { result ≡ second self.now };
}

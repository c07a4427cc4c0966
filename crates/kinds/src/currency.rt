// A currency, known by its three letters and by its number.
ghost use Rattle.std.specs.Prelude.{◌≡◌};
ghost use Rattle.hashing.specs.declared.Words.TheVariants.{One};
ghost use Rattle.kinds.specs.Comparing.{alike_currencies};
ghost use Rattle.kinds.specs.Currencies.{same_letters, letters_word, same_number, number_of};
ghost use Rattle.std.proofs.Common.{rules};

use hashing::Words;
use item::comparable::Comparable;
use item::{BiHashItem, Key};

// The three letters of a currency's code, each as a byte. Any bytes make a key.
#[derive(Clone, Copy, PartialEq, Eq)]
pub struct Letters {
    pub bytes: [u8; 3],
}

impl Key for Letters {
    ghost same = { same_letters };

    ghost words = { λ letters. One (letters_word letters) };

    ghost reflexive = { Prim.search rules };

    ghost symmetric = { Prim.search rules };

    ghost transitive = { Prim.search rules };

    ghost alike = { Prim.search rules };

    fn equals(&self, other: &Letters) -> bool {
        *self == *other
    }

    // The letters fit one word side by side, so that different letters give different words.
    fn words(&self) -> Words {
        let [a, b, c] = self.bytes;
        Words::One(u64::from(a) * 65536 + u64::from(b) * 256 + u64::from(c))
    }
}

// The number of a currency.
#[derive(Clone, Copy, PartialEq, Eq)]
pub struct Number {
    pub value: u16,
}

impl Key for Number {
    ghost same = { same_number };

    ghost words = { λ number. One number.value };

    ghost reflexive = { Prim.search rules };

    ghost symmetric = { Prim.search rules };

    ghost transitive = { Prim.search rules };

    ghost alike = { Prim.search rules };

    fn equals(&self, other: &Number) -> bool {
        *self == *other
    }

    fn words(&self) -> Words {
        Words::One(u64::from(self.value))
    }
}

// The minor unit is the count of decimal places of an amount.
#[derive(Clone, Copy, PartialEq, Eq)]
pub struct Currency {
    pub letters: Letters,
    pub number: u16,
    pub minor_unit: u8,
}

impl BiHashItem for Currency {
    type K1 = Letters;

    type K2 = Number;

    ghost first = { λ currency. currency.letters };

    ghost second = { number_of };

    fn key1(&self) -> Letters {
        self.letters
    }

    fn key2(&self) -> Number {
        Number { value: self.number }
    }
}

impl Comparable for Currency {
    ghost alike = { alike_currencies };

    fn is_alike(&self, other: &Currency) -> bool {
        *self == *other
    }
}

// A coin, known by its signature and by its channel.
ghost use Rattle.hashing.specs.declared.Words.TheVariants.{One, Three};
ghost use Rattle.kinds.specs.Coins.{same_signature, same_channel, signature_of, channel_of, of_currency};
ghost use Rattle.kinds.specs.Comparing.{alike_coins};
ghost use Rattle.std.proofs.Common.{rules};

use hashing::Words;
use item::comparable::Comparable;
use item::predicate::Predicate;
use item::{BiHashItem, Key};

// What a coin is: the number of its currency, its value and its issue. Any numbers make a key.
#[derive(Clone, Copy, PartialEq, Eq)]
pub struct Signature {
    pub currency: u16,
    pub value: u32,
    pub issue: u16,
}

impl Key for Signature {
    ghost same = { same_signature };

    ghost words = { λ signature. Three signature.currency signature.value signature.issue };

    ghost reflexive = { Prim.search rules };

    ghost symmetric = { Prim.search rules };

    ghost transitive = { Prim.search rules };

    ghost alike = { Prim.search rules };

    fn equals(&self, other: &Signature) -> bool {
        *self == *other
    }

    // A word for each part, so that different signatures give different words.
    fn words(&self) -> Words {
        Words::Three(
            u64::from(self.currency),
            u64::from(self.value),
            u64::from(self.issue),
        )
    }
}

// The number of the channel that takes a coin.
#[derive(Clone, Copy, PartialEq, Eq)]
pub struct Channel {
    pub number: u16,
}

impl Key for Channel {
    ghost same = { same_channel };

    ghost words = { λ channel. One channel.number };

    ghost reflexive = { Prim.search rules };

    ghost symmetric = { Prim.search rules };

    ghost transitive = { Prim.search rules };

    ghost alike = { Prim.search rules };

    fn equals(&self, other: &Channel) -> bool {
        *self == *other
    }

    fn words(&self) -> Words {
        Words::One(u64::from(self.number))
    }
}

// The bag size is the count of these coins in a full bag.
#[derive(Clone, Copy, PartialEq, Eq)]
pub struct Coin {
    pub currency: u16,
    pub value: u32,
    pub issue: u16,
    pub channel: u16,
    pub bag_size: u16,
}

impl BiHashItem for Coin {
    type K1 = Signature;

    type K2 = Channel;

    ghost first = { signature_of };

    ghost second = { channel_of };

    fn key1(&self) -> Signature {
        Signature {
            currency: self.currency,
            value: self.value,
            issue: self.issue,
        }
    }

    fn key2(&self) -> Channel {
        Channel {
            number: self.channel,
        }
    }
}

impl Comparable for Coin {
    ghost alike = { alike_coins };

    fn is_alike(&self, other: &Coin) -> bool {
        *self == *other
    }
}

// Keeps the coins of one currency, by its number.
#[derive(Clone, Copy)]
pub struct OfCurrency {
    pub number: u16,
}

impl Predicate for OfCurrency {
    type R = Coin;

    ghost keeps = { of_currency };

    fn keeps(&self, item: &Coin) -> bool {
        item.currency == self.number
    }
}

// FNV-1a with 64 bits.
ghost use Rattle.std.specs.Prelude.{◌≡◌, length, fold};
ghost use Rattle.hashing.specs.Fnv.{mixed, fnv1a, octets, fnv1a_words};

use crate::{WordHash, Words};

const BASIS: u64 = 14695981039346656037;

const PRIME: u64 = 1099511628211;

// One byte more.
fn mix(hash: u64, byte: u8) -> u64
    ensures { result ≡ mixed hash byte }
{
    (hash ^ u64::from(byte)).wrapping_mul(PRIME)
}

// More bytes.
fn mix_all(hash: u64, bytes: &[u8]) -> u64
    ensures { result ≡ fold mixed hash bytes.now }
{
    bytes.iter().fold(hash, |hash, byte| mix(hash, *byte))
}

// The hash of a text of bytes.
pub fn fnv1a_bytes(bytes: &[u8]) -> u64
    ensures { result ≡ fnv1a bytes.now }
{
    mix_all(BASIS, bytes)
}

// One word more, its highest byte first.
fn mix_word(hash: u64, word: u64) -> u64
    ensures { result ≡ fold mixed hash (octets word) }
{
    mix_all(hash, &word.to_be_bytes())
}

#[derive(Clone, Copy)]
pub struct Fnv1a;

impl WordHash for Fnv1a {
    ghost hashed = { λ _ words. fnv1a_words words };

    fn hash(&self, words: &Words) -> u64 {
        match *words {
            Words::One(a) => mix_word(BASIS, a),
            Words::Two(a, b) => mix_word(mix_word(BASIS, a), b),
            Words::Three(a, b, c) => mix_word(mix_word(mix_word(BASIS, a), b), c),
        }
    }
}

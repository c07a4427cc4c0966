// Hashes of one to three words of 64 bits.
#![tactic(auto)]

ghost use Rattle.std.specs.Prelude.{◌≡◌, ℕ};
ghost use Rattle.hashing.specs.declared.Words.{Words};

pub mod flat;
pub mod fnv;

// What is hashed of a key: one word, two or three.
#[derive(Clone, Copy)]
pub enum Words {
    One(u64),
    Two(u64, u64),
    Three(u64, u64, u64),
}

// A hash: the same words always give the same number.
pub trait WordHash {
    ghost hashed: { Self → Words → ℕ };

    fn hash(&self, words: &Words) -> u64
        ensures { result ≡ hashed self.now words.now };
}

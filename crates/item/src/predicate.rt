// A yes or no that the record alone decides, as a value, so that a call can be handed it.
ghost use Rattle.std.specs.Prelude.{◌≡◌, Bool};

use crate::crossed::Crossed;

pub trait Predicate {
    type R: Copy;

    ghost keeps: { Self → Self.R → Bool };

    fn keeps(&self, item: &Self::R) -> bool
        ensures { result ≡ keeps self.now item.now };
}

// Judges a crossed record by the record inside, so that one predicate serves both orders of the keys.
#[derive(Clone, Copy)]
pub struct Inside<P> {
    pub predicate: P,
}

impl<P: Predicate> Predicate for Inside<P> {
    type R = Crossed<P::R>;

    ghost keeps = { λ inside item. P.Predicate.keeps inside.predicate item.inner };

    fn keeps(&self, item: &Crossed<P::R>) -> bool {
        self.predicate.keeps(&item.inner)
    }
}

// How the slots of a set moved when it was compacted.
#[derive(Clone, Copy)]
pub enum IndexRemap {
    // No slot was vacant: each slot is where it was.
    Identity,
    // Place i of the scratch is the new slot of slot i, or the sentinel where slot i was vacant.
    Permuted,
}

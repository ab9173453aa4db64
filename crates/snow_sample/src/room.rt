use crate::dividing::Inverses;
use crate::places::Places;
use crate::shuffle::Shuffle;
use std::alloc::Global;

// What a sample is drawn in. It stays where it is, and each sample begins it anew.
#[derive(Debug, Drop)]
pub(crate) struct Room {
    pub(crate) shuffle: Shuffle,
    pub(crate) places: Places,
    pub(crate) inverses: Inverses,
}

impl Room {
    // None, as before the first sample. It takes no memory.
    pub(crate) fn new(alloc: Global) -> Room {
        Room {
            shuffle: Shuffle::new(alloc),
            places: Places::new(alloc),
            inverses: Inverses::new(alloc),
        }
    }
}

// What an update has in hand all the way: plain numbers, as in the registers that C programs keep.
#[derive(Clone, Copy, Default)]
pub struct Job {
    // how many pieces it has
    pub size: u32,
    // fresh blocks that it needs, that it has got, and that its working tree uses
    pub need: u32,
    pub got: u32,
    pub used: u32,
    // blocks that its working tree replaces
    pub retired: u32,
    // the root of its working tree; 0 for none, as in the words of the memory and in the registers that C keeps
    pub root: u32,
}

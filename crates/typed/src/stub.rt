// What a start hands out. It can be neither copied nor let go: only a withdraw or a score takes it back, and any
// round's will do.
pub struct Stub {
    // The number of the round that handed it out.
    pub(crate) number: u32,
}

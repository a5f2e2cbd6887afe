// A trace of state words: how many of the states it is, the controller whose runs are read, and the atoms that it owns.

#[derive(Clone, Copy)]
pub struct Traced<'a> {
    pub states: &'a [u64],
    pub count: usize,
    pub controller: usize,
    pub own: u32,
}

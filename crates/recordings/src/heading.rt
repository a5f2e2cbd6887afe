// A recording as it is handed over: what stands before the masks and states, and these in lent space.

// A recording whose masks and states are read: how many controllers and states it has.
#[derive(Clone, Copy)]
pub struct RecordingHeading {
    pub controllers: usize,
    pub count: usize,
}

#[derive(Clone, Copy)]
pub struct Recording<'a> {
    pub controllers: usize,
    pub count: usize,
    pub masks: &'a [u32],
    pub states: &'a [u64],
}

// The lent space of a session, all of it of its full size.
use rules::limits::Limits;
use sessions::heading::Heading;

#[derive(Drop)]
pub struct Space {
    pub heading: [usize; Heading::NUMBERS],
    pub masks: [u32; Limits::CONTROLLERS],
    pub nodes: [u32; Limits::RULE_NODES],
    pub states: [u64; Limits::STATES],
}

impl Space {
    // Before a session is opened.
    pub fn new() -> Space {
        Space {
            heading: [0; Heading::NUMBERS],
            masks: [0; Limits::CONTROLLERS],
            nodes: [0; Limits::RULE_NODES],
            states: [0; Limits::STATES],
        }
    }
}

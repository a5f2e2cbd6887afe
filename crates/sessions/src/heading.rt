// The heading of a session: C, controller, node count, states held.

#[derive(Clone, Copy)]
pub struct Heading {}

impl Heading {
    pub const NUMBERS: usize = 4;

    pub const CONTROLLERS: usize = 0;

    pub const CONTROLLER: usize = 1;

    pub const COUNT: usize = 2;

    pub const HELD: usize = 3;
}

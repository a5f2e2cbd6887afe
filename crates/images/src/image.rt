// The images of one node of a rule.
ghost use Rattle.std.specs.Prelude.{◌<◌};
ghost use Rattle.definitions.specs.Limits.{max_table_nodes};

// The numbers of the weak and the strong image of a rule's node, and whether it is tolerant.
#[derive(Clone, Copy)]
pub struct Image {
    pub weak: u16,
    pub strong: u16,
    pub tolerant: bool,
    ghost weak_small: { weak < max_table_nodes },
    ghost strong_small: { strong < max_table_nodes },
}

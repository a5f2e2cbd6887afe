// A rule and a judge's table as they are handed over: what stands before the nodes, and the nodes in lent space.

// A rule whose nodes are read: its controller and how many nodes it has.
#[derive(Clone, Copy)]
pub struct RuleHeading {
    pub controller: usize,
    pub count: usize,
}

#[derive(Clone, Copy)]
pub struct Rule<'a> {
    pub controller: usize,
    pub count: usize,
    pub nodes: &'a [u32],
}

#[derive(Clone, Copy)]
pub struct Table<'a> {
    pub count: usize,
    pub nodes: &'a [u32],
    pub weak_top: usize,
    pub strong_top: usize,
}

// The segments of a directory in chain order.
ghost use Rattle.std.specs.Prelude.{◌≡◌, ◌≤◌, length};

// The segments in chain order. In a file of its own, since the definition of their order, which `chain_of` cites, names it.
#[derive(Clone, Copy)]
pub struct Chain {
    pub count: usize,
    pub order: [usize; 31],
    pub ghost few: { count ≤ 31 },
}

impl Chain {
    ghost use Rattle.segment.specs.Chains.{order_of};

    // How many they are.
    pub fn len(&self) -> usize
        ensures count { result ≡ self.now.count }
        ensures long { result ≡ length (order_of self.now) }
    {
        self.count
    }

    // The segments.
    pub fn as_slice(&self) -> &[usize]
        ensures { result.now ≡ order_of self.now }
    {
        &self.order[0..self.count]
    }
}

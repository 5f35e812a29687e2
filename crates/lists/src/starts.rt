// A list of pairs that start boxes, kept without a heap.
ghost use Rattle.std.specs.Prelude.{◌≡◌, ◌≤◌};

// Room for the pairs of all 16 boxes, and how much of it is used: fixed memory, since the hub has no heap.
#[derive(Clone, Copy)]
pub struct Starts {
    room: [u8; 32],
    len: usize,
    ghost within: { len ≤ 32 },
}

impl Starts {
    ghost use Rattle.std.specs.Prelude.{◌≡◌, ◌+◌, ◌≤◌, [], ◌∷◌, ◌++◌, length};
    ghost use Rattle.lists.specs.Checks.{list_of};

    pub(crate) fn none() -> Starts
        ensures { list_of result ≡ [] }
    {
        Starts {
            room: [0; 32],
            len: 0,
        }
    }

    // The pair that starts box i comes last.
    pub(crate) fn push(&mut self, i: u8)
        requires { length (list_of self.old) + 2 ≤ 32 }
        ensures { list_of self.new ≡ list_of self.old ++ (i ∷ i ∷ []) }
    {
        self.room[self.len] = i;
        self.room[self.len + 1] = i;
        self.len += 2;
    }

    pub fn pairs(&self) -> &[u8]
        ensures { (result.now ≡ list_of self.now) × (length result.now ≤ 32) }
    {
        &self.room[..self.len]
    }
}

// The last 244 bytes of an input of any length. Document 01, "Sample hubs": "Of a longer input only the last 244 bytes need be kept, since B is
// never more."
#![tactic(auto)]

ghost use Rattle.std.specs.Prelude.{◌≡◌, ◌≤◌, []};

// How many bytes a tail has room for.
const ROOM: usize = 244;

// The first `len` of the bytes are what is held. An array with a length beside it, since the memory is fixed: what joins a tail can't fail.
#[derive(Clone, Copy)]
pub struct Tail {
    pub bytes: [u8; ROOM],
    pub len: usize,
    pub ghost within: { len ≤ 244 },
}

impl Tail {
    ghost use Rattle.tail.specs.Last.{held, Keeps, shown};

    // Of nothing.
    pub fn empty() -> Tail
        ensures { (held (shown result) ≡ []) × (result.len ≡ 0) }
    {
        Tail {
            bytes: [0; ROOM],
            len: 0,
        }
    }

    // The bytes that are held.
    pub fn held(&self) -> &[u8]
        ensures { result.now ≡ held (shown self.now) }
    {
        &self.bytes[..self.len]
    }

    // What is held, followed by what was read next. Of a long chunk no more than its own last 244 bytes count; of what was held stays what there is
    // room for before them.
    pub fn keep_last(self, chunk: &[u8]) -> Tail
        ensures { Keeps (shown self) chunk.now (shown result) }
    {
        let part = &chunk[chunk.len().saturating_sub(ROOM)..];
        let skip = (self.len + part.len()).saturating_sub(ROOM);
        let kept = self.len - skip;
        let len = kept + part.len();
        let mut bytes = self.bytes;
        bytes.copy_within(skip..self.len, 0);
        bytes[kept..len].copy_from_slice(part);
        Tail { bytes, len }
    }
}

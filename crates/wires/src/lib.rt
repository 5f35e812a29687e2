// The waiting messages of all wires, in one run of words. Document 01, "The steps of a box" and "Lists and the drain".
// Wire i = 16 * sender + receiver has the words from 48 + 36 * i on: a ring of 32, then the place of its oldest message, the number in the receiver's queue,
// the number under way, and one word unused. The queue is the older part of the ring, what is under way the younger, so a delivery copies no message.
// The first 48 words are no wire's: crate tables has them.
// Counts and places are read % 32, so that no word of the store can lead out of a wire's own part.
#![tactic(auto)]

ghost use Rattle.std.specs.Prelude.{◌≡◌, ◌+◌, ◌*◌, ◌%◌, ◌<◌, length};
ghost use Rattle.rules.specs.Sets.{word};
ghost use Rattle.wires.specs.Wires.{sixteen, waiting, queued, under_way, oldest, front, taken_word, Pushed, Arrived, Skipped, First, Taken, Cleared, Counted, Empty};

// ---- a message

// What one box says to a neighbour: NOTSPT with a set, or the list of an origin.
#[derive(Clone, Copy, PartialEq, Eq)]
pub enum Message {
    Notspt(u16),
    Neighbors { origin: u8, links: u16 },
}

impl Message {
    ghost use Rattle.wires.specs.Words.{set_in};
    ghost use Rattle.wires.specs.Messages.{said};

    // The set of a message, of either kind.
    pub fn set(self) -> u16
        ensures { result ≡ set_in (said self) }
    {
        match self {
            Message::Notspt(set) => set,
            Message::Neighbors { links, .. } => links,
        }
    }
}

// The word of a message: NOTSPT is its set, and the upper half of a list's word is its origin and 1.
impl From<Message> for u32 {
    ghost use Rattle.wires.specs.Words.{word_of};
    ghost use Rattle.wires.specs.Messages.{said};

    ghost from_gives = { λ m x. x ≡ word_of (said m) };

    fn from(m: Message) -> u32 {
        match m {
            Message::Notspt(set) => u32::from(set),
            Message::Neighbors { origin, links } => {
                let upper = u32::from(origin) + 1;
                upper * 65536 + u32::from(links)
            }
        }
    }
}

// Every word reads as a message.
impl From<u32> for Message {
    ghost use Rattle.wires.specs.Messages.{Reads};

    ghost from_gives = { λ x m. Reads m x };

    fn from(x: u32) -> Message {
        let set = (x % 65536) as u16;
        if x < 65536 {
            Message::Notspt(set)
        } else {
            Message::Neighbors {
                origin: ((x / 65536 + 15) % 16) as u8,
                links: set,
            }
        }
    }
}

// ---- a wire

// The way from one box to another, by its number.
#[derive(Clone, Copy)]
pub struct Wire {
    pub index: usize,
    pub ghost within: { index < 256 },
}

impl Wire {
    pub fn between(sender: usize, receiver: usize) -> Wire
        requires { (sender < 16) × (receiver < 16) }
        ensures { result.index ≡ sender * 16 + receiver }
    {
        Wire {
            index: sender * 16 + receiver,
        }
    }

    // The first of the wire's words.
    fn base(self) -> usize
        ensures { result ≡ self.index * 36 + 48 }
    {
        self.index * 36 + 48
    }
}

// Which of a wire's words has the place of the oldest message, the number in the queue, and the number under way.
const HEAD: usize = 32;

const QUEUED: usize = 33;

const WAY: usize = 34;

// How many messages a wire and its queue hold together.
const ROOM: u32 = 20;

// ---- the store

// What waits on all wires, and the tables before it. The library has no heap, so no Vec for each wire; and one array of words, not an array of rings, since
// `Formed`, `Others` and the laws of the store speak of one list of words.
#[derive(Drop)]
pub struct Store {
    pub words: [u32; 9264],
    pub ghost size: { length words ≡ 9264 },
}

impl Store {
    ghost use Rattle.wires.specs.Words.{word_of};
    ghost use Rattle.wires.specs.Messages.{said, Reads, Tells};

    // No message waits anywhere.
    pub fn new() -> Store
        ensures { Empty sixteen result.words }
    {
        Store { words: [0; 9264] }
    }

    // A place or a count of the wire.
    fn count(&self, wire: Wire, at: usize) -> u32
        requires { at < 36 }
        ensures { result ≡ word self.now.words (wire.index * 36 + 48 + at) % 32 }
    {
        self.words[wire.base() + at] % 32
    }

    // Four of the methods come twice: on a word, whatever it is, and, as the turns use them, on a message.

    // The word joins the wire's end. Where no room is left on the wire and its queue: false, and nothing changes (refusal 13).
    // A plain bool, as in `Pushed`: nothing stands beside it.
    pub fn push_word(&mut self, wire: Wire, word: u32) -> bool
        ensures { Pushed sixteen self.old.words wire.index word self.new.words result }
    {
        let head = self.count(wire, HEAD);
        let queued = self.count(wire, QUEUED);
        let way = self.count(wire, WAY);
        if queued + way < ROOM {
            let at = wire.base() + ((head + queued + way) % 32) as usize;
            self.words[at] = word;
            self.words[wire.base() + WAY] = way + 1;
            return true;
        }
        false
    }

    // The message joins the wire's end, as its word does.
    pub fn push(&mut self, wire: Wire, message: Message) -> bool
        ensures { Pushed sixteen self.old.words wire.index (word_of (said message)) self.new.words result }
    {
        self.push_word(wire, u32::from(message))
    }

    // The oldest word under way moves into the receiver's queue, and is the answer. Where none is under way: 0, and nothing changes.
    pub fn arrive_word(&mut self, wire: Wire) -> u32
        ensures { Arrived sixteen self.old.words wire.index self.new.words result }
    {
        let head = self.count(wire, HEAD);
        let queued = self.count(wire, QUEUED);
        let way = self.count(wire, WAY);
        if way == 0 {
            return 0;
        }
        let at = wire.base() + ((head + queued) % 32) as usize;
        let word = self.words[at];
        self.words[wire.base() + QUEUED] = queued + 1;
        self.words[wire.base() + WAY] = way - 1;
        word
    }

    // The same, and the answer is the message in that word. Where none is under way: None.
    pub fn arrive(&mut self, wire: Wire) -> Option<Message>
        ensures words { Arrived sixteen self.old.words wire.index self.new.words (oldest sixteen self.old.words wire.index) }
        ensures message { Tells result (under_way sixteen self.old.words wire.index) (oldest sixteen self.old.words wire.index) }
    {
        let way = self.under_way(wire);
        let word = self.arrive_word(wire);
        if way == 0 {
            return None;
        }
        Some(Message::from(word))
    }

    // The oldest message under way to a stopped receiver is taken and dropped. Where none is under way, or the queue is not empty, nothing changes.
    pub fn skip(&mut self, wire: Wire)
        ensures { Skipped sixteen self.old.words wire.index self.new.words }
    {
        let head = self.count(wire, HEAD);
        let queued = self.count(wire, QUEUED);
        let way = self.count(wire, WAY);
        if queued == 0 && way != 0 {
            self.words[wire.base() + HEAD] = (head + 1) % 32;
            self.words[wire.base() + WAY] = way - 1;
        }
    }

    // The word at the head of the queue. Of an empty queue it is what stands in the ring: the oldest under way, where there is one.
    pub fn first_word(&self, wire: Wire) -> u32
        ensures { First sixteen self.now.words wire.index result }
    {
        let head = self.count(wire, HEAD);
        self.words[wire.base() + head as usize]
    }

    // The message in that word.
    pub fn first(&self, wire: Wire) -> Message
        ensures word { First sixteen self.now.words wire.index (front sixteen self.now.words wire.index) }
        ensures message { Reads result (front sixteen self.now.words wire.index) }
    {
        Message::from(self.first_word(wire))
    }

    // Takes the head off the queue, and answers its word. Where the queue is empty: 0, and nothing changes.
    pub fn take_word(&mut self, wire: Wire) -> u32
        ensures { Taken sixteen self.old.words wire.index self.new.words result }
    {
        let head = self.count(wire, HEAD);
        let queued = self.count(wire, QUEUED);
        if queued == 0 {
            return 0;
        }
        let word = self.words[wire.base() + head as usize];
        self.words[wire.base() + HEAD] = (head + 1) % 32;
        self.words[wire.base() + QUEUED] = queued - 1;
        word
    }

    // The same, and the answer is the message in that word. Where the queue is empty: None.
    pub fn take(&mut self, wire: Wire) -> Option<Message>
        ensures words { Taken sixteen self.old.words wire.index self.new.words (taken_word sixteen self.old.words wire.index) }
        ensures message { Tells result (queued sixteen self.old.words wire.index) (taken_word sixteen self.old.words wire.index) }
    {
        let queued = self.queued(wire);
        let word = self.take_word(wire);
        if queued == 0 {
            return None;
        }
        Some(Message::from(word))
    }

    // "A stopping box empties its queues": what is under way stays.
    pub fn clear(&mut self, wire: Wire)
        ensures { Cleared sixteen self.old.words wire.index self.new.words }
    {
        let head = self.count(wire, HEAD);
        let queued = self.count(wire, QUEUED);
        self.words[wire.base() + HEAD] = (head + queued) % 32;
        self.words[wire.base() + QUEUED] = 0;
    }

    // How many messages wait in the receiver's queue.
    pub fn queued(&self, wire: Wire) -> usize
        ensures { Counted (queued sixteen self.now.words wire.index) (waiting sixteen self.now.words wire.index).queue result }
    {
        self.count(wire, QUEUED) as usize
    }

    // How many messages are under way.
    pub fn under_way(&self, wire: Wire) -> usize
        ensures { Counted (under_way sixteen self.now.words wire.index) (waiting sixteen self.now.words wire.index).way result }
    {
        self.count(wire, WAY) as usize
    }
}

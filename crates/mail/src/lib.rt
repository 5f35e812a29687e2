// One turn's messages, between a box and the store of waiting messages: what goes out, and what has come. Document 01, "The steps of a box".
#![tactic(auto)]

ghost use Rattle.std.specs.Prelude.{◌≡◌, ◌<◌};
ghost use Rattle.mail.specs.Gather.{got_nothing, gather_to, clear_to};
ghost use Rattle.mail.specs.Gathered.{got, Listed};

use sets::Members;
use wires::{Message, Store, Wire};

// ---- what goes out

// All that goes to one link.
#[derive(Drop)]
pub struct Letter {
    // NOTSPT {own} goes first, where the box wakes
    pub own: Option<u16>,
    // then what a round sends
    pub round: Option<Round>,
}

// The lists of the origins, and NOTSPT with the set behind them.
#[derive(Drop)]
pub struct Round {
    pub origins: u16,
    pub set: u16,
}

// How many messages were sent, and whether one found no room on its wire (refusal 13): a bool and no Err, since a run goes on past a full wire (`post_word`).
// The store and the wire stay parameters beside it: the store is lent on, and to other wires, between two letters.
#[derive(Drop)]
pub struct Counts {
    pub sent: u32,
    pub full: bool,
}

impl Counts {
    ghost use Rattle.wires.specs.Words.{word_of};
    ghost use Rattle.wires.specs.Messages.{said};
    ghost use Rattle.mail.specs.Post.{post_word, post_lists};
    ghost use Rattle.mail.specs.Letter.{posted, letter_of, post_link};

    // One message joins the wire.
    #[tactic(auto, unfolding(crate::specs::Post::post_word))]
    fn post(&mut self, store: &mut Store, wire: Wire, message: Message)
        ensures { posted store.new.words self.new ≡ post_word wire.index (word_of (said message)) (posted store.old.words self.old) }
    {
        if store.push(wire, message) {
            self.sent = self.sent.wrapping_add(1);
        } else {
            self.full = true;
        }
    }

    // "send Neighbors(K), ascending, for K in .."
    fn post_lists(&mut self, store: &mut Store, wire: Wire, origins: u16, known: &[u16; 16])
        ensures { posted store.new.words self.new ≡ post_lists wire.index origins known.now 16 (posted store.old.words self.old) }
    {
        for k in Members::of(origins) {
            self.post(
                store,
                wire,
                Message::Neighbors {
                    origin: k as u8,
                    links: known[k],
                },
            );
        }
    }

    // The lists are lent, since most letters carry none.
    #[tactic(auto, unfolding(crate::specs::Letter::post_link, crate::specs::Post::post_if))]
    pub fn post_link(&mut self, store: &mut Store, wire: Wire, letter: Letter, known: &[u16; 16])
        ensures { posted store.new.words self.new ≡ post_link wire.index (letter_of letter) known.now (posted store.old.words self.old) }
    {
        if let Some(own) = letter.own {
            self.post(store, wire, Message::Notspt(own));
        }
        if let Some(round) = letter.round {
            self.post_lists(store, wire, round.origins, known);
            self.post(store, wire, Message::Notspt(round.set));
        }
    }
}

// ---- what has come

// The list at the head of the queue of a wire, where one stands there: its origin and its links.
#[tactic(auto, unfolding(crate::specs::Gather::list_at))]
fn list_at(store: &Store, wire: Wire) -> Option<(u8, u16)>
    ensures { Listed result store.now.words wire.index }
{
    if store.queued(wire) == 0 {
        return None;
    }
    match store.first(wire) {
        Message::Neighbors { origin, links } => Some((origin, links)),
        Message::Notspt(_) => None,
    }
}

// What a round takes off the queues of a box: the sets at the heads, by link; the origins whose lists stood behind them, and those lists, by origin;
// the links whose queue still holds a message.
#[derive(Drop)]
pub struct Gathered {
    pub heads: [u16; 16],
    pub listed: u16,
    pub lists: [u16; 16],
    pub heard: u16,
}

impl Gathered {
    ghost use Rattle.wires.specs.Wires.{sixteen, queued};
    ghost use Rattle.mail.specs.Gather.{take_list, take_lists, gather_link};
    ghost use Rattle.mail.specs.Gathered.{got_of};

    // "Some queue has a Neighbors message at its head: take it and save its list." That list is the one of the origin.
    fn take_list(&mut self, store: &mut Store, wire: Wire, origin: u8, links: u16)
        requires { Listed (Some (origin, links)) store.old.words wire.index }
        ensures { got_of store.new.words self.new ≡ take_list wire.index (got_of store.old.words self.old) }
    {
        store.take(wire);
        let k = usize::from(origin);
        self.lists[k] = links;
        self.listed |= sets::only(k);
    }

    fn take_lists(&mut self, store: &mut Store, wire: Wire)
        ensures { got_of store.new.words self.new ≡ take_lists (queued sixteen store.old.words wire.index) wire.index (got_of store.old.words self.old) }
    {
        while let Some((origin, links)) = list_at(store, wire) {
            self.take_list(store, wire, origin, links);
        }
    }

    // From link j to box b: "Take one from each link", then the lists behind it. The link is still heard where its queue is not empty.
    fn gather_link(&mut self, store: &mut Store, b: usize, j: usize)
        requires { (b < 16) × (j < 16) }
        ensures { got_of store.new.words self.new ≡ gather_link b j (got_of store.old.words self.old) }
    {
        let wire = Wire::between(j, b);
        self.heads[j] = store.take(wire).map_or(0, Message::set);
        self.take_lists(store, wire);
        if store.queued(wire) != 0 {
            self.heard |= sets::only(j);
        }
    }
}

// All that a round of box b takes, ascending by link.
pub fn gather(store: &mut Store, b: usize, links: u16) -> Gathered
    requires { b < 16 }
    ensures { got store.new.words result.heads result.listed result.lists result.heard ≡ gather_to b links 16 (got_nothing store.old.words) }
{
    let mut all = Gathered {
        heads: [0; 16],
        listed: 0,
        lists: [0; 16],
        heard: 0,
    };
    for j in Members::of(links) {
        all.gather_link(store, b, j);
    }
    all
}

// ---- what is dropped

// "A stopping box empties its queues."
pub fn clear_all(store: &mut Store, b: usize, links: u16)
    requires { b < 16 }
    ensures { store.new.words ≡ clear_to b links 16 store.old.words }
{
    for j in Members::of(links) {
        store.clear(Wire::between(j, b));
    }
}

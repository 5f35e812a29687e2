// The three tables that a run carries from turn to turn, by box. They stand in the words of the store before the wires', so that they are lent with it
// and never copied.
#![tactic(auto)]

ghost use Rattle.std.specs.Prelude.{◌≡◌, ◌+◌, ◌<◌};
ghost use Rattle.rules.specs.Sets.{word};
ghost use Rattle.tables.specs.Tables.{Entered, laid};

use wires::Store;

// A table, and the word with which it begins.
#[derive(Clone, Copy)]
pub enum Table {
    // the link set of a box
    Links = 0,
    // the links whose queue holds a message
    Heard = 16,
    // the boxes to which it has messages under way
    Busy = 32,
}

impl Table {
    ghost use Rattle.tables.specs.Table.{begins, table_of, with_table};

    // The word that has the entry of box b.
    fn at(self, b: usize) -> usize
        requires { b < 16 }
        ensures { result ≡ begins self + b }
    {
        self as usize + b
    }

    // The entry of box b.
    pub fn of(self, store: &Store, b: usize) -> u16
        requires { b < 16 }
        ensures { result ≡ word (table_of self store.now.words) b }
    {
        (store.words[self.at(b)] % 65536) as u16
    }

    // The set s is the entry of box b.
    pub fn set(self, store: &mut Store, b: usize, s: u16)
        requires { b < 16 }
        ensures { Entered store.old.words store.new.words (with_table self store.old.words b s) }
    {
        store.words[self.at(b)] = u32::from(s);
    }
}

// The store of a sleeping hub: the link table is there, no queue holds a message, and nothing is under way.
pub fn lay(links: [u16; 16]) -> Store
    ensures { result.words ≡ laid links }
{
    let mut store = Store::new();
    for (b, set) in links.iter().enumerate() {
        Table::Links.set(&mut store, b, *set);
    }
    store
}

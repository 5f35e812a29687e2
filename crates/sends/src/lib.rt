// The last part of a turn, after the box's own step: what goes out, and what is carried on. Document 01, "Lists and the drain".
#![tactic(auto)]

ghost use Rattle.std.specs.Prelude.{◌≡◌, ◌%◌, ◌<◌, length, if◌then◌else◌};
ghost use Rattle.rules.specs.Sets.{word};
ghost use Rattle.tables.specs.Tables.{busy_of};
ghost use Rattle.boxes.specs.Departure.{shown_departure};
ghost use Rattle.mail.specs.Gather.{wire_of, clear_to};
ghost use Rattle.mail.specs.Letter.{posted, post_link};
ghost use Rattle.turn.specs.Turn.{less_of, letter, post_to, ends, put_def};
ghost use Rattle.turn.specs.Parts.{Kept};
ghost use Rattle.turn.specs.Code.{turn_with};

use boxes::Departure;
use mail::{Counts, Letter, Round};
use sets::Members;
use tables::Table;
use turn::Carried;
use wires::{Store, Wire};

// ---- what goes out

// What goes to box j.
fn post_one(store: &mut Store, o: &Departure, j: usize, c: &mut Counts)
    requires { j < 16 }
    ensures { posted store.new.words c.new ≡ post_link (wire_of (o.now.own % 16) j) (letter (shown_departure o.now) j) o.now.neighbors (posted store.old.words c.old) }
{
    let b = o.own % 16;
    let letter = Letter {
        own: o.wakes.then_some(sets::only(b)),
        round: o.round.as_ref().map(|sent| Round {
            origins: sent.origins[j],
            set: sent.sets[j],
        }),
    };
    c.post_link(store, Wire::between(b, j), letter, &o.neighbors);
}

// To every link, ascending. A box that neither wakes nor does a round sends nothing: most turns end here, with no table touched.
fn post_all(store: &mut Store, o: Departure, links: u16, c: &mut Counts)
    ensures { posted store.new.words c.new ≡ post_to (shown_departure o) links 16 (posted store.old.words c.old) }
{
    if o.sends() {
        // copied here and not before: what is lent lies in memory, and where nothing goes out it need not
        let out = o;
        for j in Members::of(links) {
            post_one(store, &out, j, c);
        }
    }
}

// ---- what is carried on

// "A stopping box empties its queues."
fn clear_ended(store: &mut Store, ended: bool, b: usize, links: u16)
    requires { b < 16 }
    ensures { store.new.words ≡ (if ended then clear_to b links 16 store.old.words else store.old.words) }
{
    if ended {
        mail::clear_all(store, b, links);
    }
}

// The receivers that the sender still has messages under way to: not b, once its last message was moved.
pub fn less_busy(store: &Store, moved: bool, a: usize, b: usize, to: u16) -> u16
    requires { (a < 16) × (b < 16) }
    ensures { result ≡ less_of store.now.words moved a b to }
{
    if moved && store.under_way(Wire::between(a, b)) == 0 {
        return sets::minus(to, sets::only(b));
    }
    to
}

// What is carried in the tables: what the receiver has heard, and what the sender and a box that sends have under way.
fn keep_tables(store: &mut Store, o: Departure, heard: u16, links: u16, to: u16)
    requires { heard ≡ (if ends (shown_departure o) then 0 else o.heard) }
    ensures { Kept (shown_departure o) links to store.old.words store.new.words }
{
    let b = o.own % 16;
    Table::Heard.set(store, b, heard);
    Table::Busy.set(store, o.from % 16, to);
    if o.sends() {
        let busy = Table::Busy.of(store, b) | links;
        Table::Busy.set(store, b, busy);
    }
}

// What goes out, and what is carried to the next turn, where the list has so many pairs.
#[tactic(auto, unfolding(turn::specs::Turn::ends))]
pub fn put(store: &mut Store, o: Departure, pairs: usize, c: &mut Carried)
    ensures { (turn_with c.new pairs store.new.words ≡ (put_def store.old.words (shown_departure o) (turn_with c.old pairs store.old.words)).turn) × (store.new.words ≡ (put_def store.old.words (shown_departure o) (turn_with c.old pairs store.old.words)).store) }
{
    let b = o.own % 16;
    let ended = o.stops && o.sends();
    let links = Table::Links.of(store, b);
    let a = o.from % 16;
    let to = less_busy(store, o.moved, a, b, Table::Busy.of(store, a));
    clear_ended(store, ended, b, links);
    // copied out and back: `posted` speaks of these two beside the store
    let mut counts = Counts {
        sent: c.sent,
        full: c.full,
    };
    post_all(store, o, links, &mut counts);
    let heard = if ended { 0 } else { o.heard };
    keep_tables(store, o, heard, links, to);
    c.after(pairs, o.moved);
    c.mark(b, ended, o.wakes);
    c.sent = counts.sent;
    c.full = counts.full;
}

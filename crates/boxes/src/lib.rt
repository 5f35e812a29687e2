// One box of the hub: its record, its start, a round, the lists it saves. Document 01, "The steps of a box". A box sees its own number and link set,
// its record, and what has come for it; the wires are another crate's.
#![tactic(auto)]

ghost use Rattle.std.specs.Prelude.{◌≡◌, ◌+◌, ◌%◌, ◌<◌, cond, eqb};
ghost use Rattle.rules.specs.Sets.{mem, word, union};
ghost use Rattle.rules.specs.Box.{asleep, started, take_sets, before};
ghost use Rattle.boxes.specs.Record.{state_number, box_of, record_of, shown};
ghost use Rattle.boxes.specs.Arrival.{shown_arrival};
ghost use Rattle.boxes.specs.Step.{hopped, without_each, save_all, sets_of, origins_of, is_stopped, step_def, shown_step};

use sets::Members;

// What a box is doing.
#[derive(Clone, Copy, Debug, PartialEq, Eq)]
pub enum State {
    Asleep,
    Awake,
    Stopped,
}

// Its number on the board: "state (0 asleep, 1 awake, 2 stopped)".
impl From<State> for u16 {
    ghost from_gives = { λ s n. n ≡ state_number s };

    fn from(s: State) -> u16 {
        match s {
            State::Asleep => 0,
            State::Awake => 1,
            State::Stopped => 2,
        }
    }
}

// "A record carries its arrays with it, tables and counts together."
#[derive(Clone, Copy)]
pub struct Record {
    // the number of its State; `deliver_at` of crate rows, which docs/PROMISES.md names, takes a record with any
    pub state: u16,
    pub hop: u16,
    pub nodes: [u16; 16],
    pub in_spt: [u16; 16],
    pub not_spt: [u16; 16],
    pub neighbors: [u16; 16],
}

// What has come for a box, gathered from the wires before its record is touched. Here and below the tables stand before the bools, so that they lie even
// and are copied in whole words.
#[derive(Drop)]
pub struct Arrival {
    // the receiving box and its link set, and the box that the message came from
    pub own: usize,
    pub from: usize,
    pub links: u16,
    // the origins whose lists are saved, after the round where there is one
    pub listed: u16,
    // the links whose queue holds a message after that
    pub heard: u16,
    // those lists, by origin
    pub lists: [u16; 16],
    // where every link has a NOTSPT at its head a round is done: the sets at the heads, by link
    pub heads: Option<[u16; 16]>,
    // a message was taken off its wire
    pub moved: bool,
    // it starts first
    pub wakes: bool,
}

// What goes out, with what the turn has to know of the arrival.
#[derive(Clone, Copy)]
pub struct Departure {
    pub own: usize,
    pub from: usize,
    pub heard: u16,
    // the lists, by origin, as known before this delivery's lists are saved
    pub neighbors: [u16; 16],
    // where a round was done, what it sends
    pub round: Option<Sent>,
    pub moved: bool,
    // NOTSPT {own} goes out on every link first
    pub wakes: bool,
    // the box has stopped: its queues are emptied
    pub stops: bool,
}

impl Departure {
    ghost use Rattle.std.specs.Prelude.{◌≡◌, ◌||◌};
    ghost use Rattle.boxes.specs.Departure.{shown_departure};

    // Whether anything goes out.
    pub fn sends(&self) -> bool
        ensures { result ≡ (shown_departure self.now).wakes || (shown_departure self.now).round }
    {
        self.wakes || self.round.is_some()
    }
}

// What a round sends, by link: the origins whose lists go out, as a set, and the NOTSPT behind them. Two tables, as `origins_of` and `sets_of` are.
#[derive(Clone, Copy)]
pub struct Sent {
    pub origins: [u16; 16],
    pub sets: [u16; 16],
}

#[derive(Drop)]
pub struct Stepped {
    pub record: Record,
    pub out: Departure,
}

// ---- sets of boxes, and tables of 16 of them

// What a table has at k, 0 past its end.
fn entry(t: &[u16; 16], k: usize) -> u16
    ensures { result ≡ word t.now k }
{
    t.get(k).copied().unwrap_or(0)
}

// The union of a table's sets.
#[tactic(auto, unfolding(rules::specs::Sets::union))]
fn union_of(t: &[u16; 16]) -> u16
    ensures { result ≡ union 16 t.now }
{
    let mut all = 0;
    for s in t {
        all |= s;
    }
    all
}

// By link, the set s without the table's set for that link.
fn without_each(s: u16, t: &[u16; 16]) -> [u16; 16]
    ensures { result ≡ without_each s t.now }
{
    // tried: `t.map(..)`. It proves, but with it and `array::from_fn(..)` for the saved lists a drain took twice as long
    let mut out = [0; 16];
    for (j, set) in t.iter().enumerate() {
        out[j] = sets::minus(s, *set);
    }
    out
}

// The listed entries of a table become those of lists. A choice over all sixteen and not a loop over `Members`, which ends in a branch that the processor
// does not foresee (docs/SPEED.md).
pub fn save_all(t: &mut [u16; 16], listed: u16, lists: &[u16; 16])
    ensures { t.new ≡ save_all t.old listed lists.now }
{
    if listed == 0 {
        return;
    }
    for k in 0..16 {
        t[k] = if sets::is_in(listed, k) {
            lists[k]
        } else {
            t[k]
        };
    }
}

// Nodes(HOP-1), nothing in round 0.
fn before_of(hop: u16, nodes: &[u16; 16]) -> u16
    ensures { result ≡ before hop nodes.now }
{
    if hop == 0 {
        0
    } else {
        entry(nodes, (hop as usize) - 1)
    }
}

// ---- a box

// "A sleeping box's block is all zero."
#[tactic(auto, unfolding(crate::specs::Record::record_of))]
pub fn asleep() -> Record
    ensures { shown result ≡ record_of (asleep 16) }
{
    let none = [0; 16];
    Record {
        state: u16::from(State::Asleep),
        hop: 0,
        nodes: none,
        in_spt: none,
        not_spt: none,
        neighbors: none,
    }
}

// Box i has started. "Nodes(0) is the box itself, all else is empty, its own link list is known .. With no link it stops, HOP 0."
pub fn started(i: usize, links: u16) -> Record
    ensures { shown result ≡ record_of (started 16 (i % 16) links) }
{
    let own = i % 16;
    let mut r = asleep();
    r.state = u16::from(state_with(links));
    r.nodes[0] = sets::only(own);
    r.neighbors[own] = links;
    r
}

// The state of a box that has the set s to go on with: its links at the start, its last Nodes set in a round. With none it stops.
fn state_with(s: u16) -> State
    ensures { state_number result ≡ cond (eqb s 0) 2 1 }
{
    if s == 0 { State::Stopped } else { State::Awake }
}

// A round's first half. "Take one from each link, ascending by neighbour. New identities are those in the set that are in no In_SPT yet; they join In_SPT
// of this link and Nodes(HOP+1). The whole set joins Not_SPT of this link." What is known and what was gained are kept beside the tables,
// so that a link costs no walk through In_SPT.
pub fn take_sets(r: &mut Record, links: u16, heads: &[u16; 16])
    ensures { shown r.new ≡ record_of (take_sets 16 links (word heads.now) (box_of (shown r.old))) }
{
    let mut known = union_of(&r.in_spt);
    let mut gained = 0;
    let next = (r.hop as usize) + 1;
    for j in Members::of(links) {
        let new = sets::minus(heads[j], known);
        known |= new;
        gained |= new;
        r.in_spt[j] |= new;
        r.not_spt[j] |= heads[j];
    }
    if next < 16 {
        r.nodes[next] |= gained;
    }
}

// "Add 1 to HOP. Stop if Nodes(HOP-1) is now empty."
pub fn next_hop(r: &mut Record)
    ensures { shown r.new ≡ record_of (hopped (box_of (shown r.old))) }
{
    r.state = u16::from(state_with(entry(&r.nodes, r.hop as usize)));
    r.hop = r.hop.saturating_add(1);
}

// By link, the NOTSPT of the round, of a box that has taken its sets: "Nodes(HOP+1) without In_SPT(J)".
#[tactic(auto, unfolding(crate::specs::Step::sets_of, crate::specs::Record::box_of))]
fn sets_of(b: &Record) -> [u16; 16]
    ensures { result ≡ sets_of (box_of (shown b.now)) }
{
    without_each(entry(&b.nodes, (b.hop as usize) + 1), &b.in_spt)
}

// By link, the origins whose lists go out: "Nodes(HOP-1) without Not_SPT(J)".
#[tactic(auto, unfolding(crate::specs::Step::origins_of, crate::specs::Record::box_of))]
fn origins_of(b: &Record) -> [u16; 16]
    ensures { result ≡ origins_of (box_of (shown b.now)) }
{
    without_each(before_of(b.hop, &b.nodes), &b.not_spt)
}

// The box has stopped: it saves no more lists.
#[tactic(auto, unfolding(crate::specs::Record::box_of))]
fn has_stopped(b: &Record) -> bool
    ensures { result ≡ is_stopped (box_of (shown b.now)) }
{
    b.state == u16::from(State::Stopped)
}

// All that one delivery, or one start, makes of a box: it starts where it slept, does a round where every link has a NOTSPT at its head, and saves
// the lists unless it has stopped. One function, so that a record is not copied from part to part. A round alone works on a copy, and the lists on
// tables of their own: a struct with a table in which a box's entry is looked up lies in memory and is copied whole, and turns with no round would pay.
pub fn step(r: Record, a: Arrival) -> Stepped
    ensures { shown_step result ≡ step_def (shown r) (shown_arrival a) }
{
    let mut q = r;
    if a.wakes {
        q = started(a.own, a.links);
    }
    let mut round = None;
    if let Some(heads) = a.heads {
        let mut t = q;
        take_sets(&mut t, a.links, &heads);
        let origins = origins_of(&t);
        let sets = sets_of(&t);
        round = Some(Sent { origins, sets });
        next_hop(&mut t);
        q = t;
    }
    let known = q.neighbors;
    let stops = has_stopped(&q);
    let listed = if stops { 0 } else { a.listed };
    let lists = a.lists;
    let mut saved = known;
    save_all(&mut saved, listed, &lists);
    q.neighbors = saved;
    Stepped {
        record: q,
        out: Departure {
            own: a.own,
            from: a.from,
            heard: a.heard,
            neighbors: known,
            round,
            moved: a.moved,
            wakes: a.wakes,
            stops,
        },
    }
}

// The two ends of what is served next: the pair, and what a turn has to know of its receiver. That both are boxes stands in the types.

ghost use Rattle.std.specs.Prelude.{◌<◌};

use boxes::State;

// The wire that is served next: a start where both ends are one box.
#[derive(Clone, Copy)]
pub struct Pair {
    pub from: usize,
    pub to: usize,
    pub ghost from_box: { from < 16 },
    pub ghost to_box: { to < 16 },
}

// What a turn has to know of the receiver: its number and link set, the links whose queue holds a message, how it stands.
#[derive(Clone, Copy)]
pub struct Receiver {
    pub own: usize,
    pub links: u16,
    pub heard: u16,
    pub state: State,
    pub ghost is_box: { own < 16 },
}

impl Receiver {
    ghost use Rattle.std.specs.Prelude.{◌≡◌};
    ghost use Rattle.turn.specs.Code.{words_of};

    pub fn sleeps(&self) -> bool
        ensures { result ≡ (words_of self.now).sleeps }
    {
        self.state == State::Asleep
    }

    pub fn stopped(&self) -> bool
        ensures { result ≡ (words_of self.now).stopped }
    {
        self.state == State::Stopped
    }
}

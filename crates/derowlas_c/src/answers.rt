// What C programs are answered, by value: 0 and what was asked for, or a refusal's number and zeros. The structs are `#[repr(C)]`, and include/derowlas.h
// has their fields in this order. One From for each, since the header names the fields of each.
ghost use Rattle.std.specs.Prelude.{◌≡◌};
ghost use Rattle.derowlas_c.specs.Answers.{reading_for, written_for, allowed_for, ran_for, drained_for};

use refusals::Refusal;

#[repr(C)]
#[derive(Drop)]
pub struct Reading {
    pub number: u32,
    pub boxes: u32,
    pub links: u32,
}

impl From<Result<reading::Reading, Refusal>> for Reading {
    ghost from_gives = { λ r c. c ≡ reading_for r };

    fn from(answer: Result<reading::Reading, Refusal>) -> Reading {
        match answer {
            Ok(r) => Reading {
                number: 0,
                boxes: r.boxes,
                links: r.links,
            },
            Err(e) => Reading {
                number: u32::from(e),
                boxes: 0,
                links: 0,
            },
        }
    }
}

#[repr(C)]
#[derive(Drop)]
pub struct Written {
    pub number: u32,
    pub length: u32,
}

impl From<Result<u32, Refusal>> for Written {
    ghost from_gives = { λ r c. c ≡ written_for r };

    fn from(answer: Result<u32, Refusal>) -> Written {
        match answer {
            Ok(length) => Written { number: 0, length },
            Err(e) => Written {
                number: u32::from(e),
                length: 0,
            },
        }
    }
}

#[repr(C)]
#[derive(Drop)]
pub struct Allowed {
    pub number: u32,
    pub identities: u32,
}

impl From<Result<u32, Refusal>> for Allowed {
    ghost from_gives = { λ r c. c ≡ allowed_for r };

    fn from(answer: Result<u32, Refusal>) -> Allowed {
        match answer {
            Ok(identities) => Allowed {
                number: 0,
                identities,
            },
            Err(e) => Allowed {
                number: u32::from(e),
                identities: 0,
            },
        }
    }
}

// A run's has no `finished`: a list ends where it ends, and `under_way` says what it left.
#[repr(C)]
#[derive(Drop)]
pub struct Ran {
    pub number: u32,
    pub sent: u32,
    pub moved: u32,
    pub under_way: u32,
}

impl From<Result<hub::Answer, Refusal>> for Ran {
    ghost from_gives = { λ r c. c ≡ ran_for r };

    fn from(answer: Result<hub::Answer, Refusal>) -> Ran {
        match answer {
            Ok(r) => Ran {
                number: 0,
                sent: r.sent,
                moved: r.moved,
                under_way: r.under_way,
            },
            Err(e) => Ran {
                number: u32::from(e),
                sent: 0,
                moved: 0,
                under_way: 0,
            },
        }
    }
}

#[repr(C)]
#[derive(Drop)]
pub struct Drained {
    pub number: u32,
    pub sent: u32,
    pub moved: u32,
    pub under_way: u32,
    pub finished: bool,
}

impl From<Result<hub::Answer, Refusal>> for Drained {
    ghost from_gives = { λ r c. c ≡ drained_for r };

    fn from(answer: Result<hub::Answer, Refusal>) -> Drained {
        match answer {
            Ok(r) => Drained {
                number: 0,
                sent: r.sent,
                moved: r.moved,
                under_way: r.under_way,
                finished: r.finished,
            },
            Err(e) => Drained {
                number: u32::from(e),
                sent: 0,
                moved: 0,
                under_way: 0,
                finished: false,
            },
        }
    }
}

// Why a call is refused. Document 01, "Numbers given when the hub refuses".
#![tactic(auto)]

ghost use Rattle.std.specs.Prelude.{◌≡◌, ◌<◌};
ghost use Rattle.refusals.specs.Numbers.{number};

// The refusals, each with its number, 1 to 15. B, P, N and the version are the trailer's bytes.
#[derive(Clone, Copy, Debug, PartialEq, Eq)]
pub enum Refusal {
    // The sheet is shorter than 4 bytes.
    ShortSheet = 1,
    // The version is not 1.
    Version = 2,
    // N is 0 or above 16.
    Boxes = 3,
    // P is above 120.
    Links = 4,
    // B is not 4 + 2P, or points beyond the file's start.
    Back = 5,
    // A pair names a box of N or above.
    PairBox = 6,
    // The first of a pair is not lower than the second.
    PairTurned = 7,
    // A pair is not above the one before.
    PairOrder = 8,
    // The list is of odd length or over 60,000 bytes.
    ListLength = 9,
    // The list or the start set names a box of N or above.
    ListBox = 10,
    // The list names two different boxes without a link.
    ListLink = 11,
    // The board is below 66N words, or the link table is not of 16 words.
    Room = 12,
    // A message would be the 21st that waits on one wire and its receiving queue together.
    WireFull = 13,
    // The table to write is not of 16 words, not the same both ways, links a box to itself, or names a box of N or above.
    Table = 14,
    // The buffer to write is below 4 + 2P bytes.
    Buffer = 15,
}

// The number of document 01.
impl From<Refusal> for u32 {
    ghost from_gives = { λ refusal n. n ≡ number refusal };

    fn from(refusal: Refusal) -> u32 {
        refusal as u32
    }
}

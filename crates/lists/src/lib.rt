// What a list and a start set are refused with, and a start set as a list. Document 01, "Lists and the drain" and "Numbers given when the hub refuses".
#![tactic(auto)]

ghost use Rattle.std.specs.Prelude.{◌≡◌, ◌+◌, ◌^◌, ◌≤◌, [], ◌∷◌, ◌++◌, length};
ghost use Rattle.refusals.specs.Numbers.{number_of};
ghost use Rattle.lists.specs.Checks.{pair_number, list_number, start_pairs, list_of};

use refusals::Refusal;
use sets::Members;
pub use starts::Starts;

mod starts;

// ---- the list is checked whole before its first pair is done

// A pair of the list: each of its boxes is below N, and two different ones have a link.
#[tactic(auto, unfolding(crate::specs::Checks::pair_number))]
fn check_pair(n: usize, table: &[u16; 16], a: usize, b: usize) -> Result<(), Refusal>
    requires { n ≤ 16 }
    ensures { number_of result ≡ pair_number n table.now a b }
{
    if n <= a || n <= b {
        return Err(Refusal::ListBox);
    }
    if a != b && !sets::is_in(table[a], b) {
        return Err(Refusal::ListLink);
    }
    Ok(())
}

// 9 for a list of odd length or over 60,000 bytes, then pair by pair 10 and 11. N and the table stand beside one another, as `list_number` takes them.
pub fn check(list: &[u8], n: usize, table: &[u16; 16]) -> Result<(), Refusal>
    requires { n ≤ 16 }
    ensures { number_of result ≡ list_number n table.now list.now }
{
    if list.len() % 2 == 1 || 60000 < list.len() {
        return Err(Refusal::ListLength);
    }
    let (pairs, _) = list.as_chunks::<2>();
    for pair in pairs {
        check_pair(n, table, usize::from(pair[0]), usize::from(pair[1]))?;
    }
    Ok(())
}

// ---- a set of boxes to start, as a list of pairs

pub fn start_list(starts: u16) -> Starts
    ensures { list_of result ≡ start_pairs 16 starts }
{
    let mut list = Starts::none();
    for i in Members::of(starts) {
        list.push(i as u8);
    }
    list
}

// The first number that is no set of boxes below n.
pub fn past_boxes(n: usize) -> u32
    requires { n ≤ 16 }
    ensures { result ≡ 2 ^ n }
{
    1 << n
}

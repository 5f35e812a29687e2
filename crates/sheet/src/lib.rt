// The link sheet, parsed: `parse` gives what is on it, or why it is refused. Document 01, "The link sheet" and "Numbers given when the hub refuses".
#![tactic(auto)]

ghost use Rattle.std.specs.Prelude.{◌≡◌, ◌<◌, ◌≤◌, length, replicate, OnOk};
ghost use Rattle.rules.specs.Sheet.{link, pairs};
ghost use Rattle.refusals.specs.Numbers.{number_of};
ghost use Rattle.sheet.specs.Answers.{pair_number, pairs_answer, pairs_of, trailer_number, Trailed, parsed_of, ParsedFrom};

use refusals::Refusal;

// ---- the table

// A link joins the table, both ways.
#[tactic(auto, unfolding(rules::specs::Sheet::link, rules::specs::Sets::join_at))]
fn add_link(table: &mut [u16; 16], a: usize, b: usize)
    requires { (a < 16) × (b < 16) }
    ensures { table.new ≡ link a b table.old }
{
    table[a] |= sets::only(b);
    table[b] |= sets::only(a);
}

// ---- the pairs

// A pair after the pair before it. "Pair by pair 6 to 8."
#[tactic(auto, unfolding(crate::specs::Answers::pair_number, rules::specs::Sheet::above))]
fn check_pair(n: usize, before: (usize, usize), pair: (usize, usize)) -> Result<(), Refusal>
    ensures { number_of result ≡ pair_number n before.0 before.1 pair.0 pair.1 }
{
    let (c, d) = pair;
    if n <= c || n <= d {
        return Err(Refusal::PairBox);
    }
    if d <= c {
        return Err(Refusal::PairTurned);
    }
    if pair <= before {
        return Err(Refusal::PairOrder);
    }
    Ok(())
}

// The pair reader: `part` is the part of the sheet that holds the pairs.
fn read_pairs(n: usize, part: &[u8]) -> Result<[u16; 16], Refusal>
    requires { n ≤ 16 }
    ensures { pairs_of result ≡ pairs_answer (pairs n 0 0 0 part.now (replicate 16 0)) }
{
    let mut table = [0u16; 16];
    let mut before = (0, 0);
    let (pairs, _) = part.as_chunks::<2>();
    for pair in pairs {
        let pair = (usize::from(pair[0]), usize::from(pair[1]));
        check_pair(n, before, pair)?;
        add_link(&mut table, pair.0, pair.1);
        before = pair;
    }
    Ok(table)
}

// ---- the sheet

// A sheet that was read: N, P and the link set of each box. N is a plain usize, as a box's number is (crate sets), with `N ≤ 16` asked here and above where 16
// entries or 16 digits are one for each box; of every sheet that was read `ParsedFrom` says it.
#[derive(Clone, Copy)]
pub struct Sheet {
    pub boxes: usize,
    pub links: usize,
    pub table: [u16; 16],
}

// The trailer of a sheet of `end` bytes: "The order is the table's", here 2 to 5.
#[tactic(auto, unfolding(crate::specs::Answers::trailer_number))]
fn check_trailer(end: usize, b: usize, p: usize, n: usize, version: u8) -> Result<(), Refusal>
    ensures { (number_of result ≡ trailer_number end b p n version) × OnOk result (Trailed end b p n) }
{
    if version != 1 {
        return Err(Refusal::Version);
    }
    if n == 0 || 16 < n {
        return Err(Refusal::Boxes);
    }
    if 120 < p {
        return Err(Refusal::Links);
    }
    if b != 4 + 2 * p || end < b {
        return Err(Refusal::Back);
    }
    Ok(())
}

// The sheet is read from its end: the trailer is B, P, N, version. B cuts the part with the pairs from the sheet's middle.
pub fn parse(sheet: &[u8]) -> Result<Sheet, Refusal>
    ensures { ParsedFrom sheet.now (parsed_of result) }
{
    let Some((before, trailer)) = sheet.split_last_chunk::<4>() else {
        return Err(Refusal::ShortSheet);
    };
    let b = usize::from(trailer[0]);
    let links = usize::from(trailer[1]);
    let boxes = usize::from(trailer[2]);
    check_trailer(sheet.len(), b, links, boxes, trailer[3])?;
    let table = read_pairs(boxes, &before[sheet.len() - b..])?;
    Ok(Sheet {
        boxes,
        links,
        table,
    })
}

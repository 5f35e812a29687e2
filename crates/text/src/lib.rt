// The text of the printing program, put into a lent buffer. Document 01, end of "Sample hubs".
#![tactic(auto)]

ghost use Rattle.std.specs.Prelude.{◌≡◌, ◌-◌, ◌^◌, ◌<◌, ◌≤◌, length, take, position, IfOk};
ghost use Rattle.rules.specs.Sets.{mem, each};
ghost use Rattle.lines.specs.Put.{HasRoom, Put, Puts};
ghost use Rattle.text.specs.Text.{route, routes, printed, printed_in};
ghost use Rattle.text.specs.Drained.{text_of};

use lines::Page;
use refusals::Refusal;
use sheet::Sheet;

// ---- routes

// The first of a table's words that has the origin j.
fn first_with(table: &[u16], j: usize) -> Option<usize>
    requires { j < 16 }
    ensures { result ≡ position (mem j) table.now }
{
    table.iter().position(|s| sets::is_in(*s, j))
}

// The line of box i for the origin j, where j is another member of its group.
fn put_route(board: &[u16; 1056], i: usize, j: usize, page: &mut Page<'_>)
    requires { (i < 16) × ((j < 16) × HasRoom page.old (route board.now i j)) }
    ensures { Puts page.old (route board.now i j) page.new }
{
    if i == j {
        return;
    }
    let nodes = &board[66 * i + 2..66 * i + 18];
    let in_spt = &board[66 * i + 18..66 * i + 34];
    let Some(hops) = first_with(nodes, j) else {
        return;
    };
    // 16 where none has it, as `route` says
    let from = first_with(in_spt, j).unwrap_or(16);
    page.put_line(i, j, hops, from);
}

// The lines of box i.
fn put_box(board: &[u16; 1056], i: usize, boxes: usize, page: &mut Page<'_>)
    requires { (i < 16) × ((boxes ≤ 16) × HasRoom page.old (each boxes (route board.now i))) }
    ensures { Puts page.old (each boxes (route board.now i)) page.new }
{
    for j in 0..boxes {
        put_route(board, i, j, page);
    }
}

// The lines of all boxes.
fn put_routes(board: &[u16; 1056], boxes: usize, page: &mut Page<'_>)
    requires { (boxes ≤ 16) × HasRoom page.old (routes board.now boxes) }
    ensures { Puts page.old (routes board.now boxes) page.new }
{
    for i in 0..boxes {
        put_box(board, i, boxes, page);
    }
}

// ---- the whole text

// The set of all boxes; 2^16 is no u16.
fn every_box(n: usize) -> u16
    requires { n ≤ 16 }
    ensures { result ≡ 2 ^ n - 1 }
{
    ((1u32 << n) - 1) as u16
}

// A sheet that was drained: how many messages that moved, and the board that it left.
#[derive(Clone, Copy)]
struct Drained {
    sheet: Sheet,
    moved: u32,
    board: [u16; 1056],
}

// Starts every box of a sheet, and drains.
fn drain_all(sheet: &[u8]) -> Result<Drained, Refusal>
    ensures told { printed sheet.now ≡ text_of result }
    ensures boxes_most { IfOk result (λ d. d.sheet.boxes ≤ 16) }
{
    let found = sheet::parse(sheet)?;
    let mut board = [0; 1056];
    let done = hub::drain(sheet, every_box(found.boxes), 4560, &mut board)?;
    Ok(Drained {
        sheet: found,
        moved: done.moved,
        board,
    })
}

// Starts every box of a sheet, drains, and puts what is to be printed at the start of a lent buffer; the rest stays. The answer is how many bytes
// that is. A buffer of 4,096 bytes holds every text; a shorter one stays as it is, and the answer is 0: the contract of `put_text` has that number,
// so no Option stands for it.
pub fn put_text(sheet: &[u8], text: &mut [u8]) -> usize
    ensures put { Put text.old 0 (printed_in sheet.now text.old) result text.new }
    ensures upper_bound { (result ≤ length text.new) × (result ≡ length (take result text.new)) }
{
    if text.len() < 4096 {
        return 0;
    }
    let mut page = Page::new(text);
    let drained = match drain_all(sheet) {
        Ok(drained) => drained,
        Err(refusal) => {
            page.put_refusal(u32::from(refusal));
            return page.at;
        }
    };
    page.put_heading(drained.sheet.boxes, drained.sheet.links, drained.moved);
    put_routes(&drained.board, drained.sheet.boxes, &mut page);
    page.at
}

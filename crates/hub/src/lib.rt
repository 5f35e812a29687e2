// The hub's two calls: the run of a list of deliveries, and the drain. Document 01, "Lists and the drain" and "Numbers given when the hub refuses".
#![tactic(auto)]

ghost use Rattle.std.specs.Prelude.{◌≡◌, ◌≤◌, length};
ghost use Rattle.rules.specs.Hub.{run, drain, sleeping};
ghost use Rattle.rules.specs.Rest.{Table};
ghost use Rattle.rules.specs.Calls.{hub_answer, fitting, run_call, drain_call};
ghost use Rattle.order.specs.Terms.{Names};
ghost use Rattle.hub.specs.Answers.{answer_of};

use refusals::Refusal;
use sheet::Sheet;

// What a run or a drain answers: how many messages boxes sent, how many were delivered, how many are under way, and whether none is.
#[derive(Clone, Copy)]
pub struct Answer {
    pub sent: u32,
    pub moved: u32,
    pub under_way: u32,
    pub finished: bool,
}

// ---- the calls

// What is left of a call once its sheet and its list are fine: the board's room, the run of the list and then the drain, and the board.
fn do_all(list: &[u8], sheet: &Sheet, budget: u32, board: &mut [u16]) -> Result<Answer, Refusal>
    requires { (sheet.now.boxes ≤ 16) × ((length list.now ≤ 60000) × (Table 16 sheet.now.table × Names 16 sheet.now.table list.now)) }
    ensures { answer_of result board.new ≡ hub_answer 16 sheet.now.boxes board.old (fitting 16 sheet.now.boxes board.old (drain 16 20 sheet.now.table budget (run 16 20 sheet.now.table list.now (sleeping 16)))) }
{
    if board.len() < 66 * sheet.boxes {
        return Err(Refusal::Room);
    }
    let ran = turns::run_own(list, sheet.table, budget as usize);
    let last = ran.turn;
    if last.full {
        return Err(Refusal::WireFull);
    }
    board::put_board(&ran.row, sheet.boxes, board);
    let under_way = last.sent - last.moved;
    Ok(Answer {
        sent: last.sent,
        moved: last.moved,
        under_way,
        finished: under_way == 0,
    })
}

// Runs a list of deliveries on a sheet from a sleeping hub, and writes the board.
pub fn run(sheet: &[u8], list: &[u8], board: &mut [u16]) -> Result<Answer, Refusal>
    ensures { answer_of result board.new ≡ run_call sheet.now list.now board.old }
{
    let found = sheet::parse(sheet)?;
    lists::check(list, found.boxes, &found.table)?;
    do_all(list, &found, 0, board)
}

// Starts a set of boxes, delivers the first message that it finds until none is under way or the budget is spent, and writes the board.
pub fn drain(sheet: &[u8], starts: u16, budget: u32, board: &mut [u16]) -> Result<Answer, Refusal>
    ensures { answer_of result board.new ≡ drain_call sheet.now starts budget board.old }
{
    let found = sheet::parse(sheet)?;
    if lists::past_boxes(found.boxes) <= u32::from(starts) {
        return Err(Refusal::ListBox);
    }
    let list = lists::start_list(starts);
    do_all(list.pairs(), &found, budget, board)
}

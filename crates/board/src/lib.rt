// The board, written from the row of records. Document 01, "The tables at rest": "66 for each box: state (0 asleep, 1 awake, 2 stopped), HOP,
// then Nodes(0..15), In_SPT(0..15), Not_SPT(0..15), Neighbors(0..15)". A sleeping box's record is all zero, and so its block is.
#![tactic(auto)]

ghost use Rattle.std.specs.Prelude.{◌≡◌, ◌*◌, ◌≤◌, ◌++◌, length, drop, get_or};
ghost use Rattle.rules.specs.Sets.{each};
ghost use Rattle.rules.specs.Hub.{block, block_words};
ghost use Rattle.boxes.specs.Record.{shown, shown_row, box_of, blank};

use boxes::Record;

// A box's block: state and HOP, then its tables.
fn put_block(words: &mut [u16], r: &Record)
    requires { length words.old ≡ 66 }
    ensures { words.new ≡ block (box_of (shown r.now)) }
{
    words[0] = r.state;
    words[1] = r.hop;
    words[2..18].copy_from_slice(&r.nodes);
    words[18..34].copy_from_slice(&r.in_spt);
    words[34..50].copy_from_slice(&r.not_spt);
    words[50..66].copy_from_slice(&r.neighbors);
}

// The blocks of the first boxes of the row, from the board's start. "Words past 66N stay."
pub fn put_board(row: &[Record; 16], boxes: usize, board: &mut [u16])
    requires { (boxes ≤ 16) × (66 * boxes ≤ length board.old) }
    ensures { board.new ≡ each boxes (λ i. block (box_of (get_or (shown_row row.now) i blank))) ++ drop (block_words 16 * boxes) board.old }
{
    // by index: of a zip with chunks_exact_mut a proof knows no word of the board afterwards
    for (i, r) in row[..boxes].iter().enumerate() {
        put_block(&mut board[66 * i..66 * i + 66], r);
    }
}

// The printing program. Document 01, end of "Sample hubs": reads a sheet from standard input, starts every box, drains, and prints the routes of
// each box, or the refusal. What the system reads and writes no contract can say; which bytes are kept of a reader's is what `read_all` says, and the
// text that is printed of them is crate text's. That the text of what is kept is the text of all that was read is `kept_prints` of text.
#![tactic(auto)]

ghost use Rattle.std.specs.Prelude.{◌≡◌, IfOk, IfSome, IsNone};
ghost use Rattle.std.specs.Io.KnownBytes.{IsAtEnd};
ghost use Rattle.tail.specs.Last.{last_of, held, shown};
ghost use Rattle.derowlas.specs.Reading.{SameLast, held_after, IfWhole};

use std::io;
use std::io::Read;
use tail::Tail;

// What has been read, by the last bytes of it: the whole input, or a part of it, after which there may be more.
enum Input {
    Whole(Tail),
    Part(Tail),
}

// Reads once. What came joins the tail, so that the last bytes of what is held and what is left to read stay the same. At the end of the input
// nothing came.
fn read_some<R: Read>(from: &mut R, t: Tail) -> io::Result<Option<Tail>>
    ensures kept { SameLast (shown t) (R.remaining from.old) (held_after (shown t) result) (R.remaining from.new) }
    ensures end { IfOk result (λ s. IsNone s → IsAtEnd (R.remaining from.new)) }
{
    let mut chunk = [0u8; 65536];
    match from.read(&mut chunk)? {
        0 => Ok(None),
        n => Ok(Some(t.keep_last(&chunk[..n]))),
    }
}

// Reads to the end of the input, and holds the last bytes of it. A proved loop has to end, and nothing says that an input does: so the loop takes a
// number of turns that no run uses up.
fn read_all<R: Read>(from: &mut R) -> io::Result<Input>
    ensures kept { IfWhole result (λ t. IfSome (R.remaining from.old) (λ xs. held t ≡ last_of 244 xs)) }
{
    let mut tail = Tail::empty();
    for _ in 0..u64::MAX {
        match read_some(from, tail)? {
            Some(more) => tail = more,
            None => return Ok(Input::Whole(tail)),
        }
    }
    Ok(Input::Part(tail))
}

fn main(rt: HostRuntime) -> io::Result<()> {
    let mut stdin = rt.stdin();
    let Ok(Input::Whole(tail) | Input::Part(tail)) = read_all(&mut stdin) else {
        return rt.eprintln("derowlas: standard input can't be read");
    };
    let mut out = [0u8; 4096];
    let n = text::put_text(tail.held(), &mut out);
    rt.write_all(&out[..n])
}

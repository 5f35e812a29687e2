// The calls that read a link sheet: reading it into a lent table, and the allowance. Both answer from what `sheet::parse` gives. Document 01, "The link
// sheet" and "Numbers given when the hub refuses".
#![tactic(auto)]

ghost use Rattle.std.specs.Prelude.{◌≡◌};
ghost use Rattle.rules.specs.Calls.{read_call, allowance_call};
ghost use Rattle.reading.specs.Answers.{read_of, allowed_of};

use refusals::Refusal;

// What reading answers, besides the table: N and P.
#[derive(Clone, Copy)]
pub struct Reading {
    pub boxes: u32,
    pub links: u32,
}

// Reads a sheet into a lent table of 16 words, the link set of each box. A refusal leaves the table as it was.
pub fn read(sheet: &[u8], table: &mut [u16]) -> Result<Reading, Refusal>
    ensures { read_of result table.new ≡ read_call sheet.now table.old }
{
    let found = sheet::parse(sheet)?;
    if table.len() != 16 {
        return Err(Refusal::Room);
    }
    table.copy_from_slice(&found.table);
    Ok(Reading {
        boxes: found.boxes as u32,
        links: found.links as u32,
    })
}

// "The identities a full broadcast sends: E × (2N - 1), 0 for no links." A link makes two wires.
pub fn allowance(sheet: &[u8]) -> Result<u32, Refusal>
    ensures { allowed_of result ≡ allowance_call sheet.now }
{
    let found = sheet::parse(sheet)?;
    let wires = 2 * found.links as u32;
    let boxes = found.boxes as u32;
    Ok(wires * (2 * boxes - 1))
}

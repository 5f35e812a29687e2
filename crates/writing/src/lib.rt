// The link sheet: writing it. Document 01, "The link sheet" and "Numbers given when the hub refuses".
#![tactic(auto)]

ghost use Rattle.std.specs.Prelude.{◌≡◌, ◌+◌, ◌*◌, ◌<◌, ◌≤◌, [], ◌∷◌, length};
ghost use Rattle.rules.specs.Sets.{mem, word, all, count};
ghost use Rattle.rules.specs.Sheet.{link_bytes, link_count};
ghost use Rattle.rules.specs.Calls.{write_call};
ghost use Rattle.writing.specs.Answers.{written_of};
ghost use Rattle.writing.specs.Put.{HasRoom, Puts};
ghost use Rattle.writing.specs.Writing.{link_proper, is_link, pair_of, row_bytes};

use refusals::Refusal;

// ---- a proper table

// Whether box j is in the link set of box i.
fn in_row(t: &[u16; 16], i: usize, j: usize) -> bool
    requires { (i < 16) × (j < 16) }
    ensures { result ≡ mem j (word t.now i) }
{
    sets::is_in(t[i], j)
}

// Where j is in the link set of i: the same the other way, not the box itself, and both below n.
fn link_proper(n: usize, t: &[u16; 16], i: usize, j: usize) -> bool
    requires { (i < 16) × (j < 16) }
    ensures { result ≡ link_proper n t.now i j }
{
    !in_row(t, i, j) || in_row(t, j, i) && i != j && i < n && j < n
}

// All that stands in the link set of box i is proper.
fn row_proper(n: usize, t: &[u16; 16], i: usize) -> bool
    requires { i < 16 }
    ensures { result ≡ all 16 (link_proper n t.now i) }
{
    (0..16).all(|j| link_proper(n, t, i, j))
}

// "Not the same both ways, a box linked to itself, or a box of N or above": none of it is in the table.
fn table_proper(n: usize, t: &[u16; 16]) -> bool
    ensures { result ≡ all 16 (λ i. all 16 (link_proper n t.now i)) }
{
    (0..16).all(|i| row_proper(n, t, i))
}

// ---- the links, counted

// Whether the pair (i, j) is written.
fn is_link(t: &[u16; 16], i: usize, j: usize) -> bool
    requires { (i < 16) × (j < 16) }
    ensures { result ≡ is_link t.now i j }
{
    i < j && in_row(t, i, j)
}

// How many pairs have i as their first box.
fn row_links(t: &[u16; 16], i: usize) -> usize
    requires { i < 16 }
    ensures { result ≡ count 16 (is_link t.now i) }
{
    (0..16).filter(|&j| is_link(t, i, j)).count()
}

// P, the number of links.
fn links_of(t: &[u16; 16]) -> usize
    ensures { (result ≡ link_count 16 t.now) × (result ≤ 120) }
{
    (0..16).map(|i| row_links(t, i)).sum()
}

// ---- the bytes

// The sheet that is written: a lent buffer, and the place in it where the next byte goes.
#[derive(Drop)]
struct Draft<'a> {
    buffer: &'a mut [u8],
    at: usize,
}

// Each method puts bytes there, and the place is then the one after them.
impl<'a> Draft<'a> {
    // As `put` of crate lines, which is the printing program's: a crate below both would have this function alone.
    fn put(&mut self, bytes: &[u8])
        requires { HasRoom self.old bytes.now }
        ensures { Puts self.old bytes.now self.new }
    {
        let end = self.at + bytes.len();
        self.buffer[self.at..end].copy_from_slice(bytes);
        self.at = end;
    }

    // The pair (i, j) where it is a link.
    fn put_link(&mut self, t: &[u16; 16], i: usize, j: usize)
        requires { HasRoom self.old (pair_of t.now i j) × (i < 16) × (j < 16) }
        ensures { Puts self.old (pair_of t.now i j) self.new }
    {
        if is_link(t, i, j) {
            self.put(&[i as u8, j as u8]);
        }
    }

    // The pairs whose first box is i.
    fn put_row(&mut self, t: &[u16; 16], i: usize)
        requires { HasRoom self.old (row_bytes 16 t.now i) × (i < 16) }
        ensures { Puts self.old (row_bytes 16 t.now i) self.new }
    {
        for j in 0..16 {
            self.put_link(t, i, j);
        }
    }

    // All pairs, "by first box and then by second".
    #[tactic(auto, unfolding(rules::specs::Sheet::link_bytes))]
    fn put_links(&mut self, t: &[u16; 16])
        requires { HasRoom self.old (link_bytes 16 t.now) }
        ensures { Puts self.old (link_bytes 16 t.now) self.new }
    {
        for i in 0..16 {
            self.put_row(t, i);
        }
    }

    // The trailer: B, P, N, version.
    fn put_trailer(&mut self, p: usize, n: usize)
        requires { HasRoom self.old ((4 + 2 * p) ∷ (p ∷ (n ∷ (1 ∷ [])))) × (p ≤ 120) × (n ≤ 16) }
        ensures { Puts self.old ((4 + 2 * p) ∷ (p ∷ (n ∷ (1 ∷ [])))) self.new }
    {
        self.put(&[(4 + 2 * p) as u8, p as u8, n as u8, 1]);
    }
}

// ---- the call

// Writes the sheet of N boxes and a link table to the start of a lent buffer, and answers how many bytes it has; the rest stays, and all where it is
// refused. "Writing tests 3, 14, 15."
pub fn write(boxes: u32, table: &[u16], buffer: &mut [u8]) -> Result<u32, Refusal>
    ensures { written_of result buffer.new ≡ write_call boxes table.now buffer.old }
{
    if boxes == 0 || 16 < boxes {
        return Err(Refusal::Boxes);
    }
    let n = boxes as usize;
    let Some(table) = table.as_array::<16>() else {
        return Err(Refusal::Table);
    };
    if !table_proper(n, table) {
        return Err(Refusal::Table);
    }
    let p = links_of(table);
    let size = 4 + 2 * p;
    if buffer.len() < size {
        return Err(Refusal::Buffer);
    }
    let mut sheet = Draft { buffer, at: 0 };
    sheet.put_links(table);
    sheet.put_trailer(p, n);
    Ok(size as u32)
}

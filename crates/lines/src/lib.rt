// The lines of the printing program's text, put into a lent buffer. Document 01, end of "Sample hubs".
#![tactic(auto)]

ghost use Rattle.std.specs.Prelude.{◌≡◌, ◌++◌};
ghost use Rattle.lines.specs.Words.{word_of, word_line};
ghost use Rattle.lines.specs.Lines.{field, heading, line, refusal};
ghost use Rattle.lines.specs.Put.{HasRoom, Puts};

// What a refusal is about.
#[derive(Debug, Clone, Copy, PartialEq, Eq)]
pub enum Word {
    Sheet,
    Pair,
    List,
    Room,
    Nothing,
}

impl Word {
    // The word in ASCII, and the end of the line.
    fn line(self) -> &'static [u8]
        ensures { result.now ≡ word_line self }
    {
        match self {
            Word::Sheet => b"sheet\n",
            Word::Pair => b"pair\n",
            Word::List => b"list\n",
            Word::Room => b"room\n",
            Word::Nothing => b"\n",
        }
    }
}

// "The printing program groups the numbers by range." No `From` and no Option in it: `word_of` of docs/PROMISES.md is this function of any number.
pub fn word_of(number: u32) -> Word
    ensures { result ≡ word_of number }
{
    match number {
        1..=5 => Word::Sheet,
        6..=8 => Word::Pair,
        9..=11 => Word::List,
        12..=15 => Word::Room,
        _ => Word::Nothing,
    }
}

// A lent text, and the place in it where the next byte goes.
#[derive(Drop)]
pub struct Page<'a> {
    pub text: &'a mut [u8],
    pub at: usize,
}

// Each method puts bytes there, and the place is then the one after them. Not by `write!`: std's `Write` for a lent slice says of it neither that
// it succeeds nor what was written.
impl<'a> Page<'a> {
    // At the start of a text.
    pub fn new(text: &'a mut [u8]) -> Page<'a>
        ensures text { result.text.now ≡ text.old }
        ensures same_text { result.text.ghost_name ≡ text.entry.ghost_name }
        ensures at { result.at ≡ 0 }
    {
        Page { text, at: 0 }
    }

    // ---- bytes, words and numbers

    fn put(&mut self, bytes: &[u8])
        requires { HasRoom self.old bytes.now }
        ensures { Puts self.old bytes.now self.new }
    {
        let end = self.at + bytes.len();
        self.text[self.at..end].copy_from_slice(bytes);
        self.at = end;
    }

    // A number in decimal, and what stands after it.
    fn put_field(&mut self, n: usize, end: u8)
        requires { HasRoom self.old (field n end) }
        ensures { Puts self.old (field n end) self.new }
    {
        let mut digits = [0u8; 20];
        let k = io::decimal(n as u64, &mut digits);
        self.put(&digits[..k]);
        self.put(&[end]);
    }

    // A word, a number in decimal, and what stands after it.
    fn put_named(&mut self, word: &[u8], n: usize, end: u8)
        requires { HasRoom self.old (word.now ++ field n end) }
        ensures { Puts self.old (word.now ++ field n end) self.new }
    {
        self.put(word);
        self.put_field(n, end);
    }

    // ---- lines

    // "A refusal prints one line, as `refused 8 pair`." Of any number, as `word_of` is.
    #[tactic(auto, using(crate::proofs::LineLaws::refusal_length))]
    pub fn put_refusal(&mut self, number: u32)
        requires { HasRoom self.old (refusal number) }
        ensures { Puts self.old (refusal number) self.new }
    {
        self.put_named(b"refused ", number as usize, b' ');
        self.put(word_of(number).line());
    }

    // "The first line gives N, P and moved."
    #[tactic(auto, using(crate::proofs::LineLaws::heading_length))]
    pub fn put_heading(&mut self, boxes: usize, links: usize, moved: u32)
        requires { HasRoom self.old (heading boxes links moved) }
        ensures { Puts self.old (heading boxes links moved) self.new }
    {
        self.put_named(b"boxes ", boxes, b' ');
        self.put_named(b"links ", links, b' ');
        self.put_named(b"moved ", moved as usize, b'\n');
    }

    // "Each later line is box, origin, hops, neighbour it comes from."
    #[tactic(auto, using(crate::proofs::LineLaws::line_length))]
    pub fn put_line(&mut self, i: usize, j: usize, hops: usize, from: usize)
        requires { HasRoom self.old (line i j hops from) }
        ensures { Puts self.old (line i j hops from) self.new }
    {
        self.put_field(i, b' ');
        self.put_field(j, b' ');
        self.put_field(hops, b' ');
        self.put_field(from, b'\n');
    }
}

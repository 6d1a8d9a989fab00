// A guess of a map: what the words of a list tell if they are what the listing writes. Nothing is tested, and nothing is said of
// the cells but that they are below 8: who guesses lists the guess, and compares. Functions may have a `requires`.
#![tactic(auto)]

ghost use Rattle.std.specs.Prelude.{◌≡◌, ◌<◌, ◌≤◌, length};
ghost use Rattle.near.specs.Near.{Below};
ghost use Rattle.scan.specs.Scan.{Sound};
ghost use Rattle.guess_map.specs.Guess.{OnLine};

use context::Index;
use rows::Nexts;
use scan::Scan;

// What lines are guessed by: the order of their cells, and the table.
#[derive(Clone, Copy)]
struct Guess<'a> {
    s: Scan,
    nexts: &'a Nexts<'a>,
}

// Where the table's part begins: for lines that are rows, or columns.
fn part_of(transposed: bool) -> u16
    ensures { result ≤ 512 }
{
    if transposed { 512 } else { 0 }
}

// The row of the neighbours above and diagonal, and of the rank that a word tells.
fn row_at(part: u16, above: Index, diag: Index, word: u32) -> u16
    requires { (part ≤ 512) × (above.0 < 8) × (diag.0 < 8) }
    ensures { result < 1024 }
{
    part + (u16::from(above.0) * 8 + u16::from(diag.0)) * 8 + (word % 8) as u16
}

// The index that an entry is of.
fn index_of(entry: u8) -> Index
    ensures { result.0 < 8 }
{
    Index(entry % 64 / 8)
}

impl Guess<'_> {
    // The eight entries of a row as one number, the first lowest: the compiler makes one load of it.
    fn entries(&self, row: u16) -> u64
        requires { row < 1024 }
    {
        let at = usize::from(row) * 8;
        let t = self.nexts.table;
        u64::from_le_bytes([
            t[at],
            t[at + 1],
            t[at + 2],
            t[at + 3],
            t[at + 4],
            t[at + 5],
            t[at + 6],
            t[at + 7],
        ])
    }

    // The index of a cell that has one neighbour, which counts as three; both parts of the table have it.
    fn beside(&self, near: Index, word: u32) -> Index
        requires { near.0 < 8 }
        ensures { result.0 < 8 }
    {
        let row = self.entries(row_at(0, near, near, word));
        index_of(((row >> (near.0 * 8)) % 256) as u8)
    }

    // The first cell of line l by its word: beside that of the line before, or in the first line as if index 0 stood there.
    fn first_cell(&self, map: &[u8], l: usize, word: u32) -> Index
        requires { OnLine self.now.s l map.now }
        ensures { result.0 < 8 }
    {
        let near = if l == 0 {
            0
        } else {
            map[self.s.place(l - 1, 0)]
        };
        self.beside(Index(near), word)
    }

    // The first line: each cell has one neighbour, the first as if index 0 stood before it.
    fn first_line(&self, words: &[u32], map: &mut [u8])
        requires { OnLine self.now.s 0 map.old × (length words.now ≡ self.now.s.len) }
        ensures { Below map.new 8 }
    {
        let mut index = Index(0);
        for (a, word) in words.iter().enumerate() {
            index = self.beside(index, *word);
            map[self.s.place(0, a)] = index.0;
        }
    }

    // The rows of line l behind its first cell, by the line before. Their loop is apart from that of the entries, so that it can
    // be vector code.
    fn fill_rows(&self, words: &[u32], map: &[u8], l: usize, rows: &mut [u16])
        requires { OnLine self.now.s l map.now × (0 < l) × (length words.now ≡ self.now.s.len)
            × (length rows.old ≡ self.now.s.len) × Below rows.old 1024 }
        ensures { Below rows.new 1024 }
    {
        let s = self.s;
        let part = part_of(s.transposed);
        for a in 1..s.len {
            let above = Index(map[s.place(l - 1, a)]);
            let diag = Index(map[s.place(l - 1, a - 1)]);
            rows[a] = row_at(part, above, diag, words[a]);
        }
    }

    // The entry of each cell, the first one's given: a cell waits for the one before it only by a shift.
    fn follow(&self, rows: &[u16], first: Index, line: &mut [u8])
        requires { (0 < length rows.now) × (length rows.now ≡ length line.old) × Below rows.now 1024 × (first.0 < 8) }
    {
        line[0] = first.0 * 8;
        let mut last = u64::from(line[0]);
        for a in 1..rows.len() {
            last = self.entries(rows[a]) >> (last % 64);
            line[a] = (last % 256) as u8;
        }
    }

    // Stores the indices of line l.
    fn put_line(&self, line: &[u8], map: &mut [u8], l: usize)
        requires { OnLine self.now.s l map.old × (length line.now ≡ self.now.s.len) }
        ensures { Below map.new 8 }
    {
        for (a, entry) in line.iter().enumerate() {
            map[self.s.place(l, a)] = index_of(*entry).0;
        }
    }

    // Line l, all of whose cells are sent, by their words.
    fn cells(&self, words: &[u32], map: &mut [u8], l: usize)
        requires { OnLine self.now.s l map.old × (length words.now ≡ self.now.s.len) }
        ensures { Below map.new 8 }
    {
        if l == 0 {
            self.first_line(words, map);
            return;
        }
        let len = words.len();
        let mut rows = [0u16; 64];
        let mut line = [0u8; 64];
        self.fill_rows(words, map, l, &mut rows[..len]);
        let first = self.first_cell(map, l, words[0]);
        self.follow(&rows[..len], first, &mut line[..len]);
        self.put_line(&line[..len], map, l);
    }

    // Line l by its flag: returns the words behind its own, or none where words are missing.
    fn line<'b>(&self, words: &'b [u32], map: &mut [u8], l: usize, flag: u8) -> Option<&'b [u32]>
        requires { OnLine self.now.s l map.old }
        ensures { Below map.new 8 }
    {
        match flag {
            0 => {
                let (own, behind) = words.split_at_checked(self.s.len)?;
                self.cells(own, map, l);
                Some(behind)
            }
            1 => {
                let (word, behind) = words.split_first()?;
                let index = self.first_cell(map, l, *word);
                self.s.fill_line(map, l, index.0);
                Some(behind)
            }
            2 if 0 < l => {
                self.s.copy_line(map, l);
                Some(words)
            }
            _ => None,
        }
    }
}

// Guesses all lines, or those for which there are words.
pub fn guess_lines(
    words: &[u32],
    at: usize,
    map: &mut [u8],
    flags: &mut [u8],
    s: Scan,
    nexts: &Nexts,
)
    requires { Sound s (length map.old) × (length flags.old ≡ s.lines) × Below map.old 8 }
    ensures { Below map.new 8 }
{
    let guess = Guess { s, nexts };
    let mut rest = words.get(at..).unwrap_or(&[]);
    for (l, flag) in flags.iter_mut().enumerate() {
        let Some((word, behind)) = rest.split_first() else {
            return;
        };
        *flag = (*word % 4) as u8;
        let Some(next) = guess.line(behind, map, l, *flag) else {
            return;
        };
        rest = next;
    }
}

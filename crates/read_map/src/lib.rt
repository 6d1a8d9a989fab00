// The flags and the map of a call list, read one word after the other. Functions may have a `requires`.
#![tactic(auto)]

ghost use Rattle.std.specs.Prelude.{◌≡◌, cond, ◌+◌, ◌<◌, ◌≤◌, eqb, length, IfOk};
ghost use Rattle.near.specs.Near.{Below};
ghost use Rattle.scan.specs.Scan.{around_in};
ghost use Rattle.reader.specs.Reader.{due, read_up_to};
ghost use Rattle.reader.specs.Steps.{told, left};
ghost use Rattle.read_map.specs.Map.{read_ranked, read_index, read_cell, read_cells, read_lines};

use context::{Index, Rank};
use reader::Reading;
use refusals::Refusal;
use rows::Tables;
use scan::Scan;

// How a map is read: the order of its cells, the number of its indices, and the tables.
#[derive(Drop)]
pub struct Plan<'a> {
    pub scan: Scan,
    pub n: usize,
    pub tables: &'a Tables<'a>,
    pub ghost two: { 2 ≤ n },
    pub ghost eight: { n ≤ 8 },
}

// The first line's flag is at most 1, another's at most 2.
fn flag_limit(l: usize) -> u32
    ensures { (result ≡ cond (eqb l 0) 2 3) × (0 < result) × (result ≤ 3) }
{
    if l == 0 { 2 } else { 3 }
}

impl<'a> Plan<'a> {
    ghost use Rattle.read_map.specs.Plan.{Ready};

    // The index of cell (0,0): uniform.
    fn read_first(&self, words: &mut Reading) -> Result<Index, Refusal>
        ensures reads { due 2 self.now.n self.now.n (left words.old) ≡ told (λ index. index.0) result (left words.new) }
        ensures low { IfOk result (λ index. index.0 < self.now.n) }
        ensures list { words.new.words ≡ words.old.words }
    {
        let n = self.n as u32;
        let index = words.take(2, n, n)?;
        Ok(Index(index as u8))
    }

    // The index of another cell: the one at the rank read, in the row of its neighbours.
    fn read_ranked(
        &self,
        words: &mut Reading,
        map: &[u8],
        l: usize,
        a: usize,
    ) -> Result<Index, Refusal>
        requires ready { Ready self.now map.now }
        requires inside { (l < self.now.scan.lines) × (a < self.now.scan.len) }
        ensures reads { read_ranked self.now.n (around_in map.now self.now.scan l a) (left words.old)
            ≡ told (λ index. index.0) result (left words.new) }
        ensures low { IfOk result (λ index. index.0 < self.now.n) }
        ensures list { words.new.words ≡ words.old.words }
    {
        let key = self.scan.key_cell(map, &self.tables.codes, l, a);
        let rank = words.take(5, ((self.n - 2) * 5 + key.ctx) as u32, self.n as u32)?;
        Ok(self.tables.orders.index_at(key.row, Rank(rank as u8)))
    }

    // The index of cell a of line l.
    fn read_index(
        &self,
        words: &mut Reading,
        map: &[u8],
        l: usize,
        a: usize,
    ) -> Result<Index, Refusal>
        requires ready { Ready self.now map.now }
        requires inside { (l < self.now.scan.lines) × (a < self.now.scan.len) }
        ensures reads { read_index self.now.n self.now.scan l a map.now (left words.old)
            ≡ told (λ index. index.0) result (left words.new) }
        ensures low { IfOk result (λ index. index.0 < self.now.n) }
        ensures list { words.new.words ≡ words.old.words }
    {
        if l + a == 0 {
            return self.read_first(words);
        }
        self.read_ranked(words, map, l, a)
    }

    // Reads the cells of line l one by one.
    fn read_cells(&self, words: &mut Reading, map: &mut [u8], l: usize) -> Result<(), Refusal>
        requires ready { Ready self.now map.old }
        requires inside { l < self.now.scan.lines }
        ensures reads { read_up_to (read_cell self.now.n self.now.scan l) self.now.scan.len map.old (left words.old)
            ≡ told (λ _. map.new) result (left words.new) }
        ensures below { Below map.new self.now.n }
        ensures list { words.new.words ≡ words.old.words }
    {
        for a in 0..self.scan.len {
            let index = self.read_index(words, map, l, a)?;
            map[self.scan.place(l, a)] = index.0;
        }
        Ok(())
    }

    // Reads the cells of line l that its flag sends, and fills in the others.
    fn read_sent(
        &self,
        words: &mut Reading,
        map: &mut [u8],
        l: usize,
        flag: u8,
    ) -> Result<(), Refusal>
        requires ready { Ready self.now map.old }
        requires inside { (l < self.now.scan.lines) × (2 ≤ flag → 0 < l) }
        ensures reads { read_cells flag self.now.n self.now.scan l map.old (left words.old)
            ≡ told (λ _. map.new) result (left words.new) }
        ensures below { Below map.new self.now.n }
        ensures list { words.new.words ≡ words.old.words }
    {
        if flag == 0 {
            return self.read_cells(words, map, l);
        }
        if flag == 1 {
            let index = self.read_index(words, map, l, 0)?;
            self.scan.fill_line(map, l, index.0);
            return Ok(());
        }
        self.scan.copy_line(map, l);
        Ok(())
    }

    // Reads all lines: each has its flag, under 3 or the flag before, and its cells.
    pub fn read_lines(
        &self,
        words: &mut Reading,
        map: &mut [u8],
        flags: &mut [u8],
    ) -> Result<(), Refusal>
        requires ready { Ready self.now map.old }
        requires flag_each { length flags.old ≡ self.now.scan.lines }
        ensures reads { read_lines self.now.n self.now.scan (record { flags = flags.old; map = map.old }) (left words.old)
            ≡ told (λ _. record { flags = flags.new; map = map.new }) result (left words.new) }
        ensures list { words.new.words ≡ words.old.words }
    {
        let mut ctx = 3;
        for l in 0..self.scan.lines {
            let flag = words.take(4, ctx, flag_limit(l))?;
            self.read_sent(words, map, l, flag as u8)?;
            flags[l] = flag as u8;
            ctx = flag;
        }
        Ok(())
    }
}

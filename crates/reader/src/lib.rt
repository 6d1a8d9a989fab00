// One word of a call list after the other: a reading holds the list and the place reached in it, and each step takes one word.
#![tactic(auto)]

ghost use Rattle.std.specs.Prelude.{◌≡◌, ◌+◌, ◌<◌, IfOk, OnOk, OnErr};
ghost use Rattle.reader.specs.Reader.{due};
ghost use Rattle.reader.specs.Steps.{told, left};

use refusals::Refusal;

// A refused step leaves it as it was; after the refusal of a reader of several steps the place is of no account.
#[derive(Clone, Copy)]
pub struct Reading<'a> {
    pub words: &'a [u32],
    pub at: usize,
}

impl<'a> Reading<'a> {
    // The second field of the next word, which has this kind and first field, and its second field below the limit.
    pub fn take(&mut self, kind: u32, first: u32, limit: u32) -> Result<u32, Refusal>
        requires { (kind < 128) × (first < 256) }
        ensures reads { due kind first limit (left self.old) ≡ told (λ second. second) result (left self.new) }
        ensures below { IfOk result (λ second. second < limit) }
        ensures list { self.new.words ≡ self.old.words }
        ensures next { OnOk result (self.new.at ≡ self.old.at + 1) }
        ensures stays { OnErr result (self.new ≡ self.old) }
    {
        let Some(word) = self.words.get(self.at) else {
            return Err(Refusal::ListEnd);
        };
        let least = literals::call(kind, first, 0);
        if *word < least {
            return Err(Refusal::Word);
        }
        let second = *word - least;
        if second < limit {
            self.at += 1;
            return Ok(second);
        }
        Err(Refusal::Word)
    }
}

// Why a call is refused: document 01's numbers to 18, and document 02's from 19.
#![tactic(auto)]

ghost use Rattle.std.specs.Prelude.{◌≡◌};
ghost use Rattle.refusals.specs.Numbers.{number_of};

// Each stands at its number; document 01 or 02 says when it applies.
#[derive(Clone, Copy, Debug, PartialEq, Eq)]
pub enum Refusal {
    Side = 1,
    Depth = 2,
    SampleCount = 3,
    Lambda = 4,
    Costs = 5,
    Sample = 6,
    Room = 7,
    Small = 8,
    OneLevel = 9,
    ManyLevels = 10,
    Colors = 11,
    Orientation = 12,
    Cache = 13,
    Lengths = 14,
    Map = 15,
    WordRoom = 16,
    Text = 17,
    Context = 18,
    BlockCount = 19,
    ListEnd = 20,
    Word = 21,
    WordsLeft = 22,
    NotListed = 23,
    AdaptedLength = 24,
    AdaptedRows = 25,
}

impl Refusal {
    pub fn number(self) -> u32
        ensures { result ≡ number_of self }
    {
        self as u32
    }
}

// The colours read so far.
#![tactic(auto)]

ghost use Rattle.std.specs.Prelude.{◌≡◌, [], ◌+◌, ◌<◌, ◌≤◌, take};
ghost use Rattle.read_colors.specs.Colors.{insert, in_eight};

use context::Level;

// They are ascending, and zeros stand behind them.
#[derive(Clone, Copy)]
pub struct Held {
    pub count: usize,
    pub colors: [u16; 8],
    pub ghost few: { count ≤ 8 },
    pub ghost eight: { colors ≡ in_eight (take count colors) },
}

impl Held {
    ghost use Rattle.read_colors.specs.Held.{colors_in};

    pub(crate) fn new() -> Self
        ensures { (result.count ≡ 0) × (colors_in result ≡ []) }
    {
        Held {
            count: 0,
            colors: [0; 8],
        }
    }

    // Puts a colour at its place.
    pub(crate) fn insert(&mut self, level: Level)
        requires { self.old.count < 8 }
        ensures one_more { self.new.count ≡ self.old.count + 1 }
        ensures inserted { colors_in self.new ≡ insert level.0 (colors_in self.old) }
    {
        let mut colors = [0u16; 8];
        let mut carry = level.0;
        for (i, c) in self.colors[..self.count].iter().enumerate() {
            colors[i] = carry.min(*c);
            carry = carry.max(*c);
        }
        colors[self.count] = carry;
        *self = Held {
            count: self.count + 1,
            colors,
        };
    }
}

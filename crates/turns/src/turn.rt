// What a pair does in a walk, and what a walk comes to.
ghost use Rattle.std.specs.Prelude.{◌≡◌, eqb};
ghost use Rattle.turns.specs.Turn.{turn_code};

// It goes on, or is open at its end; it loses, or is not won; it wins.
#[derive(Clone, Copy)]
pub enum Turn {
    Open,
    Lost,
    Won,
}

impl Turn {
    // Does it go on?
    pub fn is_open(self) -> bool
        ensures { result ≡ eqb (turn_code self) 0 }
    {
        matches!(self, Turn::Open)
    }

    // Is it won?
    pub fn is_won(self) -> bool
        ensures { result ≡ eqb (turn_code self) 2 }
    {
        matches!(self, Turn::Won)
    }
}

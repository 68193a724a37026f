ghost use Rattle.std.specs.Prelude.{◌≡◌, ◌+◌, ◌-◌, ◌<◌, ◌^◌};
ghost use Rattle.spm_cell.specs.Cell.{IsFlying, cell_wanted, fails_of, wanted_of};

/// What is known of one key.
#[derive(Debug, Clone, Copy, PartialEq, Eq)]
pub enum Cell {
    /// Nobody fetches it, and it hasn't landed; so many flights have failed.
    Idle { fails: u64 },
    /// The flight of this number is open, by this actor.
    Flying { number: u64, by: u32, fails: u64 },
    /// Its reply landed, at this place of the history.
    Ready { place: usize },
}

/// What somebody learns who wants the key's reply.
#[derive(Debug, Clone, Copy, PartialEq, Eq)]
pub enum Wanted {
    /// They have to fetch it.
    Fetch,
    /// This actor fetches it.
    Waiting(u32),
    /// It landed, at this place of the history.
    Have(usize),
}

impl Cell {
    /// Says what `by` has to do to get the reply, and begins the flight of this number where nobody fetches it.
    pub fn want(&mut self, by: u32, number: u64) -> Wanted
        ensures answer { result ≡ wanted_of self.old }
        // An idle cell flies, and another stays.
        ensures after { self.new ≡ cell_wanted by number self.old }
    {
        match *self {
            Cell::Idle { fails } => {
                *self = Cell::Flying { number, by, fails };
                Wanted::Fetch
            }
            Cell::Flying { by, .. } => Wanted::Waiting(by),
            Cell::Ready { place } => Wanted::Have(place),
        }
    }

    /// The flight's reply stands at this place now.
    pub fn land(&mut self, place: usize)
        requires { IsFlying self.old }
        ensures { self.new ≡ Cell.Ready place }
    {
        *self = Cell::Ready { place };
    }

    /// The flight failed.
    pub fn fail(&mut self)
        requires flying { IsFlying self.old }
        requires below { fails_of self.old < 2 ^ 64 - 1 }
        ensures { self.new ≡ Cell.Idle (fails_of self.old + 1) }
    {
        if let Cell::Flying { fails, .. } = *self {
            *self = Cell::Idle { fails: fails + 1 };
        }
    }
}

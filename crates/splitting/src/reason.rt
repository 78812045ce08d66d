// Why a literal stands on the trail, as a value and as one of the borrowed numbers.

ghost use Rattle.std.specs.Prelude.{◌≡◌};
ghost use Rattle.splitting.specs.Reasons.{Explains, Small, number_of};

// The largest place of the cells that a reason can hold.
pub const LAST_PLACE: usize = 0x7fff_fffe;

#[derive(Clone, Copy)]
pub enum Reason {
    // It is an open decision, and every clause before this place of the cells was satisfied then.
    Open(usize),
    // It is an assumption, or was an open decision and is turned round.
    Turned,
    // The clause at this place of the cells forces it.
    Forced(usize),
}

impl Reason {
    // The number that stands for it. No From: a larger place has none.
    pub fn number(self) -> u32
        requires { Small self }
        ensures { result ≡ number_of self }
    {
        match self {
            Reason::Open(front) => 2 * front as u32 + 1,
            Reason::Turned => 0,
            Reason::Forced(at) => 2 * (at as u32 + 1),
        }
    }
}

// By hand: the number is taken apart.
impl From<u32> for Reason {
    ghost from_gives = { λ number reason. Explains reason number };

    fn from(number: u32) -> Reason {
        match number {
            0 => Reason::Turned,
            odd if odd % 2 == 1 => Reason::Open((odd / 2) as usize),
            even => Reason::Forced((even / 2 - 1) as usize),
        }
    }
}

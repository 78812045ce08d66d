// What a conflict comes from: the clause's literals, the reasons of those that were forced, and so on down the trail. What
// is left are assumptions, which stay seen, and open decisions, of which the last is to be turned round. An open decision
// that the conflict does not come from is passed over.

ghost use Rattle.std.specs.Prelude.{◌≡◌, ℕ, ◌<◌, ◌≤◌, length, slice_index};
ghost use Rattle.splitting.specs.Cells.{InTable, Whole};
ghost use Rattle.splitting.specs.Trails.{Follows, Seen, Grows, Clash};
ghost use Rattle.splitting.specs.Searches.{GoodTrail};
ghost use Rattle.splitting.specs.Blames.{Blamed, Placed, at_open, at_turned};

use crate::reason::Reason;
use crate::trail::Trail;
use cells::clause_at;

// Which open decisions count, besides the variables that are seen.
#[derive(Clone, Copy)]
pub enum Blame {
    // None so far.
    Marked,
    // Every one further down: a literal counts that was turned round.
    Every,
    // The one at this place, and every one further down.
    Place(usize),
}

impl Blame {
    // An open decision at a place, which is seen or not.
    fn at_open(self, place: usize, is_seen: bool) -> Blame
        ensures { result ≡ at_open self place is_seen }
    {
        match self {
            Blame::Marked if is_seen => Blame::Place(place),
            Blame::Marked => Blame::Marked,
            Blame::Every => Blame::Place(place),
            Blame::Place(last) => Blame::Place(last),
        }
    }

    // A literal that was turned round, and is seen or not.
    fn at_turned(self, is_seen: bool) -> Blame
        ensures { result ≡ at_turned self is_seen }
    {
        match self {
            Blame::Marked if is_seen => Blame::Every,
            Blame::Marked => Blame::Marked,
            Blame::Every => Blame::Every,
            Blame::Place(last) => Blame::Place(last),
        }
    }
}

// Sees each variable of a clause.
fn see(clause: &[u32], seen: &mut [u32])
    requires { InTable clause.now (length seen.old) }
    ensures marked { (k : ℕ) → k < length clause.now → Seen seen.new (slice_index clause.now k) }
    ensures grows { (v : ℕ) → 1 ≤ slice_index seen.old v → 1 ≤ slice_index seen.new v }
{
    for literal in clause {
        seen[(*literal / 2) as usize] = 1;
    }
}

impl<'a> Trail<'a> {
    // From the clause at `at`, whose literals are all false, down the trail.
    pub fn trace(&self, cells: &[u32], seen: &mut [u32], at: usize) -> Blame
        requires whole { Whole cells.now (length seen.old) }
        requires table { length seen.old ≡ length self.now.value.now }
        requires good { GoodTrail cells.now self.now }
        requires follows { Follows cells.now self.now.literals.now self.now.reasons.now seen.old self.now.base self.now.count }
        requires clash { Clash cells.now self.now.literals.now self.now.count at }
        requires inside { at < length cells.now }
        ensures after { Blamed result cells.now self.now.literals.now self.now.reasons.now seen.new self.now.base self.now.base }
        ensures placed { Placed result self.now.reasons.now self.now.base self.now.count self.now.base }
        ensures grows { Grows self.now.literals.now seen.old seen.new self.now.base }
    {
        see(clause_at(cells, at), seen);
        let mut blame = Blame::Marked;
        for i in (self.base..self.count).rev() {
            let variable = (self.literals[i] / 2) as usize;
            let is_seen = seen[variable] != 0;
            match Reason::from(self.reasons[i]) {
                Reason::Open(_) => blame = blame.at_open(i, is_seen),
                Reason::Turned => blame = blame.at_turned(is_seen),
                Reason::Forced(clause) if is_seen => see(clause_at(cells, clause), seen),
                Reason::Forced(_) => {}
            }
            seen[variable] = 0;
        }
        blame
    }
}

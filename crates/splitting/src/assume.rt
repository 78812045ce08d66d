// Assumptions: they stand on the trail's first places.

ghost use Rattle.std.specs.Prelude.{◌≡◌, ℕ, ◌≤◌, true, false, length};
ghost use Rattle.splitting.specs.Cells.{InTable};
ghost use Rattle.cells.specs.Cells.{codes};
ghost use Rattle.splitting.specs.Trails.{Assumed, Contrary};

use crate::reason::Reason;
use crate::trail::Trail;
use literal::Literal;

impl<'a> Trail<'a> {
    // Makes the assumptions true, unless two of them contradict each other, whose variable is then seen.
    pub fn assume(&mut self, assumed: &[Literal], seen: &mut [u32]) -> bool
        requires none { self.old.count ≡ 0 }
        requires inside { InTable (codes assumed.now) (length self.old.value.now) }
        requires table { length seen.old ≡ length self.old.value.now }
        ensures size { length self.new.value.now ≡ length self.old.value.now }
        ensures based { result ≡ true → self.new.base ≡ self.new.count }
        ensures assumed { result ≡ true → Assumed (codes assumed.now) self.new.literals.now self.new.base (length assumed.now) }
        ensures contrary { result ≡ false → Contrary (codes assumed.now) seen.new }
    {
        for literal in assumed {
            let code = u32::from(literal.code);
            if self.is_unset(code) {
                self.push(code, Reason::Turned);
            } else if !self.is_true(code) {
                seen[literal.variable()] = 1;
                return false;
            }
        }
        self.base = self.count;
        true
    }
}

// What a decision writes: values on yes, marks on no.

ghost use Rattle.std.specs.Prelude.{◌≡◌, ◌<◌, ◌≤◌, true, length};
ghost use Rattle.sat.specs.Faults.{in_range};
ghost use Rattle.splitting.specs.Written.{Valued, MarkedBy};

use crate::solver::Splitting;
use literal::Literal;

impl<'a> Splitting<'a> {
    // Writes a byte for each variable, 1 where it is true, and 0 into byte 0.
    pub(crate) fn write(&self, values: &mut [u8])
        requires { self.now.variables < length values.old }
        ensures { Valued self.now.trail.value.now self.now.variables values.old values.new }
    {
        let Some(table) = self.trail.values() else {
            return values[..=self.variables].fill(0);
        };
        values[0] = 0;
        // By index: after writing through iter_mut().zip nothing is known of the bytes.
        for variable in 1..=self.variables {
            values[variable] = u8::from(table[variable] == 1);
        }
    }

    // Marks each assumption with 1 whose variable is seen, and each other with 0.
    pub(crate) fn mark(&self, assumed: &[Literal], marks: &mut [u8])
        requires inside { in_range self.now.variables assumed.now ≡ true }
        requires room { length assumed.now ≤ length marks.old }
        ensures { MarkedBy self.now.seen.now assumed.now marks.old marks.new }
    {
        // By index: after writing through iter_mut().zip nothing is known of the bytes.
        for (k, literal) in assumed.iter().enumerate() {
            marks[k] = u8::from(self.seen[literal.variable()] != 0);
        }
    }
}

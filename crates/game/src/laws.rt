// The laws of the game, for every arena whose steps end in range. Each is promised by a call that does nothing else.

ghost use Rattle.game.specs.Bits.{AgreesByBits, LessByBits};
ghost use Rattle.game.specs.Examples.{WorkedCases};
ghost use Rattle.game.specs.Laws.{LastingFalls, SafeOrLost, RowsForce, RestSafe, RowsExact, OneCover, PlayForced, JustifiedKept, HarmlessLoop, ExactAnswered, Dues, ServedHarmless, KeptRun, LostRun};

// Who lasts some steps lasts fewer.
pub fn lasting_falls()
    ensures { LastingFalls }
{}

// No state is safe and lost.
pub fn safe_or_lost()
    ensures { SafeOrLost }
{}

// A state covered by the justified row at place j does not last j + 1 steps.
pub fn rows_force()
    ensures { RowsForce }
{}

// Where every event can be answered outside the rows, the states outside are safe.
pub fn rest_safe()
    ensures { RestSafe }
{}

// Justified rows with such a rest cover exactly the lost states.
pub fn rows_exact()
    ensures { RowsExact }
{}

// Exact lists of rows cover the same states.
pub fn one_cover()
    ensures { OneCover }
{}

// Outside exact rows every event can be answered.
pub fn exact_answered()
    ensures { ExactAnswered }
{}

// The events of the first covering rows force a bad step, through covered states.
pub fn play_forced()
    ensures { PlayForced }
{}

// A row stays justified when earlier rows are added.
pub fn justified_kept()
    ensures { JustifiedKept }
{}

// A row that were justified by itself could cover a safe state.
pub fn harmless_loop()
    ensures { HarmlessLoop }
{}

// What follows when no row and no exception is due.
pub fn dues()
    ensures { Dues }
{}

// An exception that one answer serves is harmless.
pub fn served_harmless()
    ensures { ServedHarmless }
{}

// What a run has when it ends with a host that is kept.
pub fn kept_run()
    ensures { KeptRun }
{}

// What a run has when its newest row covers reset.
pub fn lost_run()
    ensures { LostRun }
{}

// A number agrees with a value under a mask exactly when their bits do.
pub fn agrees_by_bits()
    ensures { AgreesByBits }
{}

// What leaving out one bit leaves.
pub fn less_by_bits()
    ensures { LessByBits }
{}

// A host with one latch, worked through.
pub fn worked_cases()
    ensures { WorkedCases }
{}

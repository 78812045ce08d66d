// What the clauses mean, for every model. Each law is promised by a call that does nothing else.

ghost use Rattle.encoding.specs.Laws.{HeldWhole, AnswerSizes, CandidateSizes, SaidInRange, SaidByLiterals, MarksSay, MarkedRow, AnswerSound, AnswerComplete, CandidateSound, CandidateComplete};

// Clauses that fit are held whole.
pub fn held_whole()
    ensures { HeldWhole }
{}

// The variables, lengths and cells of what the answer solver holds.
pub fn answer_sizes()
    ensures { AnswerSizes }
{}

// Those of what the candidate solver holds.
pub fn candidate_sizes()
    ensures { CandidateSizes }
{}

// The literals of a number say that number.
pub fn said_by_literals()
    ensures { SaidByLiterals }
{}

// The three numbers that values say are in range.
pub fn said_in_range()
    ensures { SaidInRange }
{}

// What marks say: the mask's bits, and what the marked ones of a number's literals leave open.
pub fn marks_say()
    ensures { MarksSay }
{}

// A row that takes its care from marks.
pub fn marked_row()
    ensures { MarkedRow }
{}

// Values that satisfy the answer clauses say a good answer.
pub fn answer_sound()
    ensures { AnswerSound }
{}

// Every good answer is said by values that satisfy them.
pub fn answer_complete()
    ensures { AnswerComplete }
{}

// Values that satisfy the candidate clauses, and that something is due by all rows, say a candidate.
pub fn candidate_sound()
    ensures { CandidateSound }
{}

// Every candidate is said by such values.
pub fn candidate_complete()
    ensures { CandidateComplete }
{}

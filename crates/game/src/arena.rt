// The arena of a model: the game that the host plays under the model's rules.

ghost use Rattle.std.specs.Prelude.{◌≡◌};
ghost use Rattle.game.specs.Models.{model_arena, step_in, Playable};

use circuit::{Model, StepFault};

// A step of the arena: whether it is bad, and the next state.
// A pair, as the model's step gives.
pub fn step(
    model: &Model<'_>,
    state: u32,
    event: u32,
    answer: u32,
) -> Result<(bool, u32), StepFault>
    ensures value { result ≡ step_in (model_arena model.now) state event answer }
    ensures playable { Playable (model_arena model.now) }
{
    model.step(state, event, answer)
}

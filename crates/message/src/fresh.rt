// Setup: a store becomes fresh.

ghost use Rattle.std.specs.Prelude.{◌≡◌};
ghost use Rattle.answer.specs.Answers.{bare};
ghost use Rattle.answer.specs.Results.{answered};
ghost use Rattle.machine.specs.Setup.{setup_of};

use answer::Refusal;

// Makes the store fresh, in a role: 1 to receive, 2 to send.
pub fn setup(store: &mut [u8], role: u64) -> Result<(), Refusal>
    ensures { record { answer = bare (answered result); store = store.new }
        ≡ setup_of store.old role }
{
    soundness::fresh::setup(store, role)
}

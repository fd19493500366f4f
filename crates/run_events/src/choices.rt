// The operands that nodes choose to evaluate.
ghost use Rattle.std.specs.Prelude.{◌≡◌, ◌∷◌, [], ◌<◌, length, OnOk};
ghost use Rattle.run_answers.specs.Choices.{HasChosen};
ghost use Rattle.run_answers.specs.Ways.{Chooses};

use run_layout::Code;
use run_state::Machine;
use ub_base::NoMemory;

/// A node chooses the operand that it evaluates next, by the choice of this number.
pub fn choose(machine: &mut Machine, code: &Code, number: u32) -> Result<(), NoMemory>
    requires there { number < length code.now.tables.choices.items }
    ensures chosen { OnOk result (Chooses code.now number machine.old machine.new) }
    ensures rest { OnOk result (machine.new ≡ record machine.old { begun = machine.new.begun }) }
{
    let choice = code.choice(number);
    let (way, chosen) = code.way(number, machine.truth(choice.test));
    let Some(operand) = way.operand else {
        return Ok(());
    };
    take_operand(machine, choice.node, operand)?;
    choose_at_once(machine, chosen)
}

/// The choices whose tests are quiet: of each of these nodes, this operand.
pub fn choose_at_once(machine: &mut Machine, chosen: &[(u32, u32)]) -> Result<(), NoMemory>
    ensures work { machine.new.work ≡ machine.old.work }
    ensures chosen { OnOk result (HasChosen machine.old chosen.now machine.new) }
{
    for (node, operand) in chosen {
        take_operand(machine, *node, *operand)?;
    }
    Ok(())
}

// The node of the full expression chooses this operand.
fn take_operand(machine: &mut Machine, node: u32, operand: u32) -> Result<(), NoMemory>
    ensures work { machine.new.work ≡ machine.old.work }
    ensures chosen { OnOk result (HasChosen machine.old ((node, operand) ∷ []) machine.new) }
{
    match machine.begun.get_mut(machine.below.len()) {
        Some(begun) => begun.taken.set(node, operand),
        None => Err(NoMemory),
    }
}

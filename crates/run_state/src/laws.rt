// Laws of what a machine stands for.
ghost use Rattle.run_state.specs.Operands.{QuietGives, RoomGives};

/// What the operands of full expressions give, where what they name stands: of an expression that is known beforehand its value by the definitions of
/// runs, of any other what the room of its node holds (6.5p1).
pub fn law_operands()
    ensures known { QuietGives }
    ensures rooms { RoomGives }
{}

ghost use Rattle.par_values.specs.Laws.{TakesAndGives, NoneOfMembers, ChangeIsGivenLessTaken};
ghost use Rattle.par_values.specs.Laws.{ChangeIsMade, LeavingTakes};

/// The law that what `stack_effect` of par_instr tells of an instruction is what the instruction
/// does: the change of the operand list where the frame goes on, minus what an athrow or a return
/// takes, and nothing of the invokes and the instructions on fields.
pub fn stack_effect_is_what_is_done()
    ensures done { TakesAndGives }
    ensures none { NoneOfMembers }
    ensures less { ChangeIsGivenLessTaken }
    ensures made { ChangeIsMade }
    ensures leaving { LeavingTakes }
{}

ghost use Rattle.par_instr.specs.Laws.{EachHasOneSpelling, NoOtherHasOne, EachIsListed};
ghost use Rattle.par_instr.specs.Laws.{NoneBeginsAnother, ReadIsWrittenAgain, WrittenIsReadAgain};
ghost use Rattle.par_instr.specs.Laws.{OneStands, DecodedStands};

/// The law that an instruction has exactly one spelling where its numbers are in range and its
/// opcode is listed, and none elsewhere.
pub fn spelling_is_one()
    ensures one { EachHasOneSpelling }
    ensures none_else { NoOtherHasOne }
{}

/// The law that a spelling is a listed opcode with all its operands, and that none begins another.
pub fn spelling_ends_itself()
    ensures listed { EachIsListed }
    ensures none_begins_another { NoneBeginsAnother }
{}

/// The law of both round trips: what is decoded has a spelling, the bytes that it was decoded
/// from, and what is encoded is decoded to itself, whatever follows. What `encode` adds and what
/// `decode` finds are such spellings by their contracts.
pub fn spelling_is_read_again()
    ensures read { ReadIsWrittenAgain }
    ensures written { WrittenIsReadAgain }
    ensures one { OneStands }
{}

/// The law that the two ways to say which instruction is at an offset agree: an instruction is
/// decoded there exactly where its spelling stands there.
pub fn decoded_is_what_stands()
    ensures { DecodedStands }
{}

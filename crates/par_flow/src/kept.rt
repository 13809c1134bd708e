// Ways as they are kept.
ghost use Rattle.std.specs.Prelude.{◌≡◌};
ghost use Rattle.std.specs.Option.{option_copied};
ghost use Rattle.par_nodes.specs.Seen.{seen_kind};
ghost use Rattle.par_flow.specs.Kept.{exit_of, thrown};

use par_atoms::Atoms;
use par_base::list::List;
use par_bits::Bits;
use par_nodes::rule::Kind;

/// What is known at a spot: who may learn that it is reached, the number of the policies of locals,
/// and the locks that are open.
#[derive(Clone, Copy)]
pub struct KeptWay {
    pub context: Atoms,
    pub env: u32,
    pub locks: Bits<4>,
}

/// The way of each possible completion of an expression or a statement.
#[derive(Drop)]
pub struct KeptWays {
    pub normal: Option<KeptWay>,
    pub ret: Option<KeptWay>,
    pub brk: Option<KeptWay>,
    pub cont: Option<KeptWay>,
    pub throws: List<(u16, KeptWay)>,
}

/// The way of a throw of the class, if there is one.
pub(crate) fn thrown(throws: &[(u16, KeptWay)], class: u16) -> Option<KeptWay>
    ensures { result ≡ thrown throws.now class }
{
    for throw in throws {
        if throw.0 == class {
            return Some(throw.1);
        }
    }
    None
}

/// The way of a completion, if it is possible.
pub(crate) fn exit_of(ways: &KeptWays, kind: Kind) -> Option<KeptWay>
    ensures { result ≡ exit_of ways.now (seen_kind kind) }
{
    match kind {
        Kind::Normal => ways.normal,
        Kind::Return => ways.ret,
        Kind::Break => ways.brk,
        Kind::Continue => ways.cont,
        Kind::Throw(class) => thrown(ways.throws.as_slice(), class),
    }
}

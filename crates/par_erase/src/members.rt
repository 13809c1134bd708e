//! Members without policies.

ghost use Rattle.std.specs.Prelude.{◌≡◌, IfOk, OnOk, IsTrue, true, false, map, ◌++◌, ◌∷◌, []};
ghost use Rattle.std.specs.List.{AllByRecursion};
ghost use Rattle.par_base.specs.Names.{IsName};
ghost use Rattle.par_erase.specs.Shown.{field_info, param_info};
ghost use Rattle.par_erase.specs.Erased.{erased_field, erased_param, inputs_among, outputs_among};

use crate::program::PlainField;
use par_base::list::List;
use par_base::memory::NoMemory;
use par_base::name::Name;
use par_typed::table::{ChannelInfo, FieldInfo, ParamInfo};
use par_typed::ty::Ty;
use std::alloc::Global;

/// A second name of the same bytes.
pub fn copy_name(alloc: Global, name: &Name) -> Result<Name, NoMemory>
    ensures same { IfOk result (λ copy. copy ≡ name.now) }
    ensures spelled { IfOk result (λ copy. IsName copy) }
{
    Name::new(alloc, name.bytes())
}

fn erase_field(alloc: Global, field: &FieldInfo) -> Result<PlainField, NoMemory>
    ensures info { IfOk result (λ f. field_info f ≡ erased_field field.now) }
    ensures named { IfOk result (λ f. IsName f.name) }
{
    Ok(PlainField {
        name: copy_name(alloc, &field.name)?,
        is_static: field.is_static,
        ty: field.ty,
    })
}

/// The fields of a class.
pub fn erase_fields(alloc: Global, fields: &[FieldInfo]) -> Result<List<PlainField>, NoMemory>
    ensures infos { IfOk result (λ fs. map field_info fs ≡ map erased_field fields.now) }
    ensures named { IfOk result (λ fs. AllByRecursion (λ f. IsName f.name) (map field_info fs)) }
{
    let mut found = List::new(alloc);
    for field in fields {
        let field = erase_field(alloc, field)?;
        found.push(field)?;
    }
    Ok(found)
}

/// The types of parameters.
pub fn erase_params(alloc: Global, params: &[ParamInfo]) -> Result<List<Ty>, NoMemory>
    ensures { IfOk result (λ types. map param_info types ≡ map erased_param params.now) }
{
    let mut found = List::new(alloc);
    for param in params {
        found.push(param.ty)?;
    }
    Ok(found)
}

/// The types of locals.
pub fn copy_types(alloc: Global, types: &[Ty]) -> Result<List<Ty>, NoMemory>
    ensures { IfOk result (λ copies. copies ≡ types.now) }
{
    let mut found = List::new(alloc);
    for ty in types {
        found.push(*ty)?;
    }
    Ok(found)
}

/// The names of channels that go in, and of those that go out.
#[derive(Drop)]
pub struct ChannelNames {
    pub inputs: List<Name>,
    pub outputs: List<Name>,
}

impl ChannelNames {
    // One more channel, behind those of its direction.
    #[tactic(auto, using(crate::proofs::Copies::copies))]
    fn add(&mut self, alloc: Global, channel: &ChannelInfo) -> Result<(), NoMemory>
        ensures inputs { OnOk result (self.new.inputs
            ≡ self.old.inputs ++ inputs_among (channel.now ∷ [])) }
        ensures outputs { OnOk result (self.new.outputs
            ≡ self.old.outputs ++ outputs_among (channel.now ∷ [])) }
        ensures inputs_named { OnOk result (AllByRecursion IsName self.old.inputs
            → AllByRecursion IsName self.new.inputs) }
        ensures outputs_named { OnOk result (AllByRecursion IsName self.old.outputs
            → AllByRecursion IsName self.new.outputs) }
    {
        let name = copy_name(alloc, &channel.name)?;
        if channel.is_input {
            self.inputs.push(name)
        } else {
            self.outputs.push(name)
        }
    }
}

/// The channels of a class by their direction.
#[tactic(auto, using(crate::proofs::Copies::copies))]
pub fn part_channels(alloc: Global, channels: &[ChannelInfo]) -> Result<ChannelNames, NoMemory>
    ensures inputs { IfOk result (λ names. names.inputs ≡ inputs_among channels.now) }
    ensures outputs { IfOk result (λ names. names.outputs ≡ outputs_among channels.now) }
    ensures inputs_named { IfOk result (λ names. AllByRecursion IsName names.inputs) }
    ensures outputs_named { IfOk result (λ names. AllByRecursion IsName names.outputs) }
{
    let mut names = ChannelNames {
        inputs: List::new(alloc),
        outputs: List::new(alloc),
    };
    for channel in channels {
        names.add(alloc, channel)?;
    }
    Ok(names)
}

// The laws of descriptors. Nothing runs here: the contracts are laws.
ghost use Rattle.par_compile_laws.specs.DescriptorLaws.{FieldsAreDescribed, MethodsAreDescribed};

/// The descriptor of a field says the kind of its type, and that of a method the kinds of its
/// parameters and of its result, where these are types of values and classes have names.
pub fn descriptors_say_types()
    ensures fields { FieldsAreDescribed }
    ensures methods { MethodsAreDescribed }
{}

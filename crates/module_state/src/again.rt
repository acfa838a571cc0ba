// Whether a name was declared before by the same block, and may not be again.
ghost use Rattle.std.specs.Prelude.{◌≡◌, ◌&&◌, is_some, not};
ghost use Rattle.elab_scopes.specs.Scopes.{module_among, signature_among, type_among, value_among};

use elab_scopes::Members;

/// Whether a value of this name was declared before, and another may not be.
pub fn is_value_again<'a>(is_local: bool, own: &'a Members<'a>, name: &str) -> bool
    ensures { result ≡ (not is_local && is_some (value_among own.now name.now)) }
{
    !is_local && own.named(name).as_value.is_some()
}

/// Whether a type of this name was declared before, and another may not be.
pub fn is_type_again<'a>(is_local: bool, own: &'a Members<'a>, name: &str) -> bool
    ensures { result ≡ (not is_local && is_some (type_among own.now name.now)) }
{
    !is_local && own.named(name).as_type.is_some()
}

/// Whether a module of this name was declared before, and another may not be.
pub fn is_module_again<'a>(is_local: bool, own: &'a Members<'a>, name: &str) -> bool
    ensures { result ≡ (not is_local && is_some (module_among own.now name.now)) }
{
    !is_local && own.named(name).as_module.is_some()
}

/// Whether a module type of this name was declared before, and another may not be.
pub fn is_signature_again<'a>(is_local: bool, own: &'a Members<'a>, name: &str) -> bool
    ensures { result ≡ (not is_local && is_some (signature_among own.now name.now)) }
{
    !is_local && own.named(name).as_signature.is_some()
}

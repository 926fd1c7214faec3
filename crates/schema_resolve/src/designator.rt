ghost use Rattle.std.specs.Prelude.{◌≡◌, [], ◌∷◌, None, IfOk, OnOk, IfErr};
ghost use Rattle.cedar_identifiers.specs.Names.{components_of};
ghost use Rattle.schema_resolve_definitions.specs.Tests.{tests_of};
ghost use Rattle.schema_resolve_targets.specs.Tried.{kind_found};
ghost use Rattle.schema_resolve.specs.Designated.{designating, type_as_written, undesignated_type, undesignated};
ghost use Rattle.schema_resolve.specs.Faults.{NamesFirst};
ghost use Rattle.schema_resolve_targets.specs.Qualified.{in_namespace};
ghost use Rattle.schema_resolve.specs.References.{reference_to};

use crate::renamer::Renamer;
use crate::stop::Stop;
use cedar_data::{CloneIn, Loc, NonEmpty};
use cedar_identifiers::{InternalName, RawName, ReferenceType};
use cedar_names::AllDefs;
use schema_json::{ActionEntityUID, Type, TypeVariant};
use schema_resolve_errors::{ResolveError, TypeNotDefinedError};
use schema_resolve_targets::tried::told;
use std::alloc::{AllocError, Global};

// What each name is that a reference may mean either way.
#[derive(Drop)]
pub(crate) struct Designator<'a> {
    pub(crate) defs: &'a AllDefs,
}

impl<'a> Renamer<InternalName, InternalName> for Designator<'a> {
    ghost becomes = { λ d. designating (tests_of d.defs.now) };

    ghost action_becomes = { λ _. type_as_written };

    ghost untargeted = { λ d. undesignated (tests_of d.defs.now) };

    fn rename(
        &self,
        alloc: Global,
        role: ReferenceType,
        name: &InternalName,
    ) -> Result<InternalName, Stop> {
        match role {
            ReferenceType::Common | ReferenceType::Entity => Ok(name.clone_in(alloc)?),
            ReferenceType::CommonOrEntity => {
                look_up(alloc, self.defs, name)?;
                Ok(name.clone_in(alloc)?)
            }
        }
    }

    fn rename_either(
        &self,
        alloc: Global,
        name: &InternalName,
        loc: Option<Loc>,
    ) -> Result<Type<InternalName>, Stop> {
        let is_common = look_up(alloc, self.defs, name)?;
        let copy = name.clone_in(alloc)?;
        Ok(reference_to(is_common, copy, loc))
    }

    fn rename_action(
        &self,
        alloc: Global,
        uid: &ActionEntityUID<InternalName>,
    ) -> Result<InternalName, Stop> {
        Ok(uid.ty().clone_in(alloc)?)
    }
}

// Whether the name is a common type, where it is one or an entity type.
fn look_up(alloc: Global, defs: &AllDefs, name: &InternalName) -> Result<bool, Stop>
    ensures found { IfOk result (λ is_common. is_common ≡ (tests_of defs.now).is_common (components_of name.now)) }
    ensures defined { OnOk result (undesignated_type (tests_of defs.now) ReferenceType.CommonOrEntity name.now ≡ []) }
    ensures err { IfErr result (NamesFirst
        (undesignated_type (tests_of defs.now) ReferenceType.CommonOrEntity name.now)) }
{
    match kind_of(defs, name) {
        Some(is_common) => Ok(is_common),
        None => {
            let error = neither(alloc, name)?;
            Err(Stop::new(alloc, ResolveError::TypeNotDefined(error))?)
        }
    }
}

// What the name is, where it is a common type or an entity type, and whether it is a common type.
fn kind_of(defs: &AllDefs, name: &InternalName) -> Option<bool>
    ensures { result ≡ kind_found (tests_of defs.now) ReferenceType.CommonOrEntity (components_of name.now) }
{
    let is_common = defs.is_defined_as_common(name);
    told(is_common, !is_common && defs.is_defined_as_entity(name))
}

// The error of a name that is neither a common type nor an entity type.
fn neither(alloc: Global, name: &InternalName) -> Result<TypeNotDefinedError, AllocError>
    ensures { IfOk result (λ error. error.undefined_types ≡ in_namespace None ReferenceType.CommonOrEntity
        (record { name = name.now }) ∷ []) }
{
    let raw = RawName::from_internal(name.clone_in(alloc)?);
    let undefined = raw.conditionally_qualify_with(alloc, None, ReferenceType::CommonOrEntity)?;
    Ok(TypeNotDefinedError {
        undefined_types: NonEmpty::new(alloc, undefined),
    })
}

// A reference to a common type, or to an entity type.
pub(crate) fn reference_to<N>(is_common: bool, name: N, loc: Option<Loc>) -> Type<N>
    ensures { result ≡ reference_to is_common name loc }
{
    if is_common {
        Type::CommonTypeRef {
            type_name: name,
            loc,
        }
    } else {
        Type::Variant {
            ty: TypeVariant::Entity { name },
            loc,
        }
    }
}

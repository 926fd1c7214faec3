ghost use Rattle.std.specs.Prelude.{◌≡◌, ◌∷◌, [], Some, IfOk};
ghost use Rattle.std.specs.Option.{option_copied};
ghost use Rattle.schema_resolve_definitions.specs.Tests.{tests_of};
ghost use Rattle.schema_resolve_errors.specs.declared.resolve_error.ResolveError.TheVariants.{ActionNotDefined};
ghost use Rattle.schema_resolve.specs.Faults.{Names};
ghost use Rattle.schema_resolve_targets.specs.Qualified.{in_namespace, type_in_namespace};
ghost use Rattle.schema_resolve.specs.Resolved.{resolving_in, meant_type};
ghost use Rattle.schema_resolve_targets.specs.Untargeted.{untargeted_in};
ghost use Rattle.schema_resolve_targets.specs.Tried.{candidate};
ghost use Rattle.schema_resolve_targets.specs.Undefined.{action_reference};

use crate::designator::reference_to;
use crate::renamer::Renamer;
use crate::scope::Scope;
use crate::stop::Stop;
use cedar_data::{CloneIn, Loc, NonEmpty};
use cedar_identifiers::{InternalName, RawName, ReferenceType};
use schema_json::{ActionEntityUID, Type};
use schema_resolve_errors::{ActionNotDefinedError, ResolveError, TypeNotDefinedError};
use schema_resolve_lookup::FragmentDefs;
use schema_resolve_targets::action_types::written;
use schema_resolve_targets::tried::{find_action, find_type};
use std::alloc::{AllocError, Global};

// What each name in a namespace means.
#[derive(Drop)]
pub(crate) struct Resolver<'a, 'f> {
    pub(crate) defs: &'a FragmentDefs<'f>,
    pub(crate) scope: Scope<'a>,
}

// The candidate of a name: behind the namespace, or as it is written.
fn candidate(
    alloc: Global,
    ns: Option<&InternalName>,
    name: InternalName,
    is_own: bool,
) -> Result<InternalName, AllocError>
    ensures { IfOk result (λ out. out ≡ candidate (option_copied ns.entry) name is_own) }
{
    if is_own {
        return name.qualify_with(alloc, ns);
    }
    Ok(name)
}

// The error of a name that means nothing.
fn no_type(
    alloc: Global,
    ns: Option<&InternalName>,
    kind: ReferenceType,
    name: &RawName,
) -> Result<TypeNotDefinedError, AllocError>
    ensures { IfOk result (λ error. error.undefined_types ≡ in_namespace (option_copied ns.entry) kind name.now ∷ []) }
{
    let copy = name.clone_in(alloc)?;
    let undefined = copy.conditionally_qualify_with(alloc, ns, kind)?;
    Ok(TypeNotDefinedError {
        undefined_types: NonEmpty::new(alloc, undefined),
    })
}

// The error of a reference to an action that means nothing.
fn no_action(
    alloc: Global,
    ns: Option<&InternalName>,
    uid: &ActionEntityUID<RawName>,
) -> Result<ActionNotDefinedError, AllocError>
    ensures { IfOk result (λ error. Names
        (action_reference uid.now.id (Some (type_in_namespace (option_copied ns.entry) uid.now.id uid.now.ty)))
        (ActionNotDefined error)) }
{
    let ty = written(alloc, &uid.ty)?;
    let ty = ty.conditionally_qualify_with(alloc, ns, ReferenceType::Entity)?;
    let id = uid.id.clone_in(alloc)?;
    Ok(ActionNotDefinedError(NonEmpty::new(alloc, ActionEntityUID::with_type(ty, id))))
}

impl<'a, 'f> Renamer<RawName, InternalName> for Resolver<'a, 'f> {
    ghost becomes = { λ r. resolving_in (tests_of r.defs.now) (option_copied r.scope.ns) };

    ghost action_becomes = { λ r. meant_type (tests_of r.defs.now) (option_copied r.scope.ns) };

    ghost untargeted = { λ r. untargeted_in (tests_of r.defs.now) (option_copied r.scope.ns) };

    fn rename(
        &self,
        alloc: Global,
        role: ReferenceType,
        name: &RawName,
    ) -> Result<InternalName, Stop> {
        let ns = self.scope.ns;
        match find_type(self.defs, ns, role, &name.name) {
            Some(found) => {
                let copy = name.name.clone_in(alloc)?;
                Ok(candidate(alloc, ns, copy, found.is_own)?)
            }
            None => {
                let error = no_type(alloc, ns, role, name)?;
                Err(Stop::new(alloc, ResolveError::TypeNotDefined(error))?)
            }
        }
    }

    fn rename_either(
        &self,
        alloc: Global,
        name: &RawName,
        loc: Option<Loc>,
    ) -> Result<Type<InternalName>, Stop> {
        let ns = self.scope.ns;
        let kind = ReferenceType::CommonOrEntity;
        match find_type(self.defs, ns, kind, &name.name) {
            Some(found) => {
                let copy = name.name.clone_in(alloc)?;
                let meant = candidate(alloc, ns, copy, found.is_own)?;
                Ok(reference_to(found.is_common, meant, loc))
            }
            None => {
                let error = no_type(alloc, ns, kind, name)?;
                Err(Stop::new(alloc, ResolveError::TypeNotDefined(error))?)
            }
        }
    }

    fn rename_action(
        &self,
        alloc: Global,
        uid: &ActionEntityUID<RawName>,
    ) -> Result<InternalName, Stop> {
        let ns = self.scope.ns;
        let ty = written(alloc, &uid.ty)?.into_internal();
        match find_action(self.defs, ns, &uid.id, &ty) {
            Some(is_own) => Ok(candidate(alloc, ns, ty, is_own)?),
            None => {
                let error = no_action(alloc, ns, uid)?;
                Err(Stop::new(alloc, ResolveError::ActionNotDefined(error))?)
            }
        }
    }
}

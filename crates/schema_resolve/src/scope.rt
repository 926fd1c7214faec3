ghost use Rattle.std.specs.Prelude.{◌≡◌, [], Ok, IfOk};
ghost use Rattle.std.specs.Option.{option_copied};
ghost use Rattle.schema_resolve.specs.Renamings.{qualifying};
ghost use Rattle.schema_resolve_targets.specs.Qualified.{type_in_namespace};

use crate::renamer::Renamer;
use crate::stop::Stop;
use cedar_data::{CloneIn, Loc};
use cedar_identifiers::{ConditionalName, InternalName, RawName, ReferenceType};
use schema_json::{ActionEntityUID, Type, TypeVariant};
use schema_resolve_targets::action_types::written;
use std::alloc::{AllocError, Global};

// The namespace that names stand in.
#[derive(Drop)]
pub(crate) struct Scope<'a> {
    pub(crate) ns: Option<&'a InternalName>,
}

impl<'a> Renamer<RawName, ConditionalName> for Scope<'a> {
    ghost becomes = { λ s. qualifying (option_copied s.ns) };

    ghost action_becomes = { λ s id ty. type_in_namespace (option_copied s.ns) id ty };

    ghost untargeted = { λ _. record { types = λ _ _. []; actions = λ _ _. [] } };

    fn rename(
        &self,
        alloc: Global,
        role: ReferenceType,
        name: &RawName,
    ) -> Result<ConditionalName, Stop> {
        let copy = name.clone_in(alloc)?;
        Ok(copy.conditionally_qualify_with(alloc, self.ns, role)?)
    }

    fn rename_either(
        &self,
        alloc: Global,
        name: &RawName,
        loc: Option<Loc>,
    ) -> Result<Type<ConditionalName>, Stop> {
        let type_name = self.rename(alloc, ReferenceType::CommonOrEntity, name)?;
        Ok(Type::Variant {
            ty: TypeVariant::EntityOrCommon { type_name },
            loc,
        })
    }

    fn rename_action(
        &self,
        alloc: Global,
        uid: &ActionEntityUID<RawName>,
    ) -> Result<ConditionalName, Stop> {
        let ty = written(alloc, &uid.ty)?;
        Ok(ty.conditionally_qualify_with(alloc, self.ns, ReferenceType::Entity)?)
    }
}

// The answer, or an error when out of memory.
pub(crate) fn or_memory<T>(answer: Result<T, Stop>) -> Result<T, AllocError>
    ensures { IfOk result (λ out. answer ≡ Ok out) }
{
    match answer {
        Ok(out) => Ok(out),
        Err(_) => Err(AllocError),
    }
}

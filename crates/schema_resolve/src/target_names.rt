ghost use Rattle.schema_resolve_definitions.specs.Tests.{tests_of};
ghost use Rattle.schema_resolve.specs.Renamings.{resolving};
ghost use Rattle.schema_resolve_targets.specs.Targets.{action_target_name, untargeted};

use crate::renamer::Renamer;
use crate::stop::Stop;
use cedar_data::{CloneIn, Loc, NonEmpty};
use cedar_identifiers::{ConditionalName, InternalName, ReferenceType};
use cedar_names::AllDefs;
use schema_json::{ActionEntityUID, Type, TypeVariant};
use schema_resolve_errors::{ActionNotDefinedError, ResolveError, TypeNotDefinedError};
use schema_resolve_targets::targets::{first_action, first_defined};
use std::alloc::Global;

// What each reference means.
impl Renamer<ConditionalName, InternalName> for AllDefs {
    ghost becomes = { λ d. resolving (tests_of d) };

    ghost action_becomes = { λ d. action_target_name (tests_of d) };

    ghost untargeted = { λ d. untargeted (tests_of d) };

    fn rename(
        &self,
        alloc: Global,
        _role: ReferenceType,
        name: &ConditionalName,
    ) -> Result<InternalName, Stop> {
        match first_defined(self, name.reference_type, &name.possibilities) {
            Some(target) => Ok(target.clone_in(alloc)?),
            None => {
                let undefined_types = NonEmpty::new(alloc, name.clone_in(alloc)?);
                let error = TypeNotDefinedError { undefined_types };
                Err(Stop::new(alloc, ResolveError::TypeNotDefined(error))?)
            }
        }
    }

    fn rename_either(
        &self,
        alloc: Global,
        name: &ConditionalName,
        loc: Option<Loc>,
    ) -> Result<Type<InternalName>, Stop> {
        let type_name = self.rename(alloc, ReferenceType::CommonOrEntity, name)?;
        Ok(Type::Variant {
            ty: TypeVariant::EntityOrCommon { type_name },
            loc,
        })
    }

    fn rename_action(
        &self,
        alloc: Global,
        uid: &ActionEntityUID<ConditionalName>,
    ) -> Result<InternalName, Stop> {
        match first_action(self, &uid.id, &uid.ty().possibilities) {
            Some(target) => Ok(target.clone_in(alloc)?),
            None => {
                let error = ActionNotDefinedError(NonEmpty::new(alloc, uid.clone_in(alloc)?));
                Err(Stop::new(alloc, ResolveError::ActionNotDefined(error))?)
            }
        }
    }
}

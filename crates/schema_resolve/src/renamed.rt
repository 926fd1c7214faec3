ghost use Rattle.std.specs.Prelude.{◌≡◌, [], List, ℕ, Option, IfOk, IfErr, OnOk};
ghost use Rattle.schema_resolve_targets.specs.Undefined.{Undefined};
ghost use Rattle.schema_resolve.specs.Faults.{NamesFirst};
ghost use Rattle.schema_resolve_targets.specs.ReferenceParts.{GivenBy, by_reference};
ghost use Rattle.schema_resolve.specs.Renamed.{Renaming, renamed_common, renamed_entity, renamed_action};
ghost use Rattle.schema_json_walk.specs.Walk.{of_common, of_entity, of_action};

use crate::rename_items::{rename_action, rename_common, rename_entity};
use crate::renamer::Renamer;
use crate::stop::Stop;
use cedar_identifiers::NameText;
use schema_json::{ActionType, CommonType, EntityType};
use std::alloc::Global;

// What is declared by a name, with each name that it uses replaced.
pub(crate) trait Renamed<N: NameText, M: NameText> {
    type Output: Drop;

    ghost output: { Renaming N M → (List ℕ → Option N → M) → Self → Self.Output };

    // the references that mean nothing
    ghost undefined: { GivenBy N Undefined → Self → List Undefined };

    fn renamed<R: Renamer<N, M>>(&self, alloc: Global, renamer: &R) -> Result<Self::Output, Stop>
        ensures out { IfOk result (λ out. out
            ≡ output (R.becomes renamer.now) (R.action_becomes renamer.now) self.now) }
        ensures defined { OnOk result (undefined (R.untargeted renamer.now) self.now ≡ []) }
        ensures err { IfErr result (NamesFirst (undefined (R.untargeted renamer.now) self.now)) };
}

impl<N: NameText, M: NameText + Drop> Renamed<N, M> for CommonType<N> {
    type Output = CommonType<M>;

    ghost output = { λ becomes action_becomes common. renamed_common becomes common };

    ghost undefined = { λ untargeted. of_common (by_reference untargeted) };

    fn renamed<R: Renamer<N, M>>(&self, alloc: Global, renamer: &R) -> Result<CommonType<M>, Stop> {
        rename_common(alloc, renamer, self)
    }
}

impl<N: NameText, M: NameText + Drop> Renamed<N, M> for EntityType<N> {
    type Output = EntityType<M>;

    ghost output = { λ becomes action_becomes entity. renamed_entity becomes entity };

    ghost undefined = { λ untargeted. of_entity (by_reference untargeted) };

    fn renamed<R: Renamer<N, M>>(&self, alloc: Global, renamer: &R) -> Result<EntityType<M>, Stop> {
        rename_entity(alloc, renamer, self)
    }
}

impl<N: NameText, M: NameText + Drop> Renamed<N, M> for ActionType<N> {
    type Output = ActionType<M>;

    ghost output = { λ becomes action_becomes action. renamed_action becomes action_becomes action };

    ghost undefined = { λ untargeted. of_action (by_reference untargeted) };

    fn renamed<R: Renamer<N, M>>(&self, alloc: Global, renamer: &R) -> Result<ActionType<M>, Stop> {
        rename_action(alloc, renamer, self)
    }
}

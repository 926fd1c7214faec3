ghost use Rattle.std.specs.Prelude.{◌≡◌, [], List, ℕ, Option, IfOk, IfErr, OnOk};
ghost use Rattle.cedar_identifiers.specs.declared.reference_type.ReferenceType.{ReferenceType};
ghost use Rattle.schema_resolve_targets.specs.Undefined.{Undefined};
ghost use Rattle.schema_resolve.specs.Faults.{NamesFirst};
ghost use Rattle.schema_resolve_targets.specs.ReferenceParts.{GivenBy};
ghost use Rattle.schema_resolve.specs.Renamed.{Renaming};

use crate::stop::Stop;
use cedar_data::Loc;
use cedar_identifiers::{NameText, ReferenceType};
use schema_json::{ActionEntityUID, Type};
use std::alloc::Global;

// What each name and the type of each reference to an action becomes, or that it means nothing.
pub(crate) trait Renamer<N: NameText, M: NameText> {
    ghost becomes: { Self → Renaming N M };

    ghost action_becomes: { Self → List ℕ → Option N → M };

    // a reference, where it means nothing
    ghost untargeted: { Self → GivenBy N Undefined };

    fn rename(&self, alloc: Global, role: ReferenceType, name: &N) -> Result<M, Stop>
        ensures name { IfOk result (λ out. out ≡ (becomes self.now).name role name.now) }
        ensures defined { OnOk result ((untargeted self.now).types role name.now ≡ []) }
        ensures err { IfErr result (NamesFirst ((untargeted self.now).types role name.now)) };

    // What becomes of a reference at a place that may mean a common type or an entity type.
    fn rename_either(&self, alloc: Global, name: &N, loc: Option<Loc>) -> Result<Type<M>, Stop>
        ensures ty { IfOk result (λ out. out ≡ (becomes self.now).either name.now loc) }
        ensures defined { OnOk result ((untargeted self.now).types ReferenceType.CommonOrEntity name.now ≡ []) }
        ensures err { IfErr result (NamesFirst ((untargeted self.now).types ReferenceType.CommonOrEntity name.now)) };

    // What the type of a reference to an action becomes.
    fn rename_action(&self, alloc: Global, uid: &ActionEntityUID<N>) -> Result<M, Stop>
        ensures name { IfOk result (λ out. out ≡ action_becomes self.now uid.now.id uid.now.ty) }
        ensures defined { OnOk result ((untargeted self.now).actions uid.now.id uid.now.ty ≡ []) }
        ensures err { IfErr result (NamesFirst ((untargeted self.now).actions uid.now.id uid.now.ty)) };
}

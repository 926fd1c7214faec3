ghost use Rattle.std.specs.Prelude.{◌≡◌, true, false, Some, IsSome, IfOk};
ghost use Rattle.std.specs.Option.{option_copied};
ghost use Rattle.cedar_identifiers.specs.Candidates.{qualified};
ghost use Rattle.cedar_identifiers.specs.Names.{components_of, has_cedar};
ghost use Rattle.schema_resolve_definitions.specs.Declarations.{name_of};
ghost use Rattle.schema_resolve_definitions.specs.Defined.{defined};
ghost use Rattle.schema_resolve_definitions.specs.Tests.{tests_of};
ghost use Rattle.schema_resolve_targets.specs.Tried.{candidate};
ghost use Rattle.cedar_names.specs.Meaning.{PlainType};
ghost use Rattle.schema_build_types.specs.Standing.{IsBuilt};
ghost use Rattle.schema_build_expand.specs.Scope.{builtin};
ghost use Rattle.schema_build_scope.specs.FragmentScope.{fragment_scope, table_scope};
ghost use Rattle.schema_build_scope.specs.NamedTargets.{IsRankOfName, IsCommonTarget, IsEntityTarget};

use crate::builtins::builtin_type;
use crate::fragment_names::FragmentNames;
use crate::meant::{find_known, find_meant};
use crate::ranks::search;
use cedar_data::CloneIn;
use cedar_identifiers::{InternalName, Name, RawName, ReferenceType};
use cedar_names::ExtensionTable;
use schema_build_expand::{Meanings, Target};
use schema_build_types::Type as BuiltType;
use schema_resolve_definitions::declared::name_of;
use std::alloc::{AllocError, Global};

/// What the references mean that are written in one namespace of a fragment.
#[derive(Drop)]
pub struct NamesIn<'n, 'f> {
    /// The fragment's names.
    pub names: &'n FragmentNames<'f>,
    /// The namespace.
    pub ns: &'n Option<Name>,
}

impl<'n, 'f> Meanings<RawName> for NamesIn<'n, 'f> {
    ghost scope = { λ v. fragment_scope v.names.now.fragment v.names.now.table };

    ghost place = { λ v. name_of v.ns.now };

    fn target(
        &self,
        alloc: Global,
        kind: ReferenceType,
        name: &RawName,
    ) -> Result<Target, AllocError> {
        let meant = find_known(self.names.defs(), name_of(self.ns), kind, name);
        if meant.is_common {
            return common_meant(alloc, self.names, self.ns, &name.name, meant.is_own);
        }
        let full = candidate(alloc, self.ns, &name.name, meant.is_own)?;
        Ok(entity_target(full))
    }

    fn rank(
        &self,
        _alloc: Global,
        kind: ReferenceType,
        name: &RawName,
    ) -> Result<Option<usize>, AllocError> {
        match find_meant(self.names.defs(), name_of(self.ns), kind, name) {
            Some(meant) => {
                if meant.is_common {
                    Ok(rank_meant(self.names, self.ns, &name.name, meant.is_own))
                } else {
                    Ok(None)
                }
            }
            None => Ok(None),
        }
    }
}

// The candidate of the name: behind the namespace, or as it is written.
fn candidate(
    alloc: Global,
    ns: &Option<Name>,
    name: &InternalName,
    is_own: bool,
) -> Result<InternalName, AllocError>
    ensures { IfOk result (λ full. full ≡ candidate (name_of ns.now) name.now is_own) }
{
    let name = name.clone_in(alloc)?;
    if is_own {
        name.qualify_with(alloc, name_of(ns))
    } else {
        Ok(name)
    }
}

// The namespace that the candidate of a name stands behind, if it does.
fn before<'a>(ns: &'a Option<Name>, is_own: bool) -> Option<&'a InternalName>
    ensures { (name : _) → qualified (option_copied result) name ≡ candidate (name_of ns.now) name is_own }
{
    if is_own { name_of(ns) } else { None }
}

// The rank of the declared common type that the candidate of the name is, if there is one. The candidate is not made.
fn rank_meant(
    names: &FragmentNames<'_>,
    ns: &Option<Name>,
    name: &InternalName,
    is_own: bool,
) -> Option<usize>
    ensures { IsRankOfName (fragment_scope names.now.fragment names.now.table)
        (components_of (candidate (name_of ns.now) name.now is_own)) result }
{
    match search(names.commons(), names.recent(), before(ns, is_own), name) {
        Ok(rank) => Some(rank),
        Err(_) => None,
    }
}

// What the candidate of the name stands for, which is a common type: the declared common type of its rank, or else a
// builtin type.
fn common_meant(
    alloc: Global,
    names: &FragmentNames<'_>,
    ns: &Option<Name>,
    name: &InternalName,
    is_own: bool,
) -> Result<Target, AllocError>
    requires { (tests_of (defined names.now.fragment names.now.table)).is_common
        (components_of (candidate (name_of ns.now) name.now is_own)) ≡ true }
    ensures { IfOk result (IsCommonTarget (fragment_scope names.now.fragment names.now.table)
        (components_of (candidate (name_of ns.now) name.now is_own))) }
{
    match rank_meant(names, ns, name, is_own) {
        Some(rank) => Ok(Target::Common(rank)),
        None => {
            let built = builtin_meant(alloc, names.table(), ns, name, is_own)?;
            Ok(Target::Builtin(built))
        }
    }
}

// What the candidate of the name stands for, which is builtin. As it is written, the name is not copied.
fn builtin_meant(
    alloc: Global,
    table: &ExtensionTable,
    ns: &Option<Name>,
    name: &InternalName,
    is_own: bool,
) -> Result<BuiltType, AllocError>
    requires { IsSome (builtin (table_scope table.now) (components_of (candidate (name_of ns.now) name.now is_own))) }
    ensures { IfOk result (λ ty. (p : PlainType) × (builtin (table_scope table.now) (components_of (candidate
        (name_of ns.now) name.now is_own)) ≡ Some p) × IsBuilt p ty) }
{
    if !is_own {
        return builtin_type(alloc, table, name);
    }
    let full = candidate(alloc, ns, name, true)?;
    builtin_type(alloc, table, &full)
}

// The entity type of this name.
fn entity_target(name: InternalName) -> Target
    requires { has_cedar (components_of name) ≡ false }
    ensures { IsEntityTarget name result }
{
    match Name::from_internal(name) {
        Some(name) => Target::Entity(name),
        None => unreachable!(),
    }
}

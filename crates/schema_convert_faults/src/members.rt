ghost use Rattle.std.specs.Prelude.{◌≡◌, Some, map, find, IfOk};
ghost use Rattle.std.specs.List.{list_any};
ghost use Rattle.std.specs.Option.{option_copied};
ghost use Rattle.schema_convert_faults.specs.Members.{says_role, says_same, said_twice, empty_role, missing_role};
ghost use Rattle.schema_convert_faults.specs.Members.{said_empty, member_fault};
ghost use Rattle.schema_convert_faults.specs.Members.{missing, block_fault};

use cedar_data::{Loc, Node, NonEmpty};
use schema_convert_errors::{
    DuplicateContext, DuplicatePrincipalOrResource, MissingOrEmpty, NoPrincipalOrResource,
    ToJsonSchemaError,
};
use schema_syntax_tree::{AppDecl, PR, SrcStr};
use std::alloc::{AllocError, Global};

// Whether the member says which principals, or which resources, as the kind is.
fn says_role(kind: PR, member: &AppDecl<'_>) -> bool
    ensures { result ≡ says_role kind member.now }
{
    match (kind, member) {
        (PR::Principal, AppDecl::PR(list)) => matches!(list.kind.node, PR::Principal),
        (PR::Resource, AppDecl::PR(list)) => matches!(list.kind.node, PR::Resource),
        (_, AppDecl::Context(_)) => false,
    }
}

// Whether both say the same: which principals, which resources, or the context.
fn says_same(member: &AppDecl<'_>, other: &AppDecl<'_>) -> bool
    ensures { result ≡ says_same member.now other.now }
{
    match member {
        AppDecl::PR(list) => says_role(list.kind.node, other),
        AppDecl::Context(_) => match other {
            AppDecl::PR(_) => false,
            AppDecl::Context(_) => true,
        },
    }
}

// The fault of a second member that says the same.
fn said_twice(
    alloc: Global,
    name: &Node<SrcStr<'_>>,
    member: &AppDecl<'_>,
    loc1: Option<Loc>,
    loc2: Option<Loc>,
) -> Result<Option<ToJsonSchemaError>, AllocError>
    ensures { IfOk result (λ fault. fault ≡ Some (said_twice name.now member.now loc1 loc2)) }
{
    let name = name.node.to_text(alloc)?;
    match member {
        AppDecl::PR(list) => {
            let fault = DuplicatePrincipalOrResource {
                name,
                kind: list.kind.node,
                loc1,
                loc2,
            };
            Ok(Some(ToJsonSchemaError::DuplicatePrincipalOrResource(fault)))
        }
        AppDecl::Context(_) => {
            let fault = DuplicateContext { name, loc1, loc2 };
            Ok(Some(ToJsonSchemaError::DuplicateContext(fault)))
        }
    }
}

fn empty_role(
    alloc: Global,
    name: &Node<SrcStr<'_>>,
    kind: PR,
    loc: Option<Loc>,
) -> Result<Option<ToJsonSchemaError>, AllocError>
    ensures { IfOk result (λ fault. fault ≡ Some (empty_role name.now kind loc)) }
{
    let fault = NoPrincipalOrResource {
        kind,
        name: name.node.to_text(alloc)?,
        missing_or_empty: MissingOrEmpty::Empty { loc },
        name_loc: name.loc,
    };
    Ok(Some(ToJsonSchemaError::NoPrincipalOrResource(fault)))
}

fn missing_role(
    alloc: Global,
    name: &Node<SrcStr<'_>>,
    kind: PR,
) -> Result<Option<ToJsonSchemaError>, AllocError>
    ensures { IfOk result (λ fault. fault ≡ Some (missing_role name.now kind)) }
{
    let fault = NoPrincipalOrResource {
        kind,
        name: name.node.to_text(alloc)?,
        missing_or_empty: MissingOrEmpty::Missing,
        name_loc: name.loc,
    };
    Ok(Some(ToJsonSchemaError::NoPrincipalOrResource(fault)))
}

// The fault of `[]` in place of principals or resources.
fn said_empty(
    alloc: Global,
    name: &Node<SrcStr<'_>>,
    member: &AppDecl<'_>,
    loc: Option<Loc>,
) -> Result<Option<ToJsonSchemaError>, AllocError>
    ensures { IfOk result (λ fault. fault ≡ said_empty name.now member.now loc) }
{
    match member {
        AppDecl::PR(list) => {
            if list.entity_tys.is_none() {
                return empty_role(alloc, name, list.kind.node, loc);
            }
            Ok(None)
        }
        AppDecl::Context(_) => Ok(None),
    }
}

// The first of these members that says the same.
fn first_same<'a, 's>(
    before: &Vec<&'a Node<AppDecl<'s>>>,
    member: &AppDecl<'s>,
) -> Option<&'a Node<AppDecl<'s>>>
    ensures { option_copied result ≡ find (λ m. says_same member.now m.node) (map (λ x. x.now) before.now.items) }
{
    for at in 0..before.len() {
        let other = before[at];
        if says_same(member, &other.node) {
            return Some(other);
        }
    }
    None
}

// The fault of a member behind these: one of them says the same, or else it is `[]`.
fn member_fault<'s>(
    alloc: Global,
    name: &Node<SrcStr<'s>>,
    before: &Vec<&Node<AppDecl<'s>>>,
    member: &Node<AppDecl<'s>>,
) -> Result<Option<ToJsonSchemaError>, AllocError>
    ensures { IfOk result (λ fault. fault ≡ member_fault name.now (map (λ x. x.now) before.now.items) member.now) }
{
    match first_same(before, &member.node) {
        Some(first) => said_twice(alloc, name, &member.node, first.loc, member.loc),
        None => said_empty(alloc, name, &member.node, member.loc),
    }
}

// Whether one of the members says which principals, or which resources, as the kind is.
fn has_role(kind: PR, members: &Vec<&Node<AppDecl<'_>>>) -> bool
    ensures { result ≡ list_any (λ m. says_role kind m.node) (map (λ x. x.now) members.now.items) }
{
    for at in 0..members.len() {
        if says_role(kind, &members[at].node) {
            return true;
        }
    }
    false
}

// What is missing where these are all: the resources, or else the principals.
fn missing(
    alloc: Global,
    name: &Node<SrcStr<'_>>,
    members: &Vec<&Node<AppDecl<'_>>>,
) -> Result<Option<ToJsonSchemaError>, AllocError>
    ensures { IfOk result (λ out. out ≡ missing name.now (map (λ x. x.now) members.now.items)) }
{
    if !has_role(PR::Resource, members) {
        return missing_role(alloc, name, PR::Resource);
    }
    if !has_role(PR::Principal, members) {
        return missing_role(alloc, name, PR::Principal);
    }
    Ok(None)
}

/// The first fault of an `appliesTo` block of the action. Of members without a fault there are three at most, so few
/// are compared with each.
pub fn block_fault<'s>(
    alloc: Global,
    name: &Node<SrcStr<'s>>,
    members: &NonEmpty<Node<AppDecl<'s>>>,
) -> Result<Option<ToJsonSchemaError>, AllocError>
    ensures { IfOk result (λ out. out ≡ block_fault name.now members.now) }
{
    let mut before = Vec::new(alloc);
    for member in members.iter() {
        if let Some(fault) = member_fault(alloc, name, &before, member)? {
            return Ok(Some(fault));
        }
        before.push(member)?;
    }
    missing(alloc, name, &before)
}

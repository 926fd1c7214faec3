ghost use Rattle.std.specs.Prelude.{◌≡◌, ◌↔◌, true, map};
ghost use Rattle.schema_build_types.specs.Content.{action_content};
ghost use Rattle.schema_build_equal.specs.Declared.{action_kind};

use crate::sets::{same_actions, same_names, same_uid};
use crate::types::same_type;
use schema_build_types::{ActionEntry, ValidatorActionKind};

// Whether the same is declared of two actions, their ancestors aside.
fn same_kind(a: &ValidatorActionKind, b: &ValidatorActionKind) -> bool
    ensures { result ≡ true ↔ action_kind a.now ≡ action_kind b.now }
{
    match a {
        ValidatorActionKind::Defined {
            principals,
            resources,
            context,
        } => match b {
            ValidatorActionKind::Defined {
                principals: other_principals,
                resources: other_resources,
                context: other_context,
            } => {
                let by = same_names(principals.as_slice(), other_principals.as_slice());
                let on = same_names(resources.as_slice(), other_resources.as_slice());
                let within = same_type(context, other_context);
                by && on && within
            }
            ValidatorActionKind::External => false,
        },
        ValidatorActionKind::External => matches!(b, ValidatorActionKind::External),
    }
}

// Whether two actions say the same.
fn same_action(a: &ActionEntry, b: &ActionEntry) -> bool
    ensures { result ≡ true ↔ action_content a.now ≡ action_content b.now }
{
    if !same_uid(&a.uid, &b.uid) {
        return false;
    }
    if !same_actions(a.action.ancestors.as_slice(), b.action.ancestors.as_slice()) {
        return false;
    }
    same_kind(&a.action.kind, &b.action.kind)
}

/// Whether the actions say the same in turn.
pub fn same_declared_actions(a: &[ActionEntry], b: &[ActionEntry]) -> bool
    ensures { result ≡ true ↔ map action_content a.now ≡ map action_content b.now }
{
    if a.len() != b.len() {
        return false;
    }
    for at in 0..a.len() {
        if !same_action(&a[at], &b[at]) {
            return false;
        }
    }
    true
}

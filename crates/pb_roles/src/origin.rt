//! Where what is in a play comes from: a role, or the play itself.
ghost use Rattle.std.specs.Prelude.{◌≡◌, IfOk};
ghost use Rattle.pb_roles.specs.Origins.{from_play, listed};

use pb_expr_syntax::tree::Expr;
use pb_places::{Role, SearchedRole};
use pb_value::items::Items;
use std::alloc::{AllocError, Global};
use std::marker::Model;
use std::sync::Arc;

/// Where nodes and handlers come from: the variables of their role, if they come from one, and the conditions of that role and of those that depend on
/// it. All that a role brings shares them.
pub struct Origin {
    pub(crate) role: Option<Arc<SearchedRole>>,
    /// None where there is no condition.
    pub(crate) conditions: Option<Arc<Items<Expr>>>,
}

impl Drop for Origin {
    fn drop(self) {
        let Origin { role, conditions } = self;
        drop(role);
        drop(conditions);
    }
}

impl Model for Origin {
    ghost use Rattle.std.specs.Prelude.{option_map, unwrap_or};
    ghost use Rattle.std.specs.Arc.{arc_value};
    ghost use Rattle.std.specs.Coded.{codes};
    ghost use Rattle.pb_value.specs.contracts.val.Val as val;
    ghost use Rattle.pb_expr_syntax.specs.contracts.tree.Expr as expr;
    ghost use Rattle.pb_places.specs.Place.{no_role};
    ghost use Rattle.pb_roles.specs.Origins.{OriginOf, listed};

    ghost Value = { OriginOf };

    ghost coded = { Prim.hlevel (codes, val.the_row.coded, expr.the_row.coded) };

    ghost view = { λ o. record { role = unwrap_or (option_map arc_value o.role) no_role; conditions = listed o.conditions } };
}

impl Origin {
    /// What comes from this role, under these conditions.
    pub(crate) fn of_role(
        alloc: Global,
        role: Role,
        conditions: Items<Expr>,
    ) -> Result<Origin, AllocError>
        ensures { IfOk result (λ o. o ≡ record { role = role; conditions = conditions }) }
    {
        let role = Some(Arc::new(alloc, SearchedRole::new(role))?);
        let conditions = if conditions.is_empty() {
            None
        } else {
            Some(Arc::new(alloc, conditions)?)
        };
        Ok(Origin { role, conditions })
    }

    /// What stands in the play itself.
    pub(crate) fn from_play() -> Origin
        ensures { result ≡ from_play }
    {
        Origin {
            role: None,
            conditions: None,
        }
    }

    /// The same, for something else that comes from there.
    pub(crate) fn share(&self) -> Result<Origin, AllocError>
        ensures { IfOk result (λ o. o ≡ self.now) }
    {
        let role = match &self.role {
            Some(role) => Some(role.clone()?),
            None => None,
        };
        let conditions = match &self.conditions {
            Some(conditions) => Some(conditions.clone()?),
            None => None,
        };
        Ok(Origin { role, conditions })
    }

    /// The conditions of the roles.
    pub(crate) fn conditions(&self) -> &[Expr]
        ensures { result.now ≡ self.now.conditions }
    {
        match &self.conditions {
            Some(conditions) => conditions.as_ref().as_slice(),
            None => &[],
        }
    }
}

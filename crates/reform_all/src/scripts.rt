//! Scripts.

ghost use Rattle.std.specs.Prelude.{◌≡◌, IfOk};
ghost use Rattle.py_scopes.specs.Resolve.{scopes_of};
ghost use Rattle.py_scopes.specs.Survey.{surveyed};
ghost use Rattle.reform_all.specs.Module.{module_code};
ghost use Rattle.reform_all.specs.Scripts.{Reformed};

use crate::bound::Bound;
use crate::ending::ReformEnd;
use crate::statements::statements;
use node_tree::{Block, NodeCode, NodeScript, Temps};
use nu_text::RcStr;
use nu_value::{Header, Shape};
use py_ast::Scoped;
use sqlite_items::Items;
use std::alloc::{AllocError, Global};

/// The code of the module.
fn module(alloc: Global, body: Block) -> Result<NodeCode, AllocError>
    ensures { IfOk result (λ code. code ≡ module_code body) }
{
    Ok(NodeCode {
        header: Header {
            scope: RcStr::from_str(alloc, "<module>")?,
            params: Shape::new(alloc),
            generator: false,
            line: 1,
        },
        free: 0,
        body,
    })
}

/// A script of this file name, with its scopes as they are resolved, as primitive statements.
///
/// # Errors
///
/// `Unbuilt` exactly where something in the script is not built yet, in the line of the first such thing.
pub fn reform(alloc: Global, name: &str, script: &Scoped) -> Result<NodeScript, ReformEnd>
    requires { script.now.scopes ≡ scopes_of (surveyed script.now.script.statements) }
    ensures { Reformed name.now script.now result }
{
    let ss = script.script.statements.as_slice();
    let bound = Bound::of(alloc, ss)?;
    let mut temps = Temps::new(alloc, 0);
    let body = statements(alloc, ss, &bound, &mut temps)?;
    let mut codes = Items::new(alloc);
    codes.push(module(alloc, body)?)?;
    Ok(NodeScript {
        name: RcStr::from_str(alloc, name)?,
        scripts: 1,
        codes,
    })
}

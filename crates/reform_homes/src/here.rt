//! Where a walk over a script is.

ghost use Rattle.std.specs.Prelude.{◌≡◌, map, IfOk, None};
ghost use Rattle.py_meaning.specs.Resolved as meaning;

use crate::layout::Layout;
use crate::names::Names;
use crate::place::{Place, enter};
use crate::words::mangled;
use node_tree::{Block, NodeCode};
use nu_text::RcStr;
use nu_value::{Header, Shape};
use reform_names::Home;
use reform_walk::Here;
use std::alloc::{AllocError, Global};

/// The module of a script. Its code has this number.
pub fn module<'a>(
    alloc: Global,
    layout: &'a Layout<'a>,
    first: u32,
) -> Result<Place<'a>, AllocError>
    ensures { IfOk result (λ place. place ≡ meaning.module_context layout.now first) }
{
    enter(alloc, layout, 0, Names::new(alloc), None, first)
}

fn names_of(alloc: Global, params: &Shape) -> Result<Names, AllocError>
    ensures { IfOk result (λ names. names ≡ map (λ p. p.1) params.now) }
{
    let mut names = Names::new(alloc);
    for param in params.as_slice() {
        names.push(&param.1)?;
    }
    Ok(names)
}

// The one parameter of a comprehension or a class block.
fn handed(alloc: Global) -> Result<Names, AllocError>
    ensures { IfOk result (λ names. names ≡ map (λ p. p.1) meaning.handed) }
{
    let name = RcStr::from_str(alloc, ".0")?;
    let mut names = Names::new(alloc);
    names.push(&name)?;
    Ok(names)
}

fn shared(class: &Option<RcStr>) -> Result<Option<RcStr>, AllocError>
    ensures { IfOk result (λ same. same ≡ class.now) }
{
    match class {
        Some(name) => Ok(Some(name.share()?)),
        None => Ok(None),
    }
}

impl<'a> Here for Place<'a> {
    ghost context = { λ place. place };

    fn home(&self, name: &RcStr) -> Result<Home, AllocError> {
        let word = self.word(name)?;
        Ok(self.seat(word))
    }

    fn word(&self, name: &RcStr) -> Result<RcStr, AllocError> {
        mangled(self.alloc, &self.class, name)
    }

    fn cells(&self, alloc: Global, inner: usize) -> Result<Vec<u64>, AllocError> {
        let names = self.layout.free(inner)?;
        let mut cells = Vec::new(alloc);
        for name in names.as_slice() {
            cells.push(self.cell(name))?;
        }
        Ok(cells)
    }

    fn code_number(&self, scope: usize) -> Result<u32, AllocError> {
        match u32::try_from(scope) {
            Ok(scope) => self.first.checked_add(scope).ok_or(AllocError),
            Err(_) => Err(AllocError),
        }
    }

    fn inside(&self, alloc: Global, scope: usize, params: &Shape) -> Result<Self, AllocError> {
        let names = names_of(alloc, params)?;
        let class = shared(&self.class)?;
        enter(alloc, self.layout, scope, names, class, self.first)
    }

    fn inside_class(&self, alloc: Global, scope: usize, name: &RcStr) -> Result<Self, AllocError> {
        let names = handed(alloc)?;
        let class = Some(name.share()?);
        enter(alloc, self.layout, scope, names, class, self.first)
    }

    fn first_free(&self) -> Result<u64, AllocError> {
        Ok(self.end())
    }

    fn code(&self, alloc: Global, params: Shape, body: Block) -> Result<NodeCode, AllocError> {
        let body = self.begun(alloc, self.scope.line, body)?;
        let header = Header {
            scope: self.scope.name.share()?,
            params,
            generator: self.scope.is_generator,
            line: self.scope.line,
        };
        Ok(NodeCode {
            header,
            free: self.free.len() as u64,
            body,
        })
    }
}

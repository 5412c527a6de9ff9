//! A scope in a script, with the temporaries of its names.

ghost use Rattle.std.specs.Prelude.{◌≡◌, ◌+◌, ◌<◌, ◌^◌, length, IfOk, OnOk};
ghost use Rattle.py_meaning.specs.Scopes.{free_names, own_names, local_names, place_in, cell_for};
ghost use Rattle.carries_base.specs.Frames.{behind, local_at, free_at, own_at};
ghost use Rattle.carries_names.specs.Functions.{cell_at};
ghost use Rattle.walk_laws.specs.Contexts.{homes_in};

use crate::layout::Layout;
use crate::locals::{homes, other_names, own_names};
use crate::names::Names;
use nu_text::RcStr;
use py_ast::Scope;
use std::alloc::{AllocError, Global};
use std::collections::HashMap;
use std::marker::Model;

/// Where the walk is: a scope, with its parameters, the class whose names are mangled, and the number of the module's code.
#[derive(Drop)]
pub struct Place<'a> {
    pub(crate) alloc: Global,
    pub(crate) layout: &'a Layout<'a>,
    pub(crate) this: usize,
    pub(crate) scope: &'a Scope,
    pub(crate) captured: &'a Names,
    pub(crate) free: &'a Names,
    pub(crate) params: Names,
    pub(crate) own: Names,
    pub(crate) others: Names,
    pub(crate) homes: HashMap<RcStr, usize>,
    pub(crate) class: Option<RcStr>,
    pub(crate) first: u32,
}

impl<'a> Model for Place<'a> {
    ghost use Rattle.py_meaning.specs.Resolved.{Context};
    ghost use Rattle.reform_homes.specs.Standing.{Stands};

    ghost Value = { Context };

    ghost view = { λ t. record { scopes = t.layout.now; this = t.this; parameters = t.params; class = t.class; first = t.first } };

    ghost invariant = { λ t. Stands t.layout.now t.this t.scope.now t.captured.now t.free.now t.params t.own t.others t.homes.entries };
}

// There are less than 2^63 of them.
fn have_room(params: &Names, free: &Names, own: &Names, others: &Names) -> Result<(), AllocError>
    ensures { OnOk result (length params.now + length free.now + length own.now + length others.now < 2 ^ 63) }
{
    let count = params.len() as u128
        + free.len() as u128
        + own.len() as u128
        + others.len() as u128;
    if count < 1 << 63 {
        Ok(())
    } else {
        Err(AllocError)
    }
}

/// In the scope with this number.
pub fn enter<'a>(
    alloc: Global,
    layout: &'a Layout<'a>,
    this: usize,
    params: Names,
    class: Option<RcStr>,
    first: u32,
) -> Result<Place<'a>, AllocError>
    ensures { IfOk result (λ place. place ≡ record { scopes = layout.now; this = this; parameters = params; class = class; first = first }) }
{
    let scope = layout.scope(this)?;
    let captured = layout.captured(this)?;
    let free = layout.free(this)?;
    let names = scope.names.as_slice();
    let own = own_names(alloc, scope.kind, this, captured, names)?;
    let others = other_names(alloc, scope.kind, this, captured, &params, names)?;
    let homes = homes(alloc, names)?;
    have_room(&params, free, &own, &others)?;
    Ok(Place {
        alloc,
        layout,
        this,
        scope,
        captured,
        free,
        params,
        own,
        others,
        homes,
        class,
        first,
    })
}

impl<'a> Place<'a> {
    /// The temporary of a cell of an enclosing function.
    pub fn free_cell(&self, name: &RcStr) -> u64
        ensures { result ≡ free_at (homes_in self.now) (place_in (free_names self.now.scopes self.now.this) name.now) }
    {
        (self.params.len() + self.free.place(name)) as u64
    }

    /// Of a cell of the frame.
    pub fn own_cell(&self, name: &RcStr) -> u64
        ensures { result ≡ own_at (homes_in self.now) (place_in (own_names self.now.scopes self.now.this) name.now) }
    {
        (self.params.len() + self.free.len() + self.own.place(name)) as u64
    }

    /// Of a local variable.
    pub fn local(&self, name: &RcStr) -> u64
        ensures { result ≡ local_at (homes_in self.now) (place_in (local_names self.now.scopes self.now.this self.now.parameters) name.now) }
    {
        match self.params.find(name) {
            Some(place) => place as u64,
            None => {
                (self.free.len()
                    + self.own.len()
                    + self.params.len()
                    + self.others.place(name)) as u64
            }
        }
    }

    /// Of the names of a class.
    pub fn space(&self) -> u64
        ensures { result ≡ local_at (homes_in self.now) 0 }
    {
        if self.params.len() > 0 {
            0
        } else {
            (self.free.len() + self.own.len()) as u64
        }
    }

    /// Of the cell that an inner scope gets for a name.
    pub fn cell(&self, name: &RcStr) -> u64
        ensures { result ≡ cell_at (homes_in self.now) (cell_for self.now.scopes self.now.this name.now) }
    {
        if self.own.contains(name) {
            self.own_cell(name)
        } else {
            self.free_cell(name)
        }
    }

    /// The first temporary that no name has.
    pub fn end(&self) -> u64
        ensures { result ≡ behind (homes_in self.now) }
    {
        (self.free.len() + self.own.len() + self.params.len() + self.others.len()) as u64
    }
}

//! An open graph as C holds it: the address of an `Opened` that this library has allocated.

ghost use Rattle.std.specs.Prelude.{◌≡◌, Option, Some, None, is_some, IsSome, List, Bool};
ghost use Rattle.std.specs.Prelude.{option_map};
ghost use Rattle.graph_format.specs.Layer.{Layer};
ghost use Rattle.c_opening.specs.Answers.{layers_of};

use crate::opened::Opened;
use gix_commitgraph::Graph;
use std::alloc::Global;
use std::marker::{Model, Send};
use std::mem::{ManuallyDrop, replace};
use std::ptr::null_mut;

/// The address of a graph that C lends for a call, or of none. Many calls may read one graph at a
/// time.
#[repr(C)]
#[derive(Drop)]
pub struct CgAddress {
    at: *const u8,
    pub ghost held: { Option (List Layer × Bool) },
}

impl Model for CgAddress {
    ghost use Rattle.c_opening.specs.Held.{lent};
    ghost use Rattle.c_opening.specs.contracts.opened.Opened.{the_row};

    ghost also_owns = { λ g. lent the_row g.at g.held };
}

impl CgAddress {
    /// The graph at the address.
    fn opened(self) -> &'static Opened
        requires { IsSome self.held }
        ensures { self.held ≡ Some result.now }
    {
        let CgAddress { at } = self;
        unsafe { &*(at as *const Opened) }
    }
}

// What a shared reference holds may go to any thread.
unsafe impl Send for CgAddress {}

/// A graph that C lends for a call, or none.
#[repr(C)]
#[derive(Drop)]
pub struct CgGraph {
    pub address: CgAddress,
    opened: bool,
    ghost opened_is: { opened ≡ is_some address.held },
}

impl CgGraph {
    /// The graph and whether it was checked, if there is one.
    pub fn opened(self) -> Option<&'static Opened>
        ensures { self.address.held ≡ option_map (λ graph. graph.now) result }
    {
        let CgGraph { address, opened } = self;
        if opened { Some(address.opened()) } else { None }
    }

    /// Whether there is a graph.
    pub fn is_open(&self) -> bool
        ensures { result ≡ is_some self.now.address.held }
    {
        self.opened
    }

    /// The graph, which is there: by the same step as `graph`, but without a choice.
    pub fn open_graph(self) -> &'static Graph
        requires { IsSome self.address.held }
        ensures { layers_of self.address.held ≡ Some result.now }
    {
        let CgGraph { address, opened: _ } = self;
        address.opened().graph()
    }

    /// The graph, if there is one.
    pub fn graph(self) -> Option<&'static Graph>
        ensures { layers_of self.address.held ≡ option_map (λ graph. graph.now) result }
    {
        match self.opened() {
            Some(opened) => Some(opened.graph()),
            None => None,
        }
    }
}

/// The address of a graph that C owns, or of none.
#[repr(C)]
#[derive(Drop)]
pub struct CgOwned {
    at: *mut u8,
    alloc: Global,
    pub ghost held: { Option (List Layer × Bool) },
}

impl Model for CgOwned {
    ghost use Rattle.std.specs.contracts.impls.GlobalAllocator.TheImpl.{ghosts};
    ghost use Rattle.c_opening.specs.Held.{owned};
    ghost use Rattle.c_opening.specs.contracts.opened.Opened.{the_row};

    ghost also_owns = { λ g. owned (ghosts.dealloc_token g.alloc) the_row g.at g.held };
}

impl CgOwned {
    /// The address of none.
    fn none(alloc: Global) -> CgOwned
        ensures { result.held ≡ None }
    {
        CgOwned {
            at: null_mut(),
            alloc,
        }
    }

    /// The address of what a box holds.
    fn of(graph: Box<Opened>) -> CgOwned
        ensures { result.held ≡ Some graph.value }
    {
        let (ptr, alloc) = Box::into_raw_with_allocator(graph);
        CgOwned {
            at: ptr as *mut u8,
            alloc,
        }
    }

    /// The box at the address.
    unsafe fn into_box(self) -> Box<Opened>
        requires { IsSome self.held }
        ensures { self.held ≡ Some result.value }
    {
        let CgOwned { at, alloc } = self;
        Box::from_raw(alloc, at as *mut Opened)
    }
}

// The box may be freed by any thread.
unsafe impl Send for CgOwned {}

/// A graph that C owns, or none.
#[repr(C)]
pub struct CgOwner {
    pub address: CgOwned,
    opened: bool,
    ghost opened_is: { opened ≡ is_some address.held },
}

impl Drop for CgOwner {
    /// None is let go while it holds a graph: its box is taken out and freed before.
    fn drop(self)
        requires { self.address.held ≡ None }
    {
        let CgOwner {
            address: _,
            opened: _,
        } = self;
    }
}

impl CgOwner {
    /// No graph.
    fn none(alloc: Global) -> CgOwner
        ensures { result.address.held ≡ None }
    {
        CgOwner {
            address: CgOwned::none(alloc),
            opened: false,
        }
    }

    /// Takes the graph, in its box, if there is one, and leaves none.
    pub(crate) fn take(&mut self, alloc: Global) -> Option<Box<Opened>>
        ensures taken { self.old.address.held ≡ option_map (λ graph. graph.value) result }
        ensures none { self.new.address.held ≡ None }
    {
        let before = replace(self, CgOwner::none(alloc));
        before.into_box()
    }

    /// Writes a graph, in its box. What was there before is not freed.
    pub(crate) fn write(&mut self, graph: Box<Opened>)
        ensures { self.new.address.held ≡ Some graph.value }
    {
        let before = replace(self, CgOwner::of(graph));
        let _before = unsafe { ManuallyDrop::new_unchecked(before) };
    }

    /// A graph, in its box.
    fn of(graph: Box<Opened>) -> CgOwner
        ensures { result.address.held ≡ Some graph.value }
    {
        CgOwner {
            address: CgOwned::of(graph),
            opened: true,
        }
    }

    /// The graph, in its box, if there is one.
    fn into_box(self) -> Option<Box<Opened>>
        ensures { self.address.held ≡ option_map (λ graph. graph.value) result }
    {
        let CgOwner { address, opened } = self;
        if opened {
            Some(unsafe { address.into_box() })
        } else {
            None
        }
    }
}

/// What C holds may go from one thread to another.
fn crosses<T: Send>(_held: &T) {}

pub(crate) fn both_cross(lent: &CgGraph, owned: &CgOwner) {
    crosses(lent);
    crosses(owned);
}

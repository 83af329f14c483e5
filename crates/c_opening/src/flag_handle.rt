//! A flag as C holds it: the address of a `KeptFlag` that this library has allocated.

ghost use Rattle.std.specs.Prelude.{◌≡◌, Option, Some, None, is_some, IsSome};
ghost use Rattle.std.specs.Prelude.{option_map};

use crate::flag::KeptFlag;
use std::alloc::Global;
use std::marker::{Model, Send};
use std::mem::{ManuallyDrop, replace};
use std::ptr::null_mut;

/// The address of a flag that C lends for a call, or of none. Many calls may look at one flag at a
/// time, and raise it.
#[repr(C)]
#[derive(Drop)]
pub struct CgFlagAddress {
    at: *const u8,
    pub ghost held: { Option (Unit {0}) },
}

impl Model for CgFlagAddress {
    ghost use Rattle.c_opening.specs.Held.{lent};
    ghost use Rattle.c_opening.specs.contracts.flag.KeptFlag.{the_row};

    ghost also_owns = { λ g. lent the_row g.at g.held };
}

impl CgFlagAddress {
    /// The flag at the address.
    fn kept(self) -> &'static KeptFlag
        requires { IsSome self.held }
        ensures { self.held ≡ Some result.now }
    {
        let CgFlagAddress { at } = self;
        unsafe { &*(at as *const KeptFlag) }
    }
}

// What a shared reference holds may go to any thread.
unsafe impl Send for CgFlagAddress {}

/// A flag that C lends for a call, or none.
#[repr(C)]
#[derive(Drop)]
pub struct CgFlag {
    pub address: CgFlagAddress,
    kept: bool,
    ghost kept_is: { kept ≡ is_some address.held },
}

impl CgFlag {
    /// The flag, if there is one.
    pub(crate) fn kept(self) -> Option<&'static KeptFlag>
        ensures { self.address.held ≡ option_map (λ flag. flag.now) result }
    {
        let CgFlag { address, kept } = self;
        if kept { Some(address.kept()) } else { None }
    }
}

/// The address of a flag that C owns, or of none.
#[repr(C)]
#[derive(Drop)]
pub struct CgFlagOwned {
    at: *mut u8,
    alloc: Global,
    pub ghost held: { Option (Unit {0}) },
}

impl Model for CgFlagOwned {
    ghost use Rattle.std.specs.contracts.impls.GlobalAllocator.TheImpl.{ghosts};
    ghost use Rattle.c_opening.specs.Held.{owned};
    ghost use Rattle.c_opening.specs.contracts.flag.KeptFlag.{the_row};

    ghost also_owns = { λ g. owned (ghosts.dealloc_token g.alloc) the_row g.at g.held };
}

impl CgFlagOwned {
    /// The address of none.
    fn none(alloc: Global) -> CgFlagOwned
        ensures { result.held ≡ None }
    {
        CgFlagOwned {
            at: null_mut(),
            alloc,
        }
    }

    /// The address of what a box holds.
    fn of(flag: Box<KeptFlag>) -> CgFlagOwned
        ensures { result.held ≡ Some flag.value }
    {
        let (ptr, alloc) = Box::into_raw_with_allocator(flag);
        CgFlagOwned {
            at: ptr as *mut u8,
            alloc,
        }
    }

    /// The box at the address.
    unsafe fn into_box(self) -> Box<KeptFlag>
        requires { IsSome self.held }
        ensures { self.held ≡ Some result.value }
    {
        let CgFlagOwned { at, alloc } = self;
        Box::from_raw(alloc, at as *mut KeptFlag)
    }
}

// The box may be freed by any thread.
unsafe impl Send for CgFlagOwned {}

/// A flag that C owns, or none.
#[repr(C)]
pub struct CgFlagOwner {
    pub address: CgFlagOwned,
    kept: bool,
    ghost kept_is: { kept ≡ is_some address.held },
}

impl Drop for CgFlagOwner {
    /// None is let go while it holds a flag: its box is taken out and freed before.
    fn drop(self)
        requires { self.address.held ≡ None }
    {
        let CgFlagOwner {
            address: _,
            kept: _,
        } = self;
    }
}

impl CgFlagOwner {
    /// No flag.
    fn none(alloc: Global) -> CgFlagOwner
        ensures { result.address.held ≡ None }
    {
        CgFlagOwner {
            address: CgFlagOwned::none(alloc),
            kept: false,
        }
    }

    /// Takes the flag, in its box, if there is one, and leaves none.
    pub(crate) fn take(&mut self, alloc: Global) -> Option<Box<KeptFlag>>
        ensures taken { self.old.address.held ≡ option_map (λ flag. flag.value) result }
        ensures none { self.new.address.held ≡ None }
    {
        let before = replace(self, CgFlagOwner::none(alloc));
        before.into_box()
    }

    /// Writes a flag, in its box. What was there before is not freed.
    pub(crate) fn write(&mut self, flag: Box<KeptFlag>)
        ensures { self.new.address.held ≡ Some flag.value }
    {
        let before = replace(self, CgFlagOwner::of(flag));
        let _before = unsafe { ManuallyDrop::new_unchecked(before) };
    }

    /// A flag, in its box.
    fn of(flag: Box<KeptFlag>) -> CgFlagOwner
        ensures { result.address.held ≡ Some flag.value }
    {
        CgFlagOwner {
            address: CgFlagOwned::of(flag),
            kept: true,
        }
    }

    /// The flag, in its box, if there is one.
    fn into_box(self) -> Option<Box<KeptFlag>>
        ensures { self.address.held ≡ option_map (λ flag. flag.value) result }
    {
        let CgFlagOwner { address, kept } = self;
        if kept {
            Some(unsafe { address.into_box() })
        } else {
            None
        }
    }
}

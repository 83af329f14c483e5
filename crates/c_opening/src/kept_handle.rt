//! Bytes that a call has made as C holds them: the address of a `Kept` that this library has
//! allocated.

ghost use Rattle.std.specs.Prelude.{◌≡◌, Option, Some, None, is_some, IsSome, List, ℕ};
ghost use Rattle.std.specs.Prelude.{option_map};

use crate::kept::Kept;
use std::alloc::Global;
use std::marker::{Model, Send};
use std::mem::{ManuallyDrop, replace};
use std::ptr::null_mut;

/// The address of bytes that C lends for a call, or of none. Many calls may read them at a time.
#[repr(C)]
#[derive(Drop)]
pub struct CgBytesAddress {
    at: *const u8,
    pub ghost held: { Option (List ℕ) },
}

impl Model for CgBytesAddress {
    ghost use Rattle.c_opening.specs.Held.{lent};
    ghost use Rattle.c_opening.specs.contracts.kept.Kept.{the_row};

    ghost also_owns = { λ g. lent the_row g.at g.held };
}

impl CgBytesAddress {
    /// The bytes at the address.
    fn kept(self) -> &'static Kept
        requires { IsSome self.held }
        ensures { self.held ≡ Some result.now }
    {
        let CgBytesAddress { at } = self;
        unsafe { &*(at as *const Kept) }
    }
}

// What a shared reference holds may go to any thread.
unsafe impl Send for CgBytesAddress {}

/// Bytes that C lends for a call, or none.
#[repr(C)]
#[derive(Drop)]
pub struct CgBytes {
    pub address: CgBytesAddress,
    kept: bool,
    ghost kept_is: { kept ≡ is_some address.held },
}

impl CgBytes {
    /// The bytes, if there are any.
    pub fn kept(self) -> Option<&'static Kept>
        ensures { self.address.held ≡ option_map (λ bytes. bytes.now) result }
    {
        let CgBytes { address, kept } = self;
        if kept { Some(address.kept()) } else { None }
    }
}

/// The address of bytes that C owns, or of none.
#[repr(C)]
#[derive(Drop)]
pub struct CgBytesOwned {
    at: *mut u8,
    alloc: Global,
    pub ghost held: { Option (List ℕ) },
}

impl Model for CgBytesOwned {
    ghost use Rattle.std.specs.contracts.impls.GlobalAllocator.TheImpl.{ghosts};
    ghost use Rattle.c_opening.specs.Held.{owned};
    ghost use Rattle.c_opening.specs.contracts.kept.Kept.{the_row};

    ghost also_owns = { λ g. owned (ghosts.dealloc_token g.alloc) the_row g.at g.held };
}

impl CgBytesOwned {
    /// The address of none.
    fn none(alloc: Global) -> CgBytesOwned
        ensures { result.held ≡ None }
    {
        CgBytesOwned {
            at: null_mut(),
            alloc,
        }
    }

    /// The address of what a box holds.
    fn of(bytes: Box<Kept>) -> CgBytesOwned
        ensures { result.held ≡ Some bytes.value }
    {
        let (ptr, alloc) = Box::into_raw_with_allocator(bytes);
        CgBytesOwned {
            at: ptr as *mut u8,
            alloc,
        }
    }

    /// The box at the address.
    unsafe fn into_box(self) -> Box<Kept>
        requires { IsSome self.held }
        ensures { self.held ≡ Some result.value }
    {
        let CgBytesOwned { at, alloc } = self;
        Box::from_raw(alloc, at as *mut Kept)
    }
}

// The box may be freed by any thread.
unsafe impl Send for CgBytesOwned {}

/// Bytes that C owns, or none.
#[repr(C)]
pub struct CgBytesOwner {
    pub address: CgBytesOwned,
    kept: bool,
    ghost kept_is: { kept ≡ is_some address.held },
}

impl Drop for CgBytesOwner {
    /// None is let go while it holds bytes: their box is taken out and freed before.
    fn drop(self)
        requires { self.address.held ≡ None }
    {
        let CgBytesOwner {
            address: _,
            kept: _,
        } = self;
    }
}

impl CgBytesOwner {
    /// No bytes.
    fn none(alloc: Global) -> CgBytesOwner
        ensures { result.address.held ≡ None }
    {
        CgBytesOwner {
            address: CgBytesOwned::none(alloc),
            kept: false,
        }
    }

    /// Takes the bytes, in their box, if there are any, and leaves none.
    pub fn take(&mut self, alloc: Global) -> Option<Box<Kept>>
        ensures taken { self.old.address.held ≡ option_map (λ bytes. bytes.value) result }
        ensures none { self.new.address.held ≡ None }
    {
        let before = replace(self, CgBytesOwner::none(alloc));
        before.into_box()
    }

    /// Writes bytes, in their box. What was there before is not freed.
    pub fn write(&mut self, bytes: Box<Kept>)
        ensures { self.new.address.held ≡ Some bytes.value }
    {
        let before = replace(self, CgBytesOwner::of(bytes));
        let _before = unsafe { ManuallyDrop::new_unchecked(before) };
    }

    /// Bytes, in their box.
    fn of(bytes: Box<Kept>) -> CgBytesOwner
        ensures { result.address.held ≡ Some bytes.value }
    {
        CgBytesOwner {
            address: CgBytesOwned::of(bytes),
            kept: true,
        }
    }

    /// The bytes, in their box, if there are any.
    fn into_box(self) -> Option<Box<Kept>>
        ensures { self.address.held ≡ option_map (λ bytes. bytes.value) result }
    {
        let CgBytesOwner { address, kept } = self;
        if kept {
            Some(unsafe { address.into_box() })
        } else {
            None
        }
    }
}

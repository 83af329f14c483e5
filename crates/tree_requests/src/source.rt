//! A source of trees that asks for them.

ghost use Rattle.std.specs.Prelude.{◌≡◌, ◌≢◌, [], List, IfErr, OnOk, Some};
ghost use Rattle.gix_hash_core.specs.Oid.{oid_bytes};
ghost use Rattle.object_stream.specs.declared.object_type.ObjectType.TheVariants.{Tree};
ghost use Rattle.tree_objects.specs.Tree.{TreeEntry, IsTree};
ghost use Rattle.tree_requests.specs.TakenTree.{IsTaken, AreRequestLines};
ghost use Rattle.tree_requests.specs.TreeRefusal.{IsNotGiven};

use crate::asker::Asker;
use crate::error::TreeRequestError;
use crate::exchange::Exchange;
use crate::store::TreeStore;
use gix_hash_core::{Kind, ObjectId, oid};
use object_requests::{RequestError, Requests};
use std::alloc::Global;
use std::io::{Read, Write};
use std::marker::{Model, PhantomData};
use tree_changes::TreeSource;

/// Trees that are asked for through a writer, and read from a reader, which has to answer as
/// `git cat-file --batch` does. A contract sees the kind of their ids.
#[derive(Drop)]
pub struct TreeRequests<E: Exchange, R: Read, W: Write> {
    asker: Asker<R, W>,
    /// Why no more trees can be read.
    broken: Option<RequestError>,
    exchange: PhantomData<E>,
}

impl<E: Exchange, R: Read, W: Write> Model for TreeRequests<E, R, W> {
    ghost use Rattle.gix_hash_core.specs.declared.kind.Kind.{Kind};
    ghost use Rattle.tree_requests.specs.Asking.{IsAsking};

    ghost Value = { Kind };

    ghost view = { λ s. s.asker.requests.kind };

    ghost invariant = { λ s. IsAsking E.stream E.written s.asker.requests s.asker.store s.broken
        (R.remaining s.asker.reader) (W.contents s.asker.writer) };
}

impl<E: Exchange, R: Read, W: Write> TreeRequests<E, R, W> {
    /// A source that has asked for nothing yet. The requests, which are for trees, have asked for
    /// nothing either.
    pub fn new(alloc: Global, requests: Requests, reader: R, writer: W) -> TreeRequests<E, R, W>
        requires trees { requests.type ≡ Tree }
        requires asked { requests.asked ≡ [] }
        requires ahead { requests.ahead ≡ [] }
        requires stream { E.stream ≡ R.remaining reader }
        requires written { E.written ≡ W.contents writer }
        ensures { result ≡ requests.kind }
    {
        TreeRequests {
            asker: Asker {
                requests,
                reader,
                writer,
                store: TreeStore::new(alloc),
            },
            broken: None,
            exchange: PhantomData,
        }
    }

    /// Asks for a tree that will be wanted, if fewer than 64 wait, and it is not there. What goes
    /// wrong is told where the next tree is read.
    pub fn ahead(&mut self, id: oid<'_>)
        ensures { self.new ≡ self.old }
    {
        if self.broken.is_some() {
            return;
        }
        if let Err(error) = self.asker.hint::<E>(id.to_owned()) {
            self.broken = Some(error);
        }
    }

    /// Reads the tree with an id: puts its bytes in the place of all that a buffer holds. Trees
    /// that were asked for before it are read first, and kept.
    ///
    /// # Errors
    ///
    /// `Request` where the reader does not go on with the entry of one of these trees, or a read or
    /// a write failed, or memory ran out; from then on, no tree is given that is not kept. `NoTree`
    /// where the contents with this id are no tree.
    pub fn read_tree(
        &mut self,
        id: ObjectId,
        contents: &mut Vec<u8>,
    ) -> Result<(), TreeRequestError>
        ensures kind { self.new ≡ self.old }
        ensures taken { OnOk result (IsTaken self.old E.stream id contents.new.items) }
        ensures tree { OnOk result ((entries : List TreeEntry)
            × IsTree self.old contents.new.items entries) }
        ensures refused { IfErr result (IsNotGiven self.old E.stream id) }
    {
        if let Some(kept) = self.asker.store.get(&id) {
            return put_into(contents, kept);
        }
        if let Some(error) = &self.broken {
            return Err(TreeRequestError::Request(*error));
        }
        match self.asker.fetch::<E>(id) {
            Ok(None) => put_into(contents, self.asker.requests.contents()),
            Ok(Some(error)) => Err(TreeRequestError::NoTree(id, error)),
            Err(error) => {
                let told = &error;
                self.broken = Some(*told);
                Err(TreeRequestError::Request(error))
            }
        }
    }

    /// What was read from and written to, and why no more trees can be read, if that is so. Unless
    /// a write failed, all that was written are lines that ask for objects.
    pub fn finish(self) -> (R, W, Option<RequestError>)
        ensures { result.2 ≢ Some RequestError.WriteFailed
            → AreRequestLines E.written (W.contents result.1) }
    {
        let TreeRequests { asker, broken, .. } = self;
        let (reader, writer) = asker.into_ends();
        (reader, writer, broken)
    }
}

impl<E: Exchange, R: Read, W: Write> TreeSource for TreeRequests<E, R, W> {
    ghost use Rattle.std.specs.Prelude.{IsSomeAnd};
    ghost use Rattle.tree_requests.specs.TreeStream.{HasTreesOf};
    ghost use Rattle.tree_requests.specs.TreeRefusal.{IsNotGiven};

    type Error = TreeRequestError;

    ghost says = { λ kind world. IsSomeAnd E.stream (λ stream. HasTreesOf kind stream world) };

    ghost kind_is = { λ kind. kind };

    ghost has_refused = { λ kind id error. IsNotGiven kind E.stream id error };

    fn kind(&self) -> Kind {
        self.asker.requests.kind()
    }

    fn read(&mut self, id: &[u8], contents: &mut Vec<u8>) -> Result<(), TreeRequestError> {
        let Some(id) = oid::try_from_bytes(id) else {
            return Err(TreeRequestError::NoId);
        };
        self.read_tree(id.to_owned(), contents)
    }

    fn hint(&mut self, id: &[u8]) {
        if let Some(id) = oid::try_from_bytes(id) {
            self.ahead(id);
        }
    }
}

/// Puts bytes in the place of all that a buffer holds.
fn put_into(contents: &mut Vec<u8>, bytes: &[u8]) -> Result<(), TreeRequestError>
    ensures put { OnOk result (contents.new.items ≡ bytes.now) }
    ensures refused { IfErr result (λ error.
        error ≡ TreeRequestError.Request RequestError.OutOfMemory) }
{
    contents.clear();
    contents.extend_from_slice(bytes)?;
    Ok(())
}

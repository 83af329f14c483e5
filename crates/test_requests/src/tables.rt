//! Entries as `git cat-file --batch` wrote them, and other answers.

use crate::trees::Row;
use gix_hash_core::Kind;
use object_stream::{EntryError, ObjectType};

/// The kind of the ids, the type of the objects, the lines that ask for them, and what answers.
pub type Taken = (Kind, ObjectType, &'static str, &'static [u8]);

pub const CHILD: &str = "1851fd55942b2606bbfe2d06f0bd8689ffbc9f59";

pub const ROOT: &str = "8e4c3c127b3e277dca16cb82ce736eed58eee272";

/// The id of a file.
pub const HELLO: &str = "ce013625030ba8dba906f756967f9e9ca394464a";

/// Two commits, a file, a directory, a tag, and a commit with an id of SHA-256.
pub const TAKEN: &[Taken] = &[
    (
        Kind::Sha1,
        ObjectType::Commit,
        "1851fd55942b2606bbfe2d06f0bd8689ffbc9f59\n8e4c3c127b3e277dca16cb82ce736eed58eee272\n",
        b"1851fd55942b2606bbfe2d06f0bd8689ffbc9f59 commit 172\n\
        tree 4b825dc642cb6eb9a060e54bf8d69288fbee4904\n\
        parent 8e4c3c127b3e277dca16cb82ce736eed58eee272\n\
        author A <a@b.c> 1000000000 +0000\n\
        committer A <a@b.c> 1000000000 +0000\n\
        \n\
        child\n\
        \n\
        8e4c3c127b3e277dca16cb82ce736eed58eee272 commit 123\n\
        tree 4b825dc642cb6eb9a060e54bf8d69288fbee4904\n\
        author A <a@b.c> 1000000000 +0000\n\
        committer A <a@b.c> 1000000000 +0000\n\
        \n\
        root\n\
        \n",
    ),
    (
        Kind::Sha1,
        ObjectType::Blob,
        "ce013625030ba8dba906f756967f9e9ca394464a\n",
        b"ce013625030ba8dba906f756967f9e9ca394464a blob 6\nhello\n\n",
    ),
    (
        Kind::Sha1,
        ObjectType::Tree,
        "10731d0b170b98481a00bdca161e874e0ab93377\n",
        b"10731d0b170b98481a00bdca161e874e0ab93377 tree 29\n\
        100644 f\0\xce\x01\x36\x25\x03\x0b\xa8\xdb\xa9\x06\xf7\x56\x96\x7f\x9e\
        \x9c\xa3\x94\x46\x4a\n",
    ),
    (
        Kind::Sha1,
        ObjectType::Tag,
        "e3396c343cf1d077266545fed25fa31a9b60eceb\n",
        b"e3396c343cf1d077266545fed25fa31a9b60eceb tag 106\n\
        object 1851fd55942b2606bbfe2d06f0bd8689ffbc9f59\n\
        type commit\n\
        tag v1\n\
        tagger A <a@b.c> 1000000000 +0000\n\
        \n\
        one\n\
        \n",
    ),
    (
        Kind::Sha256,
        ObjectType::Commit,
        "8a670ef7b3fdbac11419834298938b3512886f6b2fe5a797851278f46e495845\n",
        b"8a670ef7b3fdbac11419834298938b3512886f6b2fe5a797851278f46e495845 commit 147\n\
        tree 6ef19b41225c5369f1c104d45d8d85efa9b057b53b14b4b9b939dd74decc5321\n\
        author A <a@b.c> 1000000000 +0000\n\
        committer A <a@b.c> 1000000000 +0000\n\
        \n\
        root\n\
        \n",
    ),
];

/// The type that is asked for, the id, what answers, and why it is refused.
pub type Refused = (ObjectType, &'static str, &'static [u8], EntryError);

/// A file is asked for as a commit, is missing, is cut off, has another id, has other contents, or
/// is followed by another byte than a line feed.
pub const REFUSED: &[Refused] = &[
    (
        ObjectType::Commit,
        HELLO,
        b"ce013625030ba8dba906f756967f9e9ca394464a blob 6\nhello\n\n",
        EntryError::OtherType,
    ),
    (
        ObjectType::Blob,
        HELLO,
        b"ce013625030ba8dba906f756967f9e9ca394464a missing\n",
        EntryError::Missing,
    ),
    (
        ObjectType::Blob,
        HELLO,
        b"ce013625030ba8dba906f756967f9e9ca394464a blob 6\nhel",
        EntryError::Ends,
    ),
    (ObjectType::Blob, HELLO, b"", EntryError::Ends),
    (
        ObjectType::Blob,
        ROOT,
        b"ce013625030ba8dba906f756967f9e9ca394464a blob 6\nhello\n\n",
        EntryError::OtherId,
    ),
    (
        ObjectType::Blob,
        HELLO,
        b"ce013625030ba8dba906f756967f9e9ca394464a blob 6\nHello\n\n",
        EntryError::OtherContents,
    ),
    (
        ObjectType::Blob,
        HELLO,
        b"ce013625030ba8dba906f756967f9e9ca394464a blob 6\nhello\nx",
        EntryError::NoEntry,
    ),
];

/// As many digits as no id has bytes.
pub const NO_FILE: &str = "ce013625";

/// A tree with the file `f`.
pub const FIRST: Row = (
    "10731d0b170b98481a00bdca161e874e0ab93377",
    b"100644 f\0\xce\x01\x36\x25\x03\x0b\xa8\xdb\xa9\x06\xf7\x56\x96\x7f\x9e\
      \x9c\xa3\x94\x46\x4a",
);

/// One with the file `g`.
pub const SECOND: Row = (
    "10ad8796cd0c9bcd6073d54a85348c69a04152d7",
    b"100644 g\0\xce\x01\x36\x25\x03\x0b\xa8\xdb\xa9\x06\xf7\x56\x96\x7f\x9e\
      \x9c\xa3\x94\x46\x4a",
);

/// A tree in which the first one is the directory `d`.
pub const UPPER: Row = (
    "610d5853f83d074babbf53f28eac09a52fe96976",
    b"40000 d\0\x10\x73\x1d\x0b\x17\x0b\x98\x48\x1a\x00\xbd\xca\x16\x1e\x87\x4e\x0a\
      \xb9\x33\x77",
);

/// One in which the second one is.
pub const UPPER_NEW: Row = (
    "aa00ecc725876de54d54d4229e774116fd2af06a",
    b"40000 d\0\x10\xad\x87\x96\xcd\x0c\x9b\xcd\x60\x73\xd5\x4a\x85\x34\x8c\x69\xa0\
      \x41\x52\xd7",
);

/// Contents that are no entry.
pub const BAD: Row = ("f42941c78e101ff62b3e2f6e468c3e310f703259", b"x");

/// The file `b`, and then the file `a`.
pub const OUT_OF_ORDER: Row = (
    "66efc072db3ad9e5c18b73639ec799df66b5a2aa",
    b"100644 b\0\xce\x01\x36\x25\x03\x0b\xa8\xdb\xa9\x06\xf7\x56\x96\x7f\x9e\
      \x9c\xa3\x94\x46\x4a\
      100644 a\0\xce\x01\x36\x25\x03\x0b\xa8\xdb\xa9\x06\xf7\x56\x96\x7f\x9e\
      \x9c\xa3\x94\x46\x4a",
);

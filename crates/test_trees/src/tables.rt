//! Trees as `git mktree` makes them, or `git hash-object -t tree --literally` where it makes none;
//! their entries as `git ls-tree` shows them; and what changes from one to another, as `git
//! diff-tree -r --no-renames --name-only` lists it, or for no old tree `git ls-tree -r`. (Git
//! 2.39.5, in repositories of both kinds of ids.)

use Named::{Other, Tree};
use tree_objects::EntryKind;
use tree_objects::EntryKind::{Directory, Executable, File, Link, Submodule};

/// What an entry names: the tree with this number in [`TREES`], or what has an id that repeats this
/// byte.
#[derive(Clone, Copy)]
pub enum Named {
    Tree(usize),
    Other(u8),
}

/// The mode of an entry as its tree spells it, what `git ls-tree` says that it is, its name, and
/// what it names.
pub type EntryRow = (&'static [u8], EntryKind, &'static [u8], Named);

/// The ids of a tree, of either kind, and its entries.
pub type TreeRow = (&'static str, &'static str, &'static [EntryRow]);

/// The old tree, the new one, and the paths that are changed.
pub type ChangeRow = (Option<usize>, usize, &'static [&'static [u8]]);

/// The numbers of trees in [`TREES`].
pub const DEEP: usize = 0;

pub const DEEP_NEW: usize = 1;

pub const D: usize = 2;

pub const D_NEW: usize = 3;

pub const D_MOVED: usize = 4;

pub const BASE: usize = 5;

pub const MODE: usize = 6;

pub const SUBMODULE: usize = 7;

pub const LINK: usize = 8;

pub const NESTED: usize = 9;

pub const MOVED: usize = 10;

pub const GONE: usize = 11;

pub const BELOW: usize = 12;

pub const EMPTY: usize = 13;

pub const FILES: usize = 14;

pub const FOLDED: usize = 15;

pub const NAMED: usize = 16;

pub const OLD_MODES: usize = 17;

pub const NEW_MODES: usize = 18;

pub const OLD_TYPES: usize = 19;

pub const NEW_TYPES: usize = 20;

pub const BOTH: usize = 21;

pub const BOTH_NEW: usize = 22;

/// The trees.
pub const TREES: &[TreeRow] = &[
    (
        "e60cf7926e9f1c8752bf1e170517fbf9cc8b4475",
        "810d9efafdcaae478f3047cab780fd6db5a8d896a799abfb7238e6b61f2bf48e",
        &[(b"100644", File, b"deep", Other(0x11))],
    ),
    (
        "4fc37bef8cb974013ff854a5353984d767a2bb81",
        "1a53f6a7558e859b71b3a78b43aa6d07576756e987d078f691e0ff42d9e880d1",
        &[(b"100644", File, b"deep", Other(0x22))],
    ),
    (
        "0c575a3dd037491994ae24eb05acc39c7bc0e527",
        "35722235e2e6e660430222cafbca752f38316e13c26c983809bc5e0ebb54e333",
        &[
            (b"40000", Directory, b"e", Tree(DEEP)),
            (b"100644", File, b"x", Other(0x33)),
        ],
    ),
    (
        "27c18e8ad274677c5948f12e0437672f016f0240",
        "9a86732e055e57b93d5f70cbd2891e507e9981f8153b966d229fd68a4b256410",
        &[
            (b"40000", Directory, b"e", Tree(DEEP_NEW)),
            (b"100644", File, b"x", Other(0x33)),
        ],
    ),
    (
        "9cdae53c9804377d7de6d99ea1a43105ffd6244a",
        "7403fe2ff3aa3ed5093d226d19090635649d296ebfb4592c0e84c3894b799d4c",
        &[
            (b"40000", Directory, b"e", Tree(DEEP)),
            (b"100644", File, b"y", Other(0x33)),
        ],
    ),
    (
        "f13f567a25ac817ed3a9f04102662dcbe35967fc",
        "535313a6ac1ef269c7f90b57482654046d176ca3f4c387ade48cd79eb30c7012",
        &[
            (b"100644", File, b"a", Other(0x44)),
            (b"100755", Executable, b"b", Other(0x55)),
            (b"40000", Directory, b"d", Tree(D)),
            (b"120000", Link, b"l", Other(0x66)),
            (b"160000", Submodule, b"s", Other(0x77)),
        ],
    ),
    (
        "1b90163739637b50371fa23a511ebe760a324118",
        "54008a96036f55ce5880c8da1de11a45b64e1c1de966c8d4869c12f7839940aa",
        &[
            (b"100755", Executable, b"a", Other(0x44)),
            (b"100755", Executable, b"b", Other(0x55)),
            (b"40000", Directory, b"d", Tree(D)),
            (b"120000", Link, b"l", Other(0x66)),
            (b"160000", Submodule, b"s", Other(0x77)),
        ],
    ),
    (
        "6a989b1e1be7d165210b14cd724e577a6c5bb150",
        "84567494f6c577629629c53f70d57d0da19dc03456ba8e8eb0da42e6bba79063",
        &[
            (b"100644", File, b"a", Other(0x44)),
            (b"100755", Executable, b"b", Other(0x55)),
            (b"40000", Directory, b"d", Tree(D)),
            (b"120000", Link, b"l", Other(0x66)),
            (b"160000", Submodule, b"s", Other(0x88)),
        ],
    ),
    (
        "b929abfcaf2417de19db82822e7f9b18ebd18e99",
        "4ed334314446d331ae50d7dedd06eddb67315256240e26a406edea4def6dc080",
        &[
            (b"100644", File, b"a", Other(0x44)),
            (b"100755", Executable, b"b", Other(0x55)),
            (b"40000", Directory, b"d", Tree(D)),
            (b"100644", File, b"l", Other(0x66)),
            (b"160000", Submodule, b"s", Other(0x77)),
        ],
    ),
    (
        "96062b483304122e35db9cf57ef61680ee010dc4",
        "93ea1c2f7faee85e1ffb6c03dd9b136b3fcb6c7f5bf8129e8f828e928ade630b",
        &[
            (b"100644", File, b"a", Other(0x44)),
            (b"100755", Executable, b"b", Other(0x55)),
            (b"40000", Directory, b"d", Tree(D_NEW)),
            (b"120000", Link, b"l", Other(0x66)),
            (b"160000", Submodule, b"s", Other(0x77)),
        ],
    ),
    (
        "8f10a104aa1000415c3963d102ece1eee47ed117",
        "05217902d359c0a959751e5677eec50e1f57260c593dc41f9fad9edecfc46da1",
        &[
            (b"100644", File, b"a", Other(0x44)),
            (b"100755", Executable, b"b", Other(0x55)),
            (b"40000", Directory, b"d", Tree(D_MOVED)),
            (b"120000", Link, b"l", Other(0x66)),
            (b"160000", Submodule, b"s", Other(0x77)),
        ],
    ),
    (
        "df1d1e901d8286c2a04b690010e71cd5a7a583c7",
        "70f27c3441818f7465ed242ce4c2677a10c62fef0e7b35d7438acdfe8b42cb52",
        &[
            (b"100644", File, b"a", Other(0x44)),
            (b"100755", Executable, b"b", Other(0x55)),
            (b"120000", Link, b"l", Other(0x66)),
            (b"160000", Submodule, b"s", Other(0x77)),
        ],
    ),
    (
        "f8bce32a15c26c7ef135c24d0edb2f0d5a313fd7",
        "e5fde6a4ce5d3c51fb955dd7dbd26ab51cd9819b7c3226c587eb0a01f6b46f08",
        &[
            (b"100644", File, b"a", Other(0x44)),
            (b"100755", Executable, b"b", Other(0x55)),
            (b"40000", Directory, b"d", Tree(D)),
            (b"120000", Link, b"l", Other(0x66)),
            (b"40000", Directory, b"s", Tree(DEEP)),
        ],
    ),
    (
        "4b825dc642cb6eb9a060e54bf8d69288fbee4904",
        "6ef19b41225c5369f1c104d45d8d85efa9b057b53b14b4b9b939dd74decc5321",
        &[],
    ),
    (
        "2f0b488cd002d64b132226ff7b4145114ef98157",
        "c759c0c8140d2487082b62b016f5ca2312b6d3135034f9e95eea7281203125cf",
        &[
            (b"100644", File, b"a", Other(0x11)),
            (b"100644", File, b"a-b", Other(0x22)),
            (b"100644", File, b"a.c", Other(0x33)),
            (b"100644", File, b"a0", Other(0x44)),
        ],
    ),
    (
        "cabf494d15fcea1c4067905c8dcdd42b913c043e",
        "a2b4b5649dc91c7c1ff202acf7bfb3904f0a3eac52961ec16fb9d6f8bc7934b6",
        &[
            (b"100644", File, b"a-b", Other(0x55)),
            (b"100644", File, b"a.c", Other(0x33)),
            (b"40000", Directory, b"a", Tree(D)),
            (b"100644", File, b"a0", Other(0x66)),
        ],
    ),
    (
        "f9192ddd514d9b645c45ec7e5e1e7ec4dba1b551",
        "ce7f4bdba41d2c484355c9c33a5baad7d9ebb036171248038dcc561bd2b7796e",
        &[
            (b"100644", File, b" ", Other(0x11)),
            (b"100644", File, b"\"q\"", Other(0x11)),
            (b"100644", File, b"line\nfeed", Other(0x11)),
            (b"100644", File, b"\xc3\xa9", Other(0x11)),
            (b"40000", Directory, b"\xe4", Tree(DEEP)),
            (b"100644", File, b"\xff\x80", Other(0x11)),
        ],
    ),
    (
        "4f035fcee5d881909dacccc3aed1e4fd3589deb3",
        "5847fa9dee2aa54a631d936df330aa9bf58288c6ca75acaef20bdb81848c0589",
        &[
            (b"100664", File, b"a", Other(0x44)),
            (b"100600", File, b"b", Other(0x55)),
        ],
    ),
    (
        "48dbc68121e0724241781633c33bdadadcf95845",
        "056cb6299cd1a294a778ce01b0f3ab816e4ef2e150eec004e6ac6af847b86343",
        &[
            (b"100644", File, b"a", Other(0x44)),
            (b"0100755", Executable, b"b", Other(0x55)),
        ],
    ),
    (
        "bcef5627a9bbe0af317f50e92bf9deb3ca1e84be",
        "474d71fdebba669be3cdf98399a5640c0c0e139b6ae022018e2a92940995764b",
        &[
            (b"777", Submodule, b"a", Other(0x44)),
            (b"40755", Directory, b"d", Tree(DEEP)),
        ],
    ),
    (
        "655910593469ceb9dedf89577f2c343a04d59124",
        "b24df3d979b5f1dfe6fdf72b4211a4835611998f78aacad9de2bb2f0381ea104",
        &[
            (b"160000", Submodule, b"a", Other(0x44)),
            (b"040000", Directory, b"d", Tree(DEEP_NEW)),
        ],
    ),
    (
        "d7bc0026f909f2a2c0994a41b65836fa13ee821a",
        "7c19ec3e5ad70e52327e6e8566f77107d5d503537a934b832c87226a7717f8d6",
        &[
            (b"100644", File, b"a", Other(0x11)),
            (b"100644", File, b"a.c", Other(0x33)),
            (b"40000", Directory, b"a", Tree(DEEP)),
        ],
    ),
    (
        "e306109319f4dd1cdbeea3a8bde14180ff7f079c",
        "7961e30eec6ad43c07078d6ad96c4320519b6d8c22d2f7b85ce7d5d5277db180",
        &[
            (b"100644", File, b"a", Other(0x22)),
            (b"100644", File, b"a.c", Other(0x33)),
            (b"40000", Directory, b"a", Tree(DEEP_NEW)),
        ],
    ),
];

/// What changes between them.
pub const CHANGES: &[ChangeRow] = &[
    (None, BASE, &[b"a", b"b", b"d/e/deep", b"d/x", b"l", b"s"]),
    (Some(BASE), MODE, &[b"a"]),
    (Some(BASE), SUBMODULE, &[b"s"]),
    (Some(BASE), LINK, &[b"l"]),
    (Some(BASE), NESTED, &[b"d/e/deep"]),
    (Some(BASE), MOVED, &[b"d/x", b"d/y"]),
    (Some(BASE), GONE, &[b"d/e/deep", b"d/x"]),
    (Some(GONE), BASE, &[b"d/e/deep", b"d/x"]),
    (Some(BASE), BELOW, &[b"s", b"s/deep"]),
    (Some(BELOW), BASE, &[b"s", b"s/deep"]),
    (
        Some(BASE),
        EMPTY,
        &[b"a", b"b", b"d/e/deep", b"d/x", b"l", b"s"],
    ),
    (None, EMPTY, &[]),
    (Some(EMPTY), EMPTY, &[]),
    (Some(BASE), BASE, &[]),
    (
        Some(FILES),
        FOLDED,
        &[b"a", b"a-b", b"a/e/deep", b"a/x", b"a0"],
    ),
    (
        Some(FOLDED),
        FILES,
        &[b"a", b"a-b", b"a/e/deep", b"a/x", b"a0"],
    ),
    (
        None,
        NAMED,
        &[
            b" ",
            b"\"q\"",
            b"line\nfeed",
            b"\xc3\xa9",
            b"\xe4/deep",
            b"\xff\x80",
        ],
    ),
    (
        Some(EMPTY),
        NAMED,
        &[
            b" ",
            b"\"q\"",
            b"line\nfeed",
            b"\xc3\xa9",
            b"\xe4/deep",
            b"\xff\x80",
        ],
    ),
    (Some(OLD_MODES), NEW_MODES, &[b"b"]),
    (Some(OLD_TYPES), NEW_TYPES, &[b"d/deep"]),
    (Some(BOTH), BOTH_NEW, &[b"a", b"a/deep"]),
];
